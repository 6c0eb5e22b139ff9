// Runs a stored net, from the file that the first argument names or from standard input, for 6 cycles over 1, 2, 3 for every source, and prints each delivery.
#![tactic(auto)]

ghost use Rattle.std.specs.Prelude.{◌*◌, ◌≤◌, length};

// Prints a record: its cycle, its channel and its word. A write that fails is passed over.
fn print_record(rt: &impl Print, r: u64) {
    let cycle = recorded::cycle_of(r);
    let channel = recorded::channel_of(r);
    let word = recorded::word_of(r);
    let _ = println!(rt; "{cycle} {channel} {word}");
}

// Prints the first n records of a trace.
fn print_records(rt: &impl Print, trace: &[u8], n: usize)
    requires { 8 * n ≤ length trace.now }
{
    for i in 0..n {
        print_record(rt, recorded::record_at(trace, i));
    }
}

// Prints what comes of a form, or the refusal that it earns. The trace has room for a delivery on every channel in each of 6 cycles.
fn run_form(rt: &impl Print, form: &[u8]) {
    let mut trace = [0u8; 6144];
    let ran = sample::run_form(form, &mut trace);
    if ran.refusal != 0 {
        let _ = println!(rt; "refused {}", ran.refusal);
        return;
    }
    print_records(rt, &trace, ran.records as usize);
    let _ = println!(rt; "end {}", ran.cycles);
}

// stays: a main that reads a form and hands it on is no longer than a call of one that is shared.
fn main(rt: HostRuntime) {
    let mut buf = [0u8; input::ROOM];
    if let Some(n) = input::read_form(&rt, b"netrun", &mut buf) {
        run_form(&rt, &buf[..n]);
    }
}
