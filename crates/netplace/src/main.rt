// Lists the placements of a stored net that load: of the file that the first argument names, or of standard input. The codes of each as digits, channel 0 first, a line each.
#![tactic(auto)]

ghost use Rattle.std.specs.Prelude.{◌≤◌};

use placements::numbers;

// Prints the codes of the numbers, of n channels each. A write that fails is passed over.
fn print_lines(rt: &impl Print, n: usize, listed: &[u16])
    requires { n ≤ 6 }
{
    for number in listed {
        let line = numbers::line_of(n, *number);
        let _ = rt.write_all(&line[..n + 1]);
    }
}

// Prints the list of a form, or the refusal that it earns.
fn print_list(rt: &impl Print, form: &[u8]) {
    let list = placements::list_form(form);
    if list.refusal != 0 {
        let _ = println!(rt; "refused {}", list.refusal);
        return;
    }
    let count = list.count;
    let listed = &list.numbers[..count];
    print_lines(rt, list.channels as usize, listed);
}

fn main(rt: HostRuntime) {
    let mut buf = [0u8; input::ROOM];
    if let Some(n) = input::read_form(&rt, b"netplace", &mut buf) {
        print_list(&rt, &buf[..n]);
    }
}
