// Runs of document 01 on the stored form: its 18 bytes there and back, 64 blocks and 65, single bytes, and forms of the longest lengths.
#![tactic(auto)]

use blocks::Refusal;
use trials::{pairs, print_bytes};

// Prints a line: a text and a number. A write that fails is passed over.
fn say(rt: &impl Print, text: &str, n: u64) {
    let _ = println!(rt; "{text}{n}");
}

// Prints the refusal that a form earns.
fn show(rt: &impl Print, text: &str, form: &[u8]) {
    say(rt, text, forms::load(form).refusal as u64);
}

// Prints what writing a net answers.
fn answer(rt: &impl Print, written: Result<usize, Refusal>) {
    match written {
        Ok(n) => say(rt, "bytes ", n as u64),
        Err(refusal) => say(rt, "refused ", refusal.number() as u64),
    }
}

// The form of document 01's trial run, loaded, and written into a longer buffer and a shorter one.
fn trial(rt: &impl Print) {
    let form = [
        0x10u8, 0x00, 0x04, 0x03, 0x00, 0x01, 0x00, 0x00, 0x09, 0x80, 0x00, 0x00, 0x00, 0x28, 0x10,
        0x42, 0x00, 0x80,
    ];
    show(rt, "18 bytes: ", &form);
    let net = forms::load(&form).net;
    let mut long = [0xAAu8; 20];
    answer(rt, forms::write(net, &mut long));
    print_bytes(rt, " ", &long);
    let mut short = [0xAAu8; 17];
    answer(rt, forms::write(net, &mut short));
    print_bytes(rt, " ", &short);
}

// A form of 64 blocks, and the same with the count 65.
fn most_blocks(rt: &impl Print) {
    let net = pairs();
    let mut form = [0u8; 124];
    answer(rt, forms::write(net, &mut form));
    show(rt, "64 blocks: ", &form);
    form[2] = 65;
    show(rt, "65 blocks: ", &form);
}

// Byte i of muxes of 8 inputs, all of their ports on channel 0: four of them have 39 bytes.
fn mux_byte(i: usize) -> u8 {
    match i % 39 {
        0 => 0x58,
        9 => 0x01,
        10 => 0x60,
        19 => 0x05,
        20 => 0x80,
        29 => 0x16,
        _ => 0,
    }
}

// Byte i of a form of 64 such muxes, 628 bytes long.
fn form_byte(i: usize) -> u8 {
    match i {
        0 => 0x10,
        1 => 0,
        2 => 64,
        3 => 1,
        _ => mux_byte(i - 4),
    }
}

// A form of 64 muxes, with zero bytes after it.
fn muxes() -> [u8; 100000] {
    let mut form = [0u8; 100000];
    for i in 0..628 {
        form[i] = form_byte(i);
    }
    form
}

// Prints the refusal that the first n bytes earn.
fn show_part(rt: &impl Print, text: &str, form: &[u8], n: usize) {
    if n <= form.len() {
        show(rt, text, &form[..n]);
    }
}

// The longest form that can be read through, which earns 8, and shorter and longer ones.
fn lengths(rt: &impl Print) {
    let longest = muxes();
    let form: &[u8] = &longest;
    show_part(rt, "0 bytes: ", form, 0);
    show_part(rt, "1 byte: ", form, 1);
    show_part(rt, "3 bytes: ", form, 3);
    show_part(rt, "627 bytes: ", form, 627);
    show_part(rt, "628 bytes: ", form, 628);
    show_part(rt, "629 bytes: ", form, 629);
    show(rt, "100000 bytes: ", form);
}

fn main(rt: HostRuntime) {
    trial(&rt);
    most_blocks(&rt);
    show(&rt, "byte 20: ", &[0x20u8]);
    lengths(&rt);
}
