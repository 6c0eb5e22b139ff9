// Placements by a run. Without arguments: refusals and lists of net values. With a form's file: every placement of its net, a line each, with the placed net's form or the
// refusal. With codes too, as digits: that placement alone.
#![tactic(auto)]

ghost use Rattle.std.specs.Prelude.{◌≤◌};

use blocks::Kind;
use nets::Net;
use placements::numbers;
use std::env::Env;
use stored::Loading;
use trials::{block, pairs, print_bytes};

// Prints a line: a text and a number. A write that fails is passed over.
fn say(rt: &impl Print, text: &str, n: u64) {
    let _ = println!(rt; "{text}{n}");
}

// Prints the first n bytes.
fn print_front(rt: &impl Print, bytes: &[u8], n: usize) {
    if n <= bytes.len() {
        print_bytes(rt, "", &bytes[..n]);
    }
}

// Prints the form of a net, which has at most 628 bytes.
fn print_net(rt: &impl Print, net: Net) {
    let mut form = [0u8; 628];
    match forms::write(net, &mut form) {
        Ok(n) => print_front(rt, &form, n),
        Err(refusal) => say(rt, "refused ", refusal.number() as u64),
    }
}

// Prints the placed net's form, or the refusal.
fn print_placed(rt: &impl Print, found: Loading) {
    if found.refusal != 0 {
        say(rt, "refused ", found.refusal as u64);
        return;
    }
    print_net(rt, found.net);
}

// Prints the placement of a form's net by number k on n channels: its codes, then what comes of it.
fn print_number(rt: &impl Print, form: &[u8], n: usize, k: u16)
    requires { n ≤ 6 }
{
    let line = numbers::line_of(n, k);
    let _ = rt.write_all(&line[..n]);
    let _ = print!(rt; " ");
    let codes = numbers::codes_of(n, k as usize);
    print_placed(rt, placements::place_form(form, &codes[..n]));
}

// Prints every placement of a form's net, or the refusal of its list.
fn print_all(rt: &impl Print, form: &[u8]) {
    let list = placements::list_form(form);
    if list.refusal != 0 {
        say(rt, "refused ", list.refusal as u64);
        return;
    }
    let n = list.channels as usize;
    let count = numbers::power(n);
    for k in 0..count {
        print_number(rt, form, n, k as u16);
    }
}

// Prints the placement of a form's net by the codes of the second argument. What stands before the digits is no code: it becomes 255.
fn print_one(rt: &(impl Print + Env), form: &[u8]) {
    let mut codes = [0u8; input::ROOM];
    let n = rt.arg(2, &mut codes).unwrap_or(0);
    for code in &mut codes[..n] {
        *code = code.checked_sub(b'0').unwrap_or(255);
    }
    print_placed(rt, placements::place_form(form, &codes[..n]));
}

// A source joined to a sink on channel 0, and a data buffer joined to itself on channel 1.
fn looped() -> Net {
    let mut blocks = [block(Kind::Source, 0, 0); 64];
    blocks[1] = block(Kind::Sink, 0, 0);
    blocks[2] = block(Kind::Buffer, 1, 1);
    Net {
        size: 3,
        channels: 2,
        blocks,
    }
}

// Prints the refusal of a placement.
fn show(rt: &impl Print, text: &str, net: Net, codes: &[u8]) {
    say(rt, text, placements::place(net, codes).refusal as u64);
}

// Prints the refusal of a list and its count.
fn show_list(rt: &impl Print, text: &str, net: Net) {
    let list = placements::list(net);
    say(rt, text, list.refusal as u64);
    say(rt, "  count ", list.count as u64);
}

// A net value whose loop lacks a buffer, with codes and lists of every kind.
fn trial_of_loops(rt: &impl Print) {
    let net = looped();
    show(rt, "codes 00: ", net, &[0u8, 0]);
    show(rt, "codes 02: ", net, &[0u8, 2]);
    show(rt, "codes 01: ", net, &[0u8, 1]);
    show(rt, "one code: ", net, &[2u8]);
    show(rt, "three codes: ", net, &[0u8, 2, 0]);
    show(rt, "codes 04: ", net, &[0u8, 4]);
    show_list(rt, "its list: ", net);
}

// Net values that fail a check, or that have no room.
fn trial_of_values(rt: &impl Print) {
    let full = pairs();
    let mut codes = [0u8; 32];
    show(rt, "64 blocks, no buffer: ", full, &codes);
    codes[31] = 1;
    show(rt, "64 blocks, one buffer: ", full, &codes);
    codes[0] = 4;
    show(rt, "64 blocks, a code above 3 too: ", full, &codes);
    show_list(rt, "32 channels: ", full);
    let torn = Net {
        channels: 3,
        ..looped()
    };
    show(rt, "a channel without ports: ", torn, &[4u8]);
    show_list(rt, "its list: ", torn);
}

fn main(rt: HostRuntime) {
    if !input::has_argument(&rt, 1) {
        trial_of_loops(&rt);
        trial_of_values(&rt);
        return;
    }
    let mut buf = [0u8; input::ROOM];
    let Some(n) = input::read_form(&rt, b"placetry", &mut buf) else {
        return;
    };
    if input::has_argument(&rt, 2) {
        print_one(&rt, &buf[..n]);
    } else {
        print_all(&rt, &buf[..n]);
    }
}
