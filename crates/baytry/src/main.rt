// Bays by a run. Without arguments: two bays over one net, of which one stalls; then a third one that uses up its cycles, and others that are refused, beside a bay that goes on; then
// three bays that take turns, of which one is refused.
// With a file: the calls that it lists. Its numbers have 4 bytes, most significant first: the bytes of a form, how many words, how many ends; then the form, the words, the ends; then
// commands of three numbers each, a command and what it is given.
#![tactic(auto)]

ghost use Rattle.std.specs.Prelude.{◌≤◌, ◌<◌, length};

use bays::{BayStepped, Bays};
use cycles::State;
use nets::Net;
use trace::numbers::number_at;
use trials::{FORK_ENDS, FORK_FORM, FORK_WORDS, Streams, with_marks, with_word};

// The cycles that each bay has.
const CYCLES: u32 = 1048576;

// What `next` names where it serves no bay.
// stays: the answer of `next` names no bay by this number.
const NO_BAY: u8 = 4;

// The bytes of a command.
const COMMAND_BYTES: usize = 12;

// A command, with what it is given. Numbers of bays that are changed and of blocks are taken modulo 4 and 64.
#[derive(Clone, Copy)]
enum Command {
    // A step of the bay of that number.
    Step { bay: u8, offer: u32, ready: u32 },
    // A fresh record.
    Fresh,
    // Sets the net's channels.
    SetChannels(u8),
    // A call of `next`, given the mask of the bays that want a cycle, and how many of the ends are lent to it at most.
    Next { want: u32, lent: usize },
    // Sets the turn.
    SetTurn(u8),
    // Set a bay's count, or the word or the marks of a block.
    SetCount { bay: u32, count: u32 },
    SetWord { bay: u32, block: u32, word: u32 },
    SetMarks { bay: u32, block: u32, mark: u8 },
    // Sets a bay's masks for calls of `next`.
    SetMasks { bay: u32, offer: u32, ready: u32 },
    // A number that is no command's.
    Nothing,
}

// What commands change. The masks are those of the four bays for calls of `next`, as it takes them: each bay's offer, and its ready mask after it.
#[derive(Clone, Copy)]
struct Trial {
    net: Net,
    bays: Bays,
    masks: [u32; 8],
}

// ---- Printing. A write that fails is passed over.

// Prints the refusal of a bay's step, and channel and word of each delivery.
fn show(rt: &impl Print, stepped: BayStepped) {
    let _ = print!(rt; ": refusal {}", stepped.refusal);
    for c in 0..128 {
        if stepped.delivered[c] == 1 {
            let _ = print!(rt; " {c}={}", stepped.words[c]);
        }
    }
    let _ = println!(rt);
}

// Prints a bay's count, and the registers of the blocks that have some.
fn show_state(rt: &impl Print, k: usize, state: State) {
    let _ = print!(rt; "state {k} count {}", state.count);
    for b in 0..64 {
        let word = state.words[b];
        let marks = state.marks[b];
        if word != 0 || marks != 0 {
            let _ = print!(rt; " {b}={word}/{marks}");
        }
    }
    let _ = println!(rt);
}

fn show_record(rt: &impl Print, bays: Bays) {
    let _ = println!(rt; "turn {}", bays.turn);
    for k in 0..4 {
        show_state(rt, k, bays.states[k]);
    }
}

// ---- Calls, shown

// A step of a bay, shown.
// stays: hands on what a call takes, as the call takes it.
fn stepped(
    rt: &impl Print,
    net: Net,
    bays: Bays,
    bay: u8,
    streams: Streams,
    offer: u32,
    ready: u32,
) -> Bays {
    let answer = bays::step_bay(net, bays, bay, streams.words, streams.ends, offer, ready);
    let _ = print!(rt; "bay {bay}");
    show(rt, answer);
    answer.bays
}

// The step of the bay that has the turn, shown.
fn turned(
    rt: &impl Print,
    net: Net,
    bays: Bays,
    streams: Streams,
    masks: &[u32; 8],
    want: u32,
) -> Bays {
    let answer = bays::next(net, bays, streams.words, streams.ends, masks, want);
    let _ = match answer.bay {
        NO_BAY => print!(rt; "next no bay"),
        bay => print!(rt; "next bay {bay}"),
    };
    show(rt, answer.step);
    answer.step.bays
}

// A fresh record, its refusal shown.
fn begun(rt: &impl Print, net: Net) -> Bays {
    let fresh = bays::fresh_bays(net);
    let _ = println!(rt; "fresh {}", fresh.refusal);
    fresh.bays
}

// ---- Records with a part changed

// The record with another state of bay k.
fn with_state(bays: Bays, k: usize, state: State) -> Bays
    requires { k < 4 }
{
    let mut states = bays.states;
    states[k] = state;
    Bays { states, ..bays }
}

// The record with another count of bay k.
fn with_count(bays: Bays, k: usize, count: u32) -> Bays
    requires { k < 4 }
{
    let state = State {
        count,
        ..bays.states[k]
    };
    with_state(bays, k, state)
}

// ---- A file of calls

// The command in a file's bytes.
fn command_in(bytes: &[u8]) -> Command
    requires { 12 ≤ length bytes.now }
{
    let number = number_at(bytes, 0);
    let a = number_at(bytes, 1);
    let b = number_at(bytes, 2);
    let bay = number % 4;
    match number {
        0..=255 => Command::Step {
            bay: number as u8,
            offer: a,
            ready: b,
        },
        256 => Command::Fresh,
        257 => Command::SetChannels((a % 256) as u8),
        258 => Command::Next {
            want: a,
            lent: b as usize,
        },
        259 => Command::SetTurn((a % 256) as u8),
        260..=263 => Command::SetCount { bay, count: a },
        264..=267 => Command::SetWord {
            bay,
            block: a,
            word: b,
        },
        268..=271 => Command::SetMarks {
            bay,
            block: a,
            mark: (b % 256) as u8,
        },
        272..=275 => Command::SetMasks {
            bay,
            offer: a,
            ready: b,
        },
        _ => Command::Nothing,
    }
}

// The record after a command that changes one bay's state.
fn changed(bays: Bays, command: Command) -> Bays {
    match command {
        Command::SetCount { bay, count } => with_count(bays, (bay % 4) as usize, count),
        Command::SetWord { bay, block, word } => {
            let k = (bay % 4) as usize;
            let state = with_word(bays.states[k], (block % 64) as usize, word);
            with_state(bays, k, state)
        }
        Command::SetMarks { bay, block, mark } => {
            let k = (bay % 4) as usize;
            let state = with_marks(bays.states[k], (block % 64) as usize, mark);
            with_state(bays, k, state)
        }
        _ => bays,
    }
}

// The masks of the four bays with those of one bay changed.
// stays: hands on what a call takes, as the call takes it.
fn masked(before: [u32; 8], bay: u32, offer: u32, ready: u32) -> [u32; 8] {
    let at = 2 * (bay % 4) as usize;
    let mut masks = before;
    masks[at] = offer;
    masks[at + 1] = ready;
    masks
}

// The record after a command.
fn called(rt: &impl Print, before: Trial, streams: Streams, command: Command) -> Bays {
    let net = before.net;
    let bays = before.bays;
    match command {
        Command::Step { bay, offer, ready } => stepped(rt, net, bays, bay, streams, offer, ready),
        Command::Fresh => begun(rt, net),
        Command::Next { want, lent } => {
            turned(rt, net, bays, streams.lent(lent), &before.masks, want)
        }
        Command::SetTurn(turn) => Bays { turn, ..bays },
        _ => changed(bays, command),
    }
}

// What a command leaves.
fn obeyed(rt: &impl Print, before: Trial, streams: Streams, command: Command) -> Trial {
    match command {
        Command::SetChannels(channels) => Trial {
            net: Net {
                channels,
                ..before.net
            },
            ..before
        },
        Command::SetMasks { bay, offer, ready } => Trial {
            masks: masked(before.masks, bay, offer, ready),
            ..before
        },
        _ => Trial {
            bays: called(rt, before, streams, command),
            ..before
        },
    }
}

// Obeys the commands from a fresh record on, and shows the record in the end.
fn obey(rt: &impl Print, net: Net, streams: Streams, commands: &[u8]) {
    let mut trial = Trial {
        net,
        bays: begun(rt, net),
        masks: [0; 8],
    };
    for i in 0..commands.len() / COMMAND_BYTES {
        let command = command_in(&commands[COMMAND_BYTES * i..]);
        trial = obeyed(rt, trial, streams, command);
    }
    show_record(rt, trial.bays);
}

// Runs the calls of a file.
fn run_file(rt: &impl Print, file: &[u8]) {
    let Some(case) = cases::read_case(file) else {
        let _ = println!(rt; "bad case");
        return;
    };
    let mut words = [0u32; cases::MOST_WORDS];
    let mut ends = [0u32; cases::MOST_ENDS];
    let n = cases::put_numbers(case.words, &mut words);
    let m = cases::put_numbers(case.ends, &mut ends);
    let loaded = forms::load(case.form);
    let _ = println!(rt; "load {}", loaded.refusal);
    let streams = Streams {
        words: &words[..n],
        ends: &ends[..m],
    };
    obey(rt, loaded.net, streams, case.rest);
}

// ---- Two bays, bays that are refused beside others, and three bays in turn

// The ready mask of bay 1: its second sink refuses in cycles 1 to 3.
fn ready_in(cycle: u64) -> u32 {
    match cycle {
        1..=3 => 1,
        _ => 3,
    }
}

// Bays 0 and 1 in turn for six cycles; nothing stalls in bay 0.
fn two_bays(rt: &impl Print, net: Net, streams: Streams) -> Bays {
    let mut bays = begun(rt, net);
    for cycle in 0..6 {
        bays = stepped(rt, net, bays, 0, streams, 1, 3);
        bays = stepped(rt, net, bays, 1, streams, 1, ready_in(cycle));
    }
    bays
}

// A record in which bay 2 has one cycle left: it gets that one, and then it is refused; bay 3 goes on.
fn last_cycle(rt: &impl Print, net: Net, bays: Bays, streams: Streams) {
    let near = with_count(bays, 2, CYCLES - 1);
    let full = stepped(rt, net, near, 2, streams, 1, 3);
    let refused = stepped(rt, net, full, 2, streams, 1, 3);
    let after = stepped(rt, net, refused, 3, streams, 1, 3);
    show_record(rt, after);
}

// Streams of which each word is given for an end: more ends than the net has sources.
fn misfit(streams: Streams) -> Streams {
    Streams {
        words: streams.words,
        ends: streams.words,
    }
}

// A bay that is not there; a bay whose count is out of range, and one whose ends do not fit, each before a step of bay 3, which goes on; a turn beyond the four bays.
fn refused_steps(rt: &impl Print, net: Net, bays: Bays, streams: Streams) {
    stepped(rt, net, bays, 4, streams, 1, 3);
    let spoilt = with_count(bays, 2, CYCLES + 1);
    stepped(rt, net, spoilt, 2, streams, 1, 3);
    let first = stepped(rt, net, spoilt, 3, streams, 1, 3);
    let same = stepped(rt, net, first, 1, misfit(streams), 1, 3);
    let second = stepped(rt, net, same, 3, streams, 1, 3);
    let lost = Bays { turn: 7, ..second };
    stepped(rt, net, lost, 3, streams, 1, 3);
}

// So many calls of `next` in which bays 0, 1 and 2 want a cycle.
fn in_turn(
    rt: &impl Print,
    net: Net,
    before: Bays,
    streams: Streams,
    masks: &[u32; 8],
    calls: u64,
) -> Bays {
    let mut bays = before;
    for _ in 0..calls {
        bays = turned(rt, net, bays, streams, masks, 7);
    }
    bays
}

// Three bays in turn; the second sink of bay 1 is never ready. The fifth call gets ends that do not fit. Then calls that name no bay: bits 4 and 5 alone want a cycle, which are no bay's;
// and a turn beyond the four bays.
fn three_bays(rt: &impl Print, net: Net, streams: Streams) {
    let masks = [1u32, 3, 1, 1, 1, 3, 0, 0];
    let fresh = begun(rt, net);
    let first = in_turn(rt, net, fresh, streams, &masks, 4);
    let refused = turned(rt, net, first, misfit(streams), &masks, 7);
    let last = in_turn(rt, net, refused, streams, &masks, 4);
    show_record(rt, last);
    turned(rt, net, last, streams, &masks, 48);
    let lost = Bays { turn: 7, ..last };
    turned(rt, net, lost, streams, &masks, 7);
}

fn show_trials(rt: &impl Print) {
    let streams = Streams {
        words: &FORK_WORDS,
        ends: &FORK_ENDS,
    };
    let net = forms::load(&FORK_FORM).net;
    let bays = two_bays(rt, net, streams);
    show_record(rt, bays);
    last_cycle(rt, net, bays, streams);
    refused_steps(rt, net, bays, streams);
    three_bays(rt, net, streams);
}

fn main(rt: HostRuntime) {
    if !input::has_argument(&rt, 1) {
        show_trials(&rt);
        return;
    }
    let mut buf = [0u8; input::ROOM];
    if let Some(n) = input::read_form(&rt, b"baytry", &mut buf) {
        run_file(&rt, &buf[..n]);
    }
}
