// Chains of waiting channels by a run. Without arguments: a source, a fork of 2 and two sinks, asked while all goes, while a sink stalls, while the source is idle, and where the question is
// refused. With a file: the calls that it lists. Its numbers have 4 bytes, most significant first: the bytes of a form, how many words, how many ends; then the form, the words, the ends; then
// commands of four numbers each, a command and what it is given.
#![tactic(auto)]

ghost use Rattle.std.specs.Prelude.{◌≤◌, length};

use cycles::State;
use nets::Net;
use stalls::Chain;
use trace::numbers::number_at;
use trials::{FORK_ENDS, FORK_FORM, FORK_WORDS, Streams, with_marks, with_word};

// The channels that a net can have.
const CHANNELS: u32 = 128;

// The cycles that a state has.
const CYCLES: u32 = 1048576;

// The bytes of a command.
const COMMAND_BYTES: usize = 16;

// A command, with what it is given.
#[derive(Clone, Copy)]
enum Command {
    Step {
        offer: u32,
        ready: u32,
    },
    // A question at a channel.
    Ask {
        offer: u32,
        ready: u32,
        channel: u32,
    },
    // A question at each channel that a net can have.
    AskAll {
        offer: u32,
        ready: u32,
    },
    // The fresh state of the net.
    Fresh,
    // Set the net's channels; the state's count; the word or the marks of the block with this number modulo 64.
    SetChannels(u8),
    SetCount(u32),
    SetWord {
        block: u32,
        word: u32,
    },
    SetMarks {
        block: u32,
        mark: u8,
    },
    // Sets how many of the ends are lent to a call at most.
    Lend(usize),
    // A number that is no command's.
    Nothing,
}

// What commands change.
#[derive(Clone, Copy)]
struct Trial {
    net: Net,
    state: State,
    lent: usize,
}

// ---- Printing. A write that fails is passed over.

// Prints the channels of a chain: `v` after one that lacks V, `r` after one that has V and lacks R.
fn show_channels(rt: &impl Print, chain: Chain) {
    for (channel, valid) in chain.channels.iter().zip(&chain.valid).take(chain.count) {
        let lacking = if *valid { "r" } else { "v" };
        let _ = print!(rt; " {channel}{lacking}");
    }
}

// Prints a chain and its ending, or the refusal of the question.
fn show(rt: &impl Print, channel: u32, chain: Chain) {
    let _ = print!(rt; "ask {channel}: refusal {}", chain.refusal);
    if chain.refusal == 0 {
        show_channels(rt, chain);
        let number = asking::number_of(chain.ending);
        let named = asking::named_by(chain.ending);
        let _ = print!(rt; " ending {number} at {named}");
    }
    let _ = println!(rt);
}

// ---- Calls, shown

// A fresh state, its refusal shown.
fn begun(rt: &impl Print, net: Net) -> State {
    let fresh = sim::step::fresh(net);
    let _ = println!(rt; "fresh {}", fresh.refusal);
    fresh.state
}

// The state after a step, its refusal shown.
// stays: hands on what a call takes, as the call takes it.
fn stepped(
    rt: &impl Print,
    net: Net,
    state: State,
    streams: Streams,
    offer: u32,
    ready: u32,
) -> State {
    let answer = sim::step::step(net, state, streams.words, streams.ends, offer, ready);
    let _ = println!(rt; "step: refusal {}", answer.refusal);
    answer.state
}

// The chain from a channel, shown.
// stays: hands on what a call takes, as the call takes it.
fn ask(
    rt: &impl Print,
    net: Net,
    state: State,
    streams: Streams,
    offer: u32,
    ready: u32,
    channel: u32,
) {
    let chain = stalls::follow::follow(
        net,
        state,
        streams.words,
        streams.ends,
        offer,
        ready,
        channel,
    );
    show(rt, channel, chain);
}

// The chain from each channel that a net can have, shown.
// stays: hands on what a call takes, as the call takes it.
fn ask_all(rt: &impl Print, net: Net, state: State, streams: Streams, offer: u32, ready: u32) {
    for channel in 0..CHANNELS {
        ask(rt, net, state, streams, offer, ready, channel);
    }
}

// ---- A file of calls

// The command in a file's bytes.
fn command_in(bytes: &[u8]) -> Command
    requires { 16 ≤ length bytes.now }
{
    let a = number_at(bytes, 1);
    let b = number_at(bytes, 2);
    match number_at(bytes, 0) {
        0 => Command::Step { offer: a, ready: b },
        1 => Command::Ask {
            offer: a,
            ready: b,
            channel: number_at(bytes, 3),
        },
        2 => Command::AskAll { offer: a, ready: b },
        3 => Command::Fresh,
        4 => Command::SetChannels((a % 256) as u8),
        5 => Command::SetCount(a),
        6 => Command::SetWord { block: a, word: b },
        7 => Command::SetMarks {
            block: a,
            mark: (b % 256) as u8,
        },
        8 => Command::Lend(a as usize),
        _ => Command::Nothing,
    }
}

// What a command leaves.
fn obeyed(rt: &impl Print, before: Trial, all: Streams, command: Command) -> Trial {
    let net = before.net;
    let state = before.state;
    let streams = all.lent(before.lent);
    match command {
        Command::Step { offer, ready } => Trial {
            state: stepped(rt, net, state, streams, offer, ready),
            ..before
        },
        Command::Ask {
            offer,
            ready,
            channel,
        } => {
            ask(rt, net, state, streams, offer, ready, channel);
            before
        }
        Command::AskAll { offer, ready } => {
            ask_all(rt, net, state, streams, offer, ready);
            before
        }
        Command::Fresh => Trial {
            state: begun(rt, net),
            ..before
        },
        _ => changed(before, command),
    }
}

// What a command leaves that changes a value.
fn changed(before: Trial, command: Command) -> Trial {
    let state = before.state;
    match command {
        Command::SetChannels(channels) => Trial {
            net: Net {
                channels,
                ..before.net
            },
            ..before
        },
        Command::SetCount(count) => Trial {
            state: State { count, ..state },
            ..before
        },
        Command::SetWord { block, word } => Trial {
            state: with_word(state, (block % 64) as usize, word),
            ..before
        },
        Command::SetMarks { block, mark } => Trial {
            state: with_marks(state, (block % 64) as usize, mark),
            ..before
        },
        Command::Lend(lent) => Trial { lent, ..before },
        _ => before,
    }
}

// Obeys the commands from a fresh state on, with all ends lent.
fn obey(rt: &impl Print, net: Net, streams: Streams, commands: &[u8]) {
    let mut trial = Trial {
        net,
        state: begun(rt, net),
        lent: streams.ends.len(),
    };
    for i in 0..commands.len() / COMMAND_BYTES {
        let command = command_in(&commands[COMMAND_BYTES * i..]);
        trial = obeyed(rt, trial, streams, command);
    }
}

// Runs the calls of a file.
// stays: what baytry has in its place calls its own `obey`; handed over as a closure, that call would need clauses of its own.
fn run_file(rt: &impl Print, file: &[u8]) {
    let Some(case) = cases::read_case(file) else {
        let _ = println!(rt; "bad case");
        return;
    };
    let mut words = [0u32; cases::MOST_WORDS];
    let mut ends = [0u32; cases::MOST_ENDS];
    let n = cases::put_numbers(case.words, &mut words);
    let m = cases::put_numbers(case.ends, &mut ends);
    let loaded = forms::load(case.form);
    let _ = println!(rt; "load {}", loaded.refusal);
    let streams = Streams {
        words: &words[..n],
        ends: &ends[..m],
    };
    obey(rt, loaded.net, streams, case.rest);
}

// ---- A fork of 2 before two sinks

// All goes: channel 1 delivers. The second sink is not ready: it keeps channels 0 and 2, and channel 1 delivers. The source offers nothing: channel 2 waits for it.
fn first_cycle(rt: &impl Print, net: Net, state: State, streams: Streams) {
    ask(rt, net, state, streams, 1, 3, 1);
    for channel in 0..3 {
        ask(rt, net, state, streams, 1, 1, channel);
    }
    ask(rt, net, state, streams, 0, 3, 2);
}

// Two cycles in which the second sink is not ready: the first copy has gone, so channel 1 has no word until the second one goes.
fn stalled(rt: &impl Print, net: Net, state: State, streams: Streams) -> State {
    let after = stepped(rt, net, state, streams, 1, 1);
    let last = stepped(rt, net, after, streams, 1, 1);
    ask(rt, net, last, streams, 1, 1, 1);
    last
}

// Questions that are refused, by what is tested last first: a channel at the count and one beyond a byte; four ends for one source; both copies of the fork marked; the zero net, which is what
// a form without bytes gives.
fn refused(rt: &impl Print, net: Net, state: State, streams: Streams) {
    ask(rt, net, state, streams, 1, 1, 3);
    ask(rt, net, state, streams, 1, 1, 256);
    let four_ends = Streams {
        words: streams.words,
        ends: streams.words,
    };
    ask(rt, net, state, four_ends, 1, 1, 256);
    let spoilt = with_marks(state, 1, 3);
    ask(rt, net, spoilt, four_ends, 1, 1, 256);
    let zero = forms::load(b"").net;
    ask(rt, zero, spoilt, four_ends, 1, 1, 256);
}

// A state that has used up its cycles: it can be asked, and no step is left.
fn used_up(rt: &impl Print, net: Net, state: State, streams: Streams) {
    let full = State {
        count: CYCLES,
        ..state
    };
    let same = stepped(rt, net, full, streams, 1, 1);
    ask(rt, net, same, streams, 1, 1, 0);
}

// The demonstration: the net of steptry, over four words.
fn show_trials(rt: &impl Print) {
    let streams = Streams {
        words: &FORK_WORDS,
        ends: &FORK_ENDS,
    };
    let net = forms::load(&FORK_FORM).net;
    let state = begun(rt, net);
    first_cycle(rt, net, state, streams);
    let last = stalled(rt, net, state, streams);
    refused(rt, net, last, streams);
    used_up(rt, net, last, streams);
}

// The demonstration, or the calls of a file.
// stays: a main that reads a file and hands it on is no longer than a call of one that is shared.
fn main(rt: HostRuntime) {
    if !input::has_argument(&rt, 1) {
        show_trials(&rt);
        return;
    }
    let mut buf = [0u8; input::ROOM];
    if let Some(n) = input::read_form(&rt, b"stalltry", &mut buf) {
        run_file(&rt, &buf[..n]);
    }
}
