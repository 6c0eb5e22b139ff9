// Steps of one net by a run: a source, a fork of 2 and two sinks, where the second sink refuses for some cycles. Each word goes out once on each branch.
#![tactic(auto)]

use cycles::{State, Stepped};
use nets::Net;
use trials::{FORK_ENDS, FORK_FORM, FORK_WORDS, with_marks};

// Prints cycle, channel and word of each delivery. A write that fails is passed over.
fn show(rt: &impl Print, cycle: u64, stepped: Stepped) {
    for c in 0..128 {
        if stepped.delivered[c] == 1 {
            let _ = println!(rt; "{cycle} {c} {}", stepped.words[c]);
        }
    }
}

// The ready mask of a cycle: the second sink refuses in cycles 1 to 3 and 6.
fn ready_in(cycle: u64) -> u32 {
    match cycle {
        1..=3 | 6 => 1,
        _ => 3,
    }
}

// The cycles of a net from a state, each from the state that the last one returned.
fn cycles_from(rt: &impl Print, net: Net, start: State) {
    let mut state = start;
    for cycle in 0..10 {
        let stepped = sim::step::step(net, state, &FORK_WORDS, &FORK_ENDS, 1, ready_in(cycle));
        show(rt, cycle, stepped);
        state = stepped.state;
    }
    let _ = println!(rt; "count {}", state.count);
}

// A step with two ends where the net has one source, and one from a state whose fork marks both copies.
fn refused_steps(rt: &impl Print, net: Net, start: State) {
    let words = [10u32, 20];
    let two_ends = [1u32, 2];
    let bad_ends = sim::step::step(net, start, &words, &two_ends, 1, 3);
    let _ = println!(rt; "refused {}", bad_ends.refusal);
    let state = with_marks(start, 1, 3);
    let bad_state = sim::step::step(net, state, &words, &two_ends, 1, 3);
    let _ = println!(rt; "refused {}", bad_state.refusal);
}

fn main(rt: HostRuntime) {
    let net = forms::load(&FORK_FORM).net;
    let start = sim::step::fresh(net).state;
    cycles_from(&rt, net, start);
    refused_steps(&rt, net, start);
}
