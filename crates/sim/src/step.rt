// The calls `fresh` and `step`.
ghost use Rattle.std.specs.Prelude.{◌≡◌, true, ◌+◌, ◌≤◌, ◌<◌, length};
ghost use Rattle.cycles.specs.State.{fresh_state, regs_of};
ghost use Rattle.cycles.specs.Cycle.{signals_of};
ghost use Rattle.cycles.specs.Step.{refused_step, stepped_by};
ghost use Rattle.blocks.specs.Refusals.{refusal_number};
ghost use Rattle.nets.proofs.Decided.{accepted};
ghost use Rattle.rows.specs.Ends.{read};
ghost use Rattle.sim.specs.Calls.{fresh_of, step_of};
ghost use Rattle.sim.specs.Laid.{Given, answer_in};

use crate::Fresh;
use crate::cycle::{begin, listed};
use blocks::{Refusal, Sig};
use cycles::{State, Stepped};
use nets::Net;
use passes::registers::registers;
use rows::checks::CYCLE_LIMIT;
use rows::{Laid, Streams};
use signals::Moves;
use signals::wires::{moves_of, wires};

// No cycle run, and no block with anything in its registers.
const ZERO: State = State {
    count: 0,
    words: [0; 64],
    marks: [0; 64],
};

// The fresh state of a net. (Stored field by field: of a state that a call has changed, as `set_reg` would, the proof does not know how long its arrays are.)
fn fresh_state(net: &Net) -> State
    requires { net.now.size ≤ 64 }
    ensures { result ≡ fresh_state net.now }
{
    let mut state = ZERO;
    for b in 0..net.size as usize {
        let block = &net.blocks[b];
        let reg = blocks::cycle::fresh_reg(block.kind, block.value);
        state.words[b] = reg.word;
        state.marks[b] = reg.marks;
    }
    state
}

// The fresh state of a net: count 0, zero registers, but kind 9 is full. Refused (12): a zero state.
pub fn fresh(net: Net) -> Fresh
    ensures { result ≡ fresh_of net }
{
    match nets::check(&net) {
        Ok(_) => Fresh {
            refusal: 0,
            state: fresh_state(&net),
        },
        Err(_) => Fresh {
            refusal: Refusal::Net as u8,
            state: ZERO,
        },
    }
}

// A refused step: the state handed in, nothing delivered.
fn refused(refusal: Refusal, state: State) -> Stepped
    ensures { result ≡ refused_step (refusal_number refusal) state }
{
    Stepped {
        refusal: refusal as u8,
        state,
        delivered: [0; 128],
        words: [0; 128],
    }
}

// Counts a cycle. (A function of its own, since it tells again how long the arrays are.)
fn count_cycle(state: &mut State)
    requires { state.old.count < 1048576 }
    ensures count { state.new.count ≡ state.old.count + 1 }
    ensures same { (state.new.words ≡ state.old.words) × (state.new.marks ≡ state.old.marks) }
    ensures long { (length state.new.words ≡ 64) × (length state.new.marks ≡ 64) }
{
    state.count += 1;
}

// One cycle of an accepted net that is laid out, from a state and over streams that have passed the tests.
// stays: offer and ready part where they are used, in `wires`; a struct would only be taken apart there.
fn work(laid: &Laid, state: &State, streams: Streams, offer: u32, ready: u32) -> Stepped
    requires net_value { accepted laid.now.net.now ≡ true }
    requires given { Given laid.now.net.now state.now (read streams.words) (read streams.ends) laid.now }
    requires count_bound { state.now.count < 1048576 }
    ensures { let net = laid.now.net.now in let words = read streams.entry.words in let ends = read streams.entry.ends in result ≡ stepped_by net state.now words ends (signals_of net words ends offer ready (regs_of state.now)) }
{
    let mut signals = [Sig::NOTHING; 128];
    let mut taken = [false; 128];
    wires(laid, streams, offer, ready, state, &mut signals, &mut taken);
    let Moves { delivered, words } = moves_of(laid.net.channels as usize, &signals, &taken);
    let mut after = *state;
    registers(&laid.sorted, laid.net, &signals, &taken, &mut after);
    count_cycle(&mut after);
    Stepped {
        refusal: 0,
        state: after,
        delivered,
        words,
    }
}

// A step, refused in this order: 12 (the net), 13 (the state), 14 (the ends), 16 (the count).
// stays: offer and ready part where they are used, in `wires`; a struct would only be taken apart there.
fn stepped(
    net: &Net,
    state: &State,
    streams: Streams,
    offer: u32,
    ready: u32,
) -> Result<Stepped, Refusal>
    ensures { answer_in state.now result ≡ step_of net.now state.now (read streams.entry.words) (read streams.entry.ends) offer ready }
{
    let Ok(plan) = nets::check(net) else {
        return Err(Refusal::Net);
    };
    let laid = begin(net, &plan, state, streams)?;
    if CYCLE_LIMIT <= state.count {
        return Err(Refusal::Cycles);
    }
    Ok(work(&laid, state, streams, offer, ready))
}

// One cycle: the state after it, and what each channel delivered. Refused in this order: 12 (the net), 13 (the state), 14 (the ends), 16 (the count); then the state handed
// in comes back, and nothing is delivered.
// stays: the parameters of a public call stay as they were.
pub fn step(net: Net, state: State, stream: &[u32], ends: &[u32], offer: u32, ready: u32) -> Stepped
    ensures { result ≡ step_of net state stream.now ends.now offer ready }
{
    match stepped(&net, &state, listed(stream, ends), offer, ready) {
        Ok(answer) => answer,
        Err(refusal) => refused(refusal, state),
    }
}
