// Runs of many cycles.
ghost use Rattle.std.specs.Prelude.{◌≡◌, true, ◌+◌, ◌*◌, ◌≤◌, length, MatchResult};
ghost use Rattle.blocks.specs.Refusals.{refusal_number};
ghost use Rattle.nets.proofs.Decided.{accepted};
ghost use Rattle.rows.specs.Ends.{read};
ghost use Rattle.sim.specs.Laid.{Given};
ghost use Rattle.trace.specs.Numbers.{given};
ghost use Rattle.runs.specs.Runs.{Counted, Denied, begun, ran_for, answer_of, written, run_of, trace_after};

use crate::Run;
use advance::cycle::cycle;
use blocks::{Refusal, Sig};
use cycles::State;
use nets::Net;
use rows::checks::CYCLE_LIMIT;
use rows::flat::lay_out;
use rows::{Laid, Streams};
use sim::cycle::tested;
use trace::numbers::Numbers;
use trace::records::RECORD_BYTES;

// What is left of an odd count of masks, by twos.
const ODD: usize = 1;

// The n cycles of an accepted net that is laid out, from a state and over streams that have passed the tests. Each cycle gets the part of the trace after the last one's
// records.
fn run_cycles(
    laid: &Laid,
    streams: Streams,
    masks: Numbers,
    n: usize,
    mut state: State,
    trace: &mut [u8],
) -> Run
    requires net_value { accepted laid.now.net.now ≡ true }
    requires given { Given laid.now.net.now state (read streams.words) (read streams.ends) laid.now }
    requires in_range { state.count + n ≤ 1048576 }
    requires masks_len { length (read masks) ≡ 2 * n }
    ensures value { result ≡ answer_of 0 (ran_for laid.now.net.now state (read streams.entry.words) (read streams.entry.ends) (read masks.entry) (length trace.old) n) }
    ensures trace_after { trace.new ≡ written (ran_for laid.now.net.now state (read streams.entry.words) (read streams.entry.ends) (read masks.entry) (length trace.old) n).records trace.old }
{
    let mut signals = [Sig::NOTHING; 128];
    let mut taken = [false; 128];
    let mut list = [0u64; 128];
    let mut used = 0;
    for i in 0..n {
        let offer = masks.at(2 * i);
        let ready = masks.at(2 * i + 1);
        let went = cycle(
            laid,
            streams,
            offer,
            ready,
            &mut state,
            &mut signals,
            &mut taken,
            &mut list,
            &mut trace[RECORD_BYTES * used..],
        );
        match went {
            None => {
                return Run {
                    refusal: 0,
                    ending: 1,
                    cycles: i as u32,
                    records: used as u32,
                    state,
                };
            }
            Some(k) => used += k,
        }
    }
    Run {
        refusal: 0,
        ending: 0,
        cycles: n as u32,
        records: used as u32,
        state,
    }
}

// A refused run: the state handed in, nothing done.
fn refused(refusal: Refusal, state: State) -> Run
    ensures { result ≡ answer_of (refusal_number refusal) (begun state) }
{
    Run {
        refusal: refusal as u8,
        ending: 0,
        cycles: 0,
        records: 0,
        state,
    }
}

// How many cycles a run of an accepted net that is laid out has, refused in this order: 13 (the state), 14 (the ends), 15 (an odd list of masks), 16 (the count).
fn cycles_of(laid: &Laid, state: &State, streams: Streams, masks: Numbers) -> Result<usize, Refusal>
    requires { accepted laid.now.net.now ≡ true }
    ensures { let net = laid.now.net.now in let words = read streams.entry.words in let ends = read streams.entry.ends in MatchResult result (Counted net state.now words ends (read masks.entry)) (Denied net state.now words ends (read masks.entry)) }
{
    tested(laid, state, streams)?;
    let count = masks.len();
    if count % 2 == ODD {
        return Err(Refusal::Masks);
    }
    let n = count / 2;
    if state.count as usize + n > CYCLE_LIMIT as usize {
        return Err(Refusal::Cycles);
    }
    Ok(n)
}

// A run whose words, ends and masks are given as bytes or as lists. Of bytes that are not a multiple of 4 the last 1 to 3 are dropped: a caller that has to refuse them tests
// the length first.
// Never made a part of its caller, whose own stack would then lie below that of reading a form.
#[inline(never)]
pub fn run_given(
    net: Net,
    state: State,
    words: Numbers,
    ends: Numbers,
    masks: Numbers,
    trace: &mut [u8],
) -> Run
    ensures value { result ≡ run_of net state (given words.entry.bytes.now words.entry.list.now) (given ends.entry.bytes.now ends.entry.list.now) (given masks.entry.bytes.now masks.entry.list.now) (length trace.old) }
    ensures trace_after { trace.new ≡ trace_after net state (given words.entry.bytes.now words.entry.list.now) (given ends.entry.bytes.now ends.entry.list.now) (given masks.entry.bytes.now masks.entry.list.now) trace.old }
{
    let Ok(plan) = nets::check(&net) else {
        return refused(Refusal::Net, state);
    };
    let streams = Streams { words, ends };
    let laid = lay_out(&net, &plan);
    match cycles_of(&laid, &state, streams, masks) {
        Ok(n) => run_cycles(&laid, streams, masks, n, state, trace),
        Err(refusal) => refused(refusal, state),
    }
}

// Many cycles, each delivery a record of 8 bytes in the trace. The masks are offer and ready of each cycle. Refused in this order: 12 (the net), 13 (the state), 14 (the
// ends), 15 (an odd list of masks), 16 (the count).
// stays: the parameters of a public call stay as they were.
#[tactic(auto, unfolding(trace::specs::Numbers::numbers_of))]
pub fn run(
    net: Net,
    state: State,
    words: &[u32],
    ends: &[u32],
    masks: &[u32],
    trace: &mut [u8],
) -> Run
    ensures value { result ≡ run_of net state words.now ends.now masks.now (length trace.old) }
    ensures trace_after { trace.new ≡ trace_after net state words.now ends.now masks.now trace.old }
{
    run_given(
        net,
        state,
        Numbers::of_list(words),
        Numbers::of_list(ends),
        Numbers::of_list(masks),
        trace,
    )
}
