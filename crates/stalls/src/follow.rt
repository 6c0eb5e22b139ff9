// The call `follow`.
ghost use Rattle.std.specs.Prelude.{◌≡◌, ◌<◌};
ghost use Rattle.cycles.specs.State.{shape_ok};
ghost use Rattle.nets.specs.Promises.{Planned};
ghost use Rattle.ports.specs.Places.{sig_at, ready_at};
ghost use Rattle.rows.specs.Ends.{read};
ghost use Rattle.sim.specs.Laid.{Given};
ghost use Rattle.chains.specs.Chain.{chain_from};
ghost use Rattle.chains.specs.Rows.{next_no};
ghost use Rattle.stalls.specs.Answered.{chain_in_answer};
ghost use Rattle.stalls.specs.Calls.{no_chain, chain_by, answer_of, follow_of};

use crate::Chain;
use blocks::{Refusal, Sig};
use chains::walk::{ask_ready, ask_word};
use chains::{Seen, Walked};
use cycles::State;
use nets::{Net, Plan};
use rows::{Laid, Streams};
use signals::wires::wires;
use sim::cycle::{begin, listed};

// No channel: a refused call, or 0 where the first channel delivers.
fn no_chain(refusal: u8) -> Chain
    ensures { result ≡ no_chain refusal }
{
    Chain {
        refusal,
        count: 0,
        channels: [0; 128],
        valid: [false; 128],
        ending: None,
    }
}

// The chain from channel c, where the signals are worked out: from its producer on if it lacks V, else from its consumer on if it lacks R.
fn chain_from(c: u8, seen: Seen) -> Chain
    requires { c < seen.net.now.channels }
    ensures { let signals = sig_at seen.entry.signals.now in result ≡ chain_by (λ x. (signals x).valid) (chain_from (next_no seen.entry) (signals c).valid (ready_at seen.entry.ready.now c) c) }
{
    let at = c as usize;
    let mut walked = Walked::START;
    let ending = if !seen.signals[at].valid {
        ask_word(c, seen, &mut walked)
    } else if !seen.ready[at] {
        ask_ready(c, seen, &mut walked)
    } else {
        // stays: 0 is no refusal, the channel delivers.
        return no_chain(0);
    };
    Chain {
        refusal: 0,
        count: walked.count,
        channels: walked.channels,
        valid: walked.valid,
        ending: Some(ending),
    }
}

// The chain in one cycle of a net that is laid out, from a state and over streams that have passed the tests.
// stays: offer and ready part where they are used, in `wires`; a struct would only be taken apart there.
fn work(
    laid: &Laid,
    plan: &Plan,
    state: &State,
    streams: Streams,
    offer: u32,
    ready: u32,
    channel: u8,
) -> Chain
    requires planned { Planned laid.now.net.now (Ok plan.now) }
    requires given { Given laid.now.net.now state.now (read streams.words) (read streams.ends) laid.now }
    requires channel_lt_channels { channel < laid.now.net.now.channels }
    ensures { result ≡ answer_of laid.now.net.now state.now (read streams.entry.words) (read streams.entry.ends) offer ready channel }
{
    let mut signals = [Sig::NOTHING; 128];
    let mut taken = [false; 128];
    wires(laid, streams, offer, ready, state, &mut signals, &mut taken);
    let seen = Seen {
        net: laid.net,
        state,
        signals: &signals,
        ready: &taken,
        producer: &plan.producer,
        consumer: &plan.consumer,
    };
    chain_from(channel, seen)
}

// The chain, refused in this order: 12 (the net), 13 (the state), 14 (the ends), 24 (the channel).
// stays: offer and ready part where they are used, in `wires`; a struct would only be taken apart there.
fn followed(
    net: &Net,
    state: &State,
    streams: Streams,
    offer: u32,
    ready: u32,
    channel: u32,
) -> Result<Chain, Refusal>
    ensures { chain_in_answer result ≡ follow_of net.now state.now (read streams.entry.words) (read streams.entry.ends) offer ready channel }
{
    let Ok(plan) = nets::check(net) else {
        return Err(Refusal::Net);
    };
    let laid = begin(net, &plan, state, streams)?;
    if net.channels as u32 <= channel {
        return Err(Refusal::Channel);
    }
    let channel = channel as u8;
    Ok(work(&laid, &plan, state, streams, offer, ready, channel))
}

// The chain of waiting channels from a channel on, in the cycle that a step would work. Refused in this order: 12 (the net), 13 (the state), 14 (the ends), 24 (the channel); then
// there is no channel. A state at its last cycle can be asked.
// stays: the parameters of a public call stay as they were.
pub fn follow(
    net: Net,
    state: State,
    stream: &[u32],
    ends: &[u32],
    offer: u32,
    ready: u32,
    channel: u32,
) -> Chain
    ensures { result ≡ follow_of net state stream.now ends.now offer ready channel }
{
    match followed(&net, &state, listed(stream, ends), offer, ready, channel) {
        Ok(chain) => chain,
        Err(refusal) => no_chain(refusal as u8),
    }
}
