// One cycle on lent arrays: the signals of every channel, and what moved.
ghost use Rattle.std.specs.Prelude.{ℕ, ◌≤◌, ◌<◌, length};
ghost use Rattle.blocks.specs.States.{reg_in};
ghost use Rattle.ports.specs.Places.{sig_at, ready_at};
ghost use Rattle.passes.specs.Rows.{in_kind, Shaped};
ghost use Rattle.passes.specs.Pass.{Holds};
ghost use Rattle.passes.specs.Passed.{ahead, AllSettled};
ghost use Rattle.rows.specs.Ends.{read, stream_at, mask_at, Fitting};
ghost use Rattle.rows.specs.Flat.{Ordered};
ghost use Rattle.signals.specs.Wires.{Worked, MovedIs};

use crate::Moves;
use crate::ends::{offer_sources, ready_sinks};
use blocks::{Kind, Sig, State};
use passes::ahead::{forward, forward_kind};
use passes::back::{backward, backward_kind};
use rows::{Laid, Streams};

// Works out what every channel shows.
fn shows(laid: &Laid, streams: Streams, offer: u32, state: &State, signals: &mut [Sig; 128])
    requires ordered { Ordered laid.now }
    requires shaped { Shaped laid.now.net.now state.now }
    requires fitting { Fitting (length (in_kind laid.now.sorted 0)) (length (read streams.words)) (read streams.ends) }
    ensures showing { let net = laid.now.net.now in (mask b : ℕ) → b < net.size → Holds (ahead net (stream_at net (read streams.entry.words) (read streams.entry.ends)) (mask_at net offer mask) (reg_in state.now) b) (sig_at signals.new) }
    ensures all_settled { AllSettled laid.now.net.now (reg_in state.now) signals.new }
{
    let net = laid.net;
    offer_sources(laid, streams, offer, state, signals);
    forward_kind(Kind::Buffer, &laid.sorted, net, state, signals);
    forward_kind(Kind::FullBuffer, &laid.sorted, net, state, signals);
    forward(laid.ahead.as_slice(), net, state, signals);
}

// Works out what every channel shows, then whether it is ready.
// stays: offer and ready part where they are used, in `wires`; a struct would only be taken apart there.
pub fn wires(
    laid: &Laid,
    streams: Streams,
    offer: u32,
    mask: u32,
    state: &State,
    signals: &mut [Sig; 128],
    ready: &mut [bool; 128],
)
    requires ordered { Ordered laid.now }
    requires shaped { Shaped laid.now.net.now state.now }
    requires fitting { Fitting (length (in_kind laid.now.sorted 0)) (length (read streams.words)) (read streams.ends) }
    ensures worked { let net = laid.now.net.now in Worked net (stream_at net (read streams.entry.words) (read streams.entry.ends)) (mask_at net offer mask) (reg_in state.now) (sig_at signals.new) (ready_at ready.new) }
    ensures all_settled { AllSettled laid.now.net.now (reg_in state.now) signals.new }
{
    let net = laid.net;
    shows(laid, streams, offer, state, signals);
    ready_sinks(laid, mask, ready);
    backward_kind(Kind::Control, &laid.sorted, net, state, signals, ready);
    backward(laid.behind.as_slice(), net, state, signals, ready);
}

// What moved on the first n channels.
pub fn moves_of(n: usize, signals: &[Sig; 128], ready: &[bool; 128]) -> Moves
    requires { n ≤ 128 }
    ensures { MovedIs n (sig_at signals.now) (ready_at ready.now) result.delivered result.words }
{
    let mut delivered = [0u8; 128];
    let mut words = [0u32; 128];
    for c in 0..n {
        let s = blocks::cycle::show(ports::moved(c, signals, ready), signals[c].word);
        delivered[c] = s.valid as u8;
        words[c] = s.word;
    }
    Moves { delivered, words }
}
