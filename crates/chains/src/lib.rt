// Chains of waiting channels (change request 9) over a net and its signals: the walk from a channel along those that it waits for.
#![tactic(auto)]

ghost use Rattle.chains.specs.Wiring.{Wired};

use blocks::{Net, Sig, State};

pub mod walk;

// A cycle of a net: its state, what its channels show and whether they are ready, and each channel's producer and consumer.
#[derive(Clone, Copy)]
pub struct Seen<'a> {
    pub net: &'a Net,
    pub state: &'a State,
    pub signals: &'a [Sig; 128],
    pub ready: &'a [bool; 128],
    pub producer: &'a [u8; 128],
    pub consumer: &'a [u8; 128],
    ghost wired: { Wired net.now state.now producer.now consumer.now },
}

// A walk along a chain: the channels that are met, and the chain's channels in order, each with whether it has a word. (Count and lists stand as `stalls::Chain` answers them,
// whose fields may not change.)
#[derive(Clone, Copy)]
pub struct Walked {
    // stays: the entries in use, as many as a list on the heap would have (fixed memory).
    pub count: usize,
    pub met: [bool; 128],
    pub channels: [u8; 128],
    pub valid: [bool; 128],
}
