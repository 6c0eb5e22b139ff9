// Following a stall to its cause (change request 9): from a channel that does not deliver along those that it waits for, to what keeps them all.
#![tactic(auto)]

use asking::Ending;

pub mod follow;

// What `follow` returns: its refusal, or 0; how many channels the chain has; which, in order; whether each of them has V (then it lacks R); how the chain ends, if there is one.
// (Count and lists beside one another: the fields of this answer may not change.)
#[derive(Clone, Copy)]
pub struct Chain {
    // stays: what stands beside a refusal is promised too (`follow_of`: no channel, no ending).
    pub refusal: u8,
    // stays: the answer is promised with its count (`follow_of`).
    pub count: usize,
    pub channels: [u8; 128],
    pub valid: [bool; 128],
    pub ending: Option<Ending>,
}
