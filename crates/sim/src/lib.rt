// States and steps of a net: the calls `fresh` and `step`.
#![tactic(auto)]

use cycles::State;

pub mod cycle;
pub mod step;

// What `fresh` returns: its refusal, or 0, and the state.
#[derive(Clone, Copy)]
pub struct Fresh {
    // stays: what stands beside a refusal is promised too (`fresh_of`: a zero state).
    pub refusal: u8,
    pub state: State,
}
