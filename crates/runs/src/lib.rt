// Runs: many cycles in one call, each delivery a record in the trace.
#![tactic(auto)]

use cycles::State;

pub mod many;

// What a run returns: its refusal, or 0; its ending; the cycles done, the records written, and the state.
#[derive(Clone, Copy)]
pub struct Run {
    // stays: what stands beside a refusal is promised too (`run_of`: the state handed in, zeros).
    pub refusal: u8,
    pub ending: u8,
    pub cycles: u32,
    pub records: u32,
    pub state: State,
}
