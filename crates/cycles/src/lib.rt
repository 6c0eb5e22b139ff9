// The state of a net and what a step returns. What a cycle means stands in specs/, its laws in proofs/. No code.
#![tactic(auto)]

pub use blocks::State;

// What a step returns: its refusal, or 0; the state; a delivery mark and the word for each channel, zero where nothing moved.
#[derive(Clone, Copy)]
pub struct Stepped {
    // stays: what stands beside a refusal is promised too (`step_of`: the state handed in, zeros).
    pub refusal: u8,
    pub state: State,
    pub delivered: [u8; 128],
    pub words: [u32; 128],
}
