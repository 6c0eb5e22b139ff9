// The signals of one cycle of a net: sources offer, sinks are ready, the passes work out the rest; and what moved.
#![tactic(auto)]

mod ends;
pub mod wires;

// What moved in a cycle: a delivery mark and the word for each channel, zero where nothing did.
#[derive(Clone, Copy)]
pub struct Moves {
    pub delivered: [u8; 128],
    pub words: [u32; 128],
}
