// The stored form of a net, field by field, and reading it.
#![tactic(auto)]

pub mod read;

use nets::{Block, Net};

// What loading a form finds: refusal 0 and the net, or the refusal and a zero net.
#[derive(Clone, Copy)]
pub struct Loading {
    // stays: what stands beside a refusal is promised too (`Loaded`: a zero net).
    pub refusal: u8,
    pub net: Net,
}

// A block of a form, and the bit position after it.
#[derive(Clone, Copy)]
struct BlockRead {
    block: Block,
    end: usize,
}
