// A net laid out for stepping: its blocks by kind, and the orders without the blocks that rest; and the tests of states and ends.
#![tactic(auto)]

ghost use Rattle.std.specs.Prelude.{◌≤◌};
ghost use Rattle.passes.specs.Rows.{Rowed, Kinds};

use blocks::Net;
pub use passes::{Blocks, Sorted};
use trace::numbers::Numbers;

pub mod checks;
pub mod flat;

// The words of all sources, one source's after the other's, and where each source's end.
#[derive(Clone, Copy)]
pub struct Streams<'a> {
    pub words: Numbers<'a>,
    pub ends: Numbers<'a>,
}

// A net with its blocks by kind, and those that do not rest in the pass ahead and in the pass back, along the orders of the passes.
#[derive(Clone, Copy)]
pub struct Laid<'a> {
    pub net: &'a Net,
    pub sorted: Sorted,
    pub ahead: Blocks,
    pub behind: Blocks,
    ghost rowed: { Rowed net.now },
    ghost kinds: { Kinds net.now sorted },
    ghost few: { (ahead.count ≤ 64) × (behind.count ≤ 64) },
}
