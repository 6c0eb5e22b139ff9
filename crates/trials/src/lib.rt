// What the programs that show trials share: a net with its streams, nets and states with a part changed, and bytes as they are printed.
#![tactic(auto)]

ghost use Rattle.std.specs.Prelude.{◌≡◌, ◌<◌, [], ◌∷◌, take, set};
ghost use Rattle.blocks.specs.Numbers.{kind_number};

use blocks::{Block, Kind, Net, State};
use std::io::Print;

// Streams: their words, one stream after another, and where the words of each end.
#[derive(Clone, Copy)]
pub struct Streams<'a> {
    pub words: &'a [u32],
    pub ends: &'a [u32],
}

impl<'a> Streams<'a> {
    // The streams, of which at most so many ends are lent.
    pub fn lent(self, most: usize) -> Streams<'a>
        ensures words { result.words ≡ self.entry.words }
        ensures ends { result.ends.now ≡ take most self.entry.ends.now }
    {
        let n = most.min(self.ends.len());
        Streams {
            words: self.words,
            ends: &self.ends[..n],
        }
    }
}

// The stored form of a source, a fork of 2 and two sinks, and what the source gives.
pub const FORK_FORM: [u8; 14] = [
    0x10, 0x00, 0x04, 0x03, 0x00, 0x00, 0x84, 0x00, 0x08, 0x21, 0x00, 0x22, 0x00, 0x80,
];

pub const FORK_WORDS: [u32; 4] = [10, 20, 30, 40];

pub const FORK_ENDS: [u32; 1] = [4];

// A block of a kind with ports p and q.
// stays: `placed` has its buffer with the promise of placements, which a trial needs not.
pub fn block(kind: Kind, p: u8, q: u8) -> Block
    ensures kind { result.kind ≡ kind_number kind }
    ensures ports { result.ports ≡ p ∷ q ∷ 0 ∷ 0 ∷ 0 ∷ 0 ∷ 0 ∷ 0 ∷ 0 ∷ 0 ∷ [] }
    ensures rest { (result.m ≡ 0) × (result.value ≡ 0) }
{
    Block {
        kind: kind as u8,
        m: 0,
        value: 0,
        ports: [p, q, 0, 0, 0, 0, 0, 0, 0, 0],
    }
}

// 32 sources, each joined to a sink.
pub fn pairs() -> Net
    ensures { (result.size ≡ 64) × (result.channels ≡ 32) }
{
    let mut blocks = [block(Kind::Source, 0, 0); 64];
    for channel in 0..32u8 {
        let b = 2 * channel as usize;
        blocks[b] = block(Kind::Source, channel, 0);
        blocks[b + 1] = block(Kind::Sink, channel, 0);
    }
    Net {
        size: 64,
        channels: 32,
        blocks,
    }
}

// The state with another word register of a block.
pub fn with_word(state: State, block: usize, word: u32) -> State
    requires { block < 64 }
    ensures word { result.words ≡ set state.words block word }
    ensures rest { (result.marks ≡ state.marks) × (result.count ≡ state.count) }
{
    let mut words = state.words;
    words[block] = word;
    State { words, ..state }
}

// The state with other marks of a block.
pub fn with_marks(state: State, block: usize, mark: u8) -> State
    requires { block < 64 }
    ensures marks { result.marks ≡ set state.marks block mark }
    ensures rest { (result.words ≡ state.words) × (result.count ≡ state.count) }
{
    let mut marks = state.marks;
    marks[block] = mark;
    State { marks, ..state }
}

// Prints bytes with two hexadecimal digits each, a text before each of them, and ends the line. A write that fails is passed over.
pub fn print_bytes(rt: &impl Print, before: &str, bytes: &[u8]) {
    for byte in bytes {
        let _ = print!(rt; "{before}{byte:02x}");
    }
    let _ = println!(rt);
}
