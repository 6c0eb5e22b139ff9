// The passes of one cycle over all blocks of a net. Signals and registers are lent arrays, orders are slices, so that a run of many cycles copies nothing.
#![tactic(auto)]

ghost use Rattle.std.specs.Prelude.{◌≡◌, ◌+◌, ◌≤◌, ◌<◌, cond, [], ◌∷◌, ◌++◌};
ghost use Rattle.blocks.specs.Folds.{one};
ghost use Rattle.blocks.specs.Numbers.{kind_number};
ghost use Rattle.passes.specs.Rows.{blocks_in, kept_no, in_kind};

use blocks::Kind;

pub mod ahead;
pub mod back;
pub mod registers;

// Some blocks in an order: the first `count` entries.
#[derive(Clone, Copy)]
pub struct Blocks {
    // stays: the entries in use, as many as a list on the heap would have (fixed memory).
    pub count: usize,
    pub blocks: [u8; 64],
}

// The blocks of each kind, in block order.
#[derive(Clone, Copy)]
pub struct Sorted {
    pub by_kind: [Blocks; 11],
}

impl Blocks {
    // No block.
    pub const NONE: Blocks = Blocks {
        count: 0,
        blocks: [0; 64],
    };

    // Puts a block at the end where `kept` says so. It is stored where the next one goes, and the place moves on only then: no branch.
    pub fn put(&mut self, b: u8, kept: bool)
        requires { self.old.count < 64 }
        ensures count { self.new.count ≡ self.old.count + one kept }
        ensures list { blocks_in self.new ≡ blocks_in self.old ++ cond kept (b ∷ []) [] }
    {
        self.blocks[self.count] = b;
        self.count += kept as usize;
    }

    // The blocks that stand in the order.
    pub fn as_slice(&self) -> &[u8]
        requires { self.now.count ≤ 64 }
        ensures { result.now ≡ blocks_in self.now }
    {
        &self.blocks[..self.count]
    }
}

impl Sorted {
    // The blocks of a kind.
    pub fn of_kind(&self, kind: Kind) -> &[u8]
        requires { (kept_no self.now (kind_number kind)).count ≤ 64 }
        ensures { result.now ≡ in_kind self.now (kind_number kind) }
    {
        self.by_kind[kind as usize].as_slice()
    }
}
