// Blocks: their kinds and ports, what a block shows and takes in a cycle, its next registers and their shape; nets of them and their states, as values.
#![tactic(auto)]

ghost use Rattle.std.specs.Prelude.{◌≡◌, ℕ, ◌<◌, MatchOption};
ghost use Rattle.blocks.specs.Numbers.{kind_number};
ghost use Rattle.blocks.specs.Refusals.{refusal_number};
ghost use Rattle.blocks.specs.States.{reg_in, Kept};

pub mod cycle;
pub mod kinds;
pub mod shape;
pub mod words;

// The kinds of block, by document 01's numbers.
#[derive(Clone, Copy, PartialEq, Eq)]
pub enum Kind {
    Source,
    Sink,
    Operator,
    Constant,
    Fork,
    Mux,
    Demux,
    Merge,
    Buffer,
    FullBuffer,
    Control,
}

// Why a call is refused, each with its number in the documents.
#[derive(Clone, Copy, PartialEq, Eq)]
pub enum Refusal {
    // A stored form: its bytes end within a field; its edition; its two counts; a block's kind, its m, a port's channel; bits after the last field.
    Truncated = 1,
    Edition = 2,
    Counts = 3,
    Kind = 4,
    M = 5,
    PortChannel = 6,
    Rest = 7,
    // A net: a channel's ports, its sources and sinks, a loop without a data buffer, a loop without a control buffer; a net value in a call that takes accepted nets.
    Connection = 8,
    Ends = 9,
    DataLoop = 10,
    ControlLoop = 11,
    Net = 12,
    // A step or a run: the state, the ends of the streams, the masks, the count of cycles.
    State = 13,
    Streams = 14,
    Masks = 15,
    Cycles = 16,
    // Writing a form: a buffer that is shorter.
    Buffer = 17,
    // Placing buffers: the codes, no room for the buffers, too many channels to list.
    Codes = 18,
    Room = 19,
    Listing = 20,
    // A bay's number.
    Bay = 21,
    // A trace that is not whole records, and a list that is too short for its words.
    Trace = 22,
    List = 23,
    // A channel to ask at.
    Channel = 24,
}

// What a port shows: whether it is valid, and its word, 0 where it is not.
#[derive(Clone, Copy, PartialEq, Eq)]
pub struct Sig {
    pub valid: bool,
    pub word: u32,
}

// A block's two registers.
#[derive(Clone, Copy, PartialEq, Eq)]
pub struct Reg {
    pub word: u32,
    pub marks: u8,
}

// A block of a net.
#[derive(Clone, Copy, PartialEq, Eq)]
pub struct Block {
    pub kind: u8,
    pub m: u8,
    pub value: u32,
    // The channels of the ports, inputs first, then outputs; the rest are 0.
    pub ports: [u8; 10],
}

// A net of blocks and channels.
#[derive(Clone, Copy, PartialEq, Eq)]
pub struct Net {
    // The number of blocks and the number of channels.
    pub size: u8,
    pub channels: u8,
    // Entries from size on are all 0.
    pub blocks: [Block; 64],
}

// The registers of a net's blocks; entries from the net's size on are 0.
#[derive(Clone, Copy, PartialEq, Eq)]
pub struct State {
    // How many cycles it has run since it was fresh.
    pub count: u32,
    pub words: [u32; 64],
    pub marks: [u8; 64],
}

// The number of input and of output ports.
#[derive(Clone, Copy, PartialEq, Eq)]
pub struct Ports {
    pub inputs: u8,
    pub outputs: u8,
}

impl Kind {
    // The kind of a number of document 01.
    pub fn of(kind: u8) -> Option<Kind>
        ensures { MatchOption result (10 < kind) (λ k. kind_number k ≡ kind) }
    {
        // stays: here a number of a net value becomes a kind.
        Some(match kind {
            0 => Kind::Source,
            1 => Kind::Sink,
            2 => Kind::Operator,
            3 => Kind::Constant,
            4 => Kind::Fork,
            5 => Kind::Mux,
            6 => Kind::Demux,
            7 => Kind::Merge,
            8 => Kind::Buffer,
            9 => Kind::FullBuffer,
            10 => Kind::Control,
            _ => return None,
        })
    }
}

impl Sig {
    // As a port shows that is not valid.
    pub const NOTHING: Sig = Sig {
        valid: false,
        word: 0,
    };
}

impl Reg {
    // As a block's registers are in a fresh state, but for a data buffer that starts full.
    pub const ZERO: Reg = Reg { word: 0, marks: 0 };
}

impl Block {
    // As the entries of a net from its size on are.
    pub const ZERO: Block = Block {
        kind: 0,
        m: 0,
        value: 0,
        ports: [0; 10],
    };
}

impl Refusal {
    // The documents' number of a refusal.
    // stays: a cast, with the clause that says which number it gives.
    pub fn number(self) -> u8
        ensures { result ≡ refusal_number self }
    {
        self as u8
    }
}

impl State {
    // The registers of block b.
    pub fn reg(&self, b: usize) -> Reg
        requires { b < 64 }
        ensures { result ≡ reg_in self.now b }
    {
        Reg {
            word: self.words[b],
            marks: self.marks[b],
        }
    }

    // Block b gets these registers, and no other block.
    pub fn set_reg(&mut self, b: usize, reg: Reg)
        requires { b < 64 }
        ensures here { reg_in self.new b ≡ reg }
        ensures others { (a : ℕ) → (a ≡ b → ⊥) → reg_in self.new a ≡ reg_in self.old a }
        ensures kept { Kept self.old self.new }
    {
        self.words[b] = reg.word;
        self.marks[b] = reg.marks;
    }
}
