// A block's ports in lent arrays: the block names the place of each of its ports in the arrays of signals, inputs first. The functions work one block out there by the
// equations of `blocks`; they know nothing of nets.
#![tactic(auto)]

ghost use Rattle.std.specs.Prelude.{◌≡◌, ◌&&◌, ◌+◌, ◌<◌};
ghost use Rattle.ports.specs.Places.{sig_at, ready_at, port_at, Ported, Put};

use blocks::{Block, Sig};

pub mod backward;
pub mod forward;
pub mod registers;

// A block whose ten entries name places below 128.
#[derive(Clone, Copy)]
pub struct Wired<'a> {
    pub block: &'a Block,
    ghost ported: { Ported block.now },
}

impl<'a> Wired<'a> {
    // The place of port i.
    pub fn place(self, i: usize) -> usize
        requires { i < 10 }
        ensures { (result ≡ port_at self.entry.block.now i) × (result < 128) }
    {
        self.block.ports[i] as usize
    }

    // Puts a signal onto port i.
    pub fn put(self, i: usize, s: Sig, signals: &mut [Sig; 128])
        requires { i < 10 }
        ensures { Put (λ j. port_at self.entry.block.now (i + j)) (λ j. s) 1 (sig_at signals.old) (sig_at signals.new) }
    {
        signals[self.place(i)] = s;
    }

    // Puts readiness onto port i.
    pub fn put_ready(self, i: usize, t: bool, ready: &mut [bool; 128])
        requires { i < 10 }
        ensures { Put (λ j. port_at self.entry.block.now (i + j)) (λ j. t) 1 (ready_at ready.old) (ready_at ready.new) }
    {
        ready[self.place(i)] = t;
    }
}

// Whether place c delivers.
pub fn moved(c: usize, signals: &[Sig; 128], ready: &[bool; 128]) -> bool
    requires { c < 128 }
    ensures { result ≡ ((sig_at signals.now c).valid && ready_at ready.now c) }
{
    signals[c].valid & ready[c]
}
