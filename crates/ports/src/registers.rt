// The next registers of a block, by kind.
ghost use Rattle.std.specs.Prelude.{◌≡◌, true, List, [], ℕ, ◌≤◌, ◌<◌, ◌^◌};
ghost use Rattle.std.proofs.Math.Option.{Option};
ghost use Rattle.blocks.specs.Kinds.{source, fork, merge, buffer, control};
ghost use Rattle.blocks.specs.Equations.{control_out};
ghost use Rattle.ports.specs.Places.{sig_at, ready_at, port_at};
ghost use Rattle.ports.specs.Worked.{next_here, GoneQuiet};

use crate::Wired;
use crate::backward::gone_with;
use crate::forward::{winner_of, won_by};
use blocks::{Reg, Sig};

// A source that offers a word is not at the last position that there is.
pub fn next_source(at: Wired, reg: Reg, signals: &[Sig; 128], ready: &[bool; 128]) -> Reg
    requires { (sig_at signals.now (port_at at.block.now 0)).valid ≡ true → reg.word < 4294967295 }
    ensures { (xs : List ℕ) → result ≡ next_here (source xs) reg at.entry.block.now (sig_at signals.now) (ready_at ready.now) }
{
    let c = at.place(0);
    blocks::cycle::source_next(reg, signals[c].valid, ready[c])
}

pub fn next_fork(at: Wired, reg: Reg, signals: &[Sig; 128], ready: &[bool; 128]) -> Reg
    requires le_m { 2 ≤ at.block.now.m }
    requires m_bound { at.block.now.m ≤ 8 }
    requires marks_bound { reg.marks < 2 ^ at.block.now.m }
    requires gone_quiet { GoneQuiet at.block.now.m 1 reg.marks at.block.now signals.now }
    ensures { let block = at.entry.block.now in result ≡ next_here (fork block.m) reg block (sig_at signals.now) (ready_at ready.now) }
{
    let gone = gone_with(at.block.m, 1, reg.marks, at, signals, ready);
    Reg {
        word: reg.word,
        marks: blocks::cycle::fork_next(ready[at.place(0)], gone),
    }
}

pub fn next_merge(at: Wired, reg: Reg, signals: &[Sig; 128], ready: &[bool; 128]) -> Reg
    requires m_bound { at.block.now.m ≤ 8 }
    requires word_le_m { reg.word ≤ at.block.now.m }
    requires marks_bound { reg.marks < 4 }
    requires gone_quiet { GoneQuiet 2 at.block.now.m reg.marks at.block.now signals.now }
    ensures { let block = at.entry.block.now in result ≡ next_here (merge block.m []) reg block (sig_at signals.now) (ready_at ready.now) }
{
    let w = winner_of(at, reg.word, signals);
    let a = won_by(at, w, signals);
    let gone = gone_with(2, at.block.m as usize, reg.marks, at, signals, ready);
    let done = blocks::cycle::fork_ready(2, true, gone);
    blocks::cycle::merge_next(reg, a.valid, done, w, gone)
}

pub fn next_data(at: Wired, reg: Reg, signals: &[Sig; 128], ready: &[bool; 128]) -> Reg
    ensures { (o : Option ℕ) → result ≡ next_here (buffer o) reg at.entry.block.now (sig_at signals.now) (ready_at ready.now) }
{
    let c = at.place(0);
    blocks::cycle::data_next(reg, signals[c], ready[c])
}

// The output shows what the buffer holds or passes.
pub fn next_control(at: Wired, reg: Reg, signals: &[Sig; 128], ready: &[bool; 128]) -> Reg
    requires { sig_at signals.now (port_at at.block.now 1) ≡ control_out reg (sig_at signals.now (port_at at.block.now 0)) }
    ensures { result ≡ next_here control reg at.entry.block.now (sig_at signals.now) (ready_at ready.now) }
{
    let c = at.place(1);
    blocks::cycle::control_next(signals[c], ready[c])
}
