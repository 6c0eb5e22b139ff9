// Backward: at which inputs a block is ready, by kind.
ghost use Rattle.std.specs.Prelude.{◌≡◌, Bool, ◌&&◌, [], ℕ, ◌+◌, ◌*◌, ◌≤◌, ◌<◌, ◌^◌, eqb};
ghost use Rattle.std.proofs.Math.Option.{Option};
ghost use Rattle.blocks.specs.Folds.{one, bits};
ghost use Rattle.blocks.specs.Kinds.{operator, constant, fork, mux, demux, merge, buffer, control};
ghost use Rattle.blocks.specs.Equations.{gained};
ghost use Rattle.blocks.specs.Words.{reach};
ghost use Rattle.blocks.specs.Signals.{named};
ghost use Rattle.blocks.specs.declared.Reg.{Reg};
ghost use Rattle.blocks.specs.declared.Sig.{Sig};
ghost use Rattle.ports.specs.Places.{sig_at, ready_at, port_at, Put, Apart};
ghost use Rattle.ports.specs.Worked.{Backward, OwnInputs, Copied, GoneQuiet, free_at, went_at};

use crate::forward::{winner_of, won_by};
use crate::{Wired, moved};
use blocks::{Reg, Sig};

// The delivered bits of the ports after port first + i, with that port's in front.
fn went_from(
    i: usize,
    went: u8,
    first: usize,
    at: Wired,
    signals: &[Sig; 128],
    ready: &[bool; 128],
) -> u8
    requires i_bound { first + i < 10 }
    requires went_bound { went < 128 }
    ensures { result ≡ one (went_at first at.entry.block.now signals.now ready.now i) + went * 2 }
{
    blocks::cycle::with_port(went, moved(at.place(first + i), signals, ready))
}

// The delivered bits of n ports from port `first` on.
fn went_bits(n: u8, first: usize, at: Wired, signals: &[Sig; 128], ready: &[bool; 128]) -> u8
    requires le_n { 2 ≤ n }
    requires n_bound { n ≤ 8 }
    requires n_bound_2 { first + n ≤ 10 }
    ensures { result ≡ bits (went_at first at.entry.block.now signals.now ready.now) n }
{
    let mut went: u8 = 0;
    for i in (2..n as usize).rev() {
        went = went_from(i, went, first, at, signals, ready);
    }
    went = went_from(1, went, first, at, signals, ready);
    went_from(0, went, first, at, signals, ready)
}

// The marks of n copies from port `first` on, with those that go in this cycle.
pub fn gone_with(
    n: u8,
    first: usize,
    marks: u8,
    at: Wired,
    signals: &[Sig; 128],
    ready: &[bool; 128],
) -> u8
    requires le_n { 2 ≤ n }
    requires n_bound { n ≤ 8 }
    requires n_bound_2 { first + n ≤ 10 }
    requires marks_bound { marks < 2 ^ n }
    requires gone_quiet { GoneQuiet n first marks at.block.now signals.now }
    ensures { result ≡ gained n marks (went_at first at.entry.block.now signals.now ready.now) }
{
    blocks::cycle::gain(marks, went_bits(n, first, at, signals, ready))
}

pub fn backward_operator(at: Wired, signals: &[Sig; 128], ready: &mut [bool; 128])
    requires { Apart (port_at at.block.now) 2 }
    ensures { let block = at.entry.block.now in (mask : Bool) (r : Reg) → Backward (operator block.m) mask r block (sig_at signals.now) (ready_at ready.old) (ready_at ready.new) }
{
    let go = moved(at.place(2), signals, ready);
    at.put_ready(0, go, ready);
    at.put_ready(1, go, ready);
}

pub fn backward_constant(at: Wired, signals: &[Sig; 128], ready: &mut [bool; 128])
    ensures { let block = at.entry.block.now in (mask : Bool) (r : Reg) → Backward (constant block.m block.value) mask r block (sig_at signals.now) (ready_at ready.old) (ready_at ready.new) }
{
    let go = moved(at.place(1), signals, ready);
    at.put_ready(0, go, ready);
}

// go, and copy i of a fork does not hinder it.
fn with_copy(i: usize, go: bool, at: Wired, signals: &[Sig; 128], ready: &[bool; 128]) -> bool
    requires { i < 9 }
    ensures { result ≡ (go && free_at at.entry.block.now signals.now ready.now i) }
{
    let c = at.place(1 + i);
    go & blocks::cycle::copy_done(signals[c].valid, ready[c])
}

// The input is taken when it is valid and no copy hinders. What has gone is not asked: such a copy is not offered.
pub fn backward_fork(at: Wired, signals: &[Sig; 128], ready: &mut [bool; 128])
    requires le_m { 2 ≤ at.block.now.m }
    requires m_bound { at.block.now.m ≤ 8 }
    ensures { let block = at.entry.block.now in (mask : Bool) (r : Reg) → Copied block.m r.marks block signals.now → Backward (fork block.m) mask r block (sig_at signals.now) (ready_at ready.old) (ready_at ready.new) }
{
    let offered = signals[at.place(0)].valid;
    let mut go = with_copy(0, offered, at, signals, ready);
    go = with_copy(1, go, at, signals, ready);
    for i in 2..at.block.m as usize {
        go = with_copy(i, go, at, signals, ready);
    }
    at.put_ready(0, go, ready);
}

// Of the inputs from port `first` on, input i is ready where go says so and it is the chosen one.
fn ready_if_chosen(i: u32, first: usize, go: bool, chosen: u32, at: Wired, ready: &mut [bool; 128])
    requires { first + i < 10 }
    ensures { Put (λ j. port_at at.entry.block.now (first + i + j)) (λ j. go && eqb i chosen) 1 (ready_at ready.old) (ready_at ready.new) }
{
    let t = blocks::cycle::chosen_ready(go, i, chosen);
    at.put_ready(first + i as usize, t, ready);
}

// Of n inputs from port `first` on, the chosen one is ready where go says so, and no other.
fn ready_chosen(n: u8, first: usize, go: bool, chosen: u32, at: Wired, ready: &mut [bool; 128])
    requires le_n { 2 ≤ n }
    requires n_bound { first + n ≤ 10 }
    requires apart { Apart (λ j. port_at at.block.now (first + j)) n }
    ensures { Put (λ j. port_at at.entry.block.now (first + j)) (λ j. go && eqb j chosen) n (ready_at ready.old) (ready_at ready.new) }
{
    ready_if_chosen(0, first, go, chosen, at, ready);
    ready_if_chosen(1, first, go, chosen, at, ready);
    for i in 2..n as u32 {
        ready_if_chosen(i, first, go, chosen, at, ready);
    }
}

pub fn backward_mux(at: Wired, signals: &[Sig; 128], ready: &mut [bool; 128])
    requires le_m { 2 ≤ at.block.now.m }
    requires m_bound { at.block.now.m ≤ 8 }
    requires own_inputs { OwnInputs (mux at.block.now.m) at.block.now }
    ensures { let block = at.entry.block.now in (mask : Bool) (r : Reg) → Backward (mux block.m) mask r block (sig_at signals.now) (ready_at ready.old) (ready_at ready.new) }
{
    let m = at.block.m;
    let s = signals[at.place(0)];
    let go = moved(at.place(m as usize + 1), signals, ready);
    let t = blocks::words::port_of(m as u32, s.word);
    at.put_ready(0, go, ready);
    ready_chosen(m, 1, go, t, at, ready);
}

// Whether the output that select word s names delivers.
fn sent(s: u32, at: Wired, signals: &[Sig; 128], ready: &[bool; 128]) -> bool
    requires le_m { 2 ≤ at.block.now.m }
    requires m_bound { at.block.now.m ≤ 8 }
    ensures { let block = at.entry.block.now in result ≡ named (reach block.m s) (went_at 2 block signals.now ready.now) }
{
    let t = blocks::words::port_of(at.block.m as u32, s);
    moved(at.place(2 + t as usize), signals, ready)
}

pub fn backward_demux(at: Wired, signals: &[Sig; 128], ready: &mut [bool; 128])
    requires le_m { 2 ≤ at.block.now.m }
    requires m_bound { at.block.now.m ≤ 8 }
    requires apart { Apart (port_at at.block.now) 2 }
    ensures { let block = at.entry.block.now in (mask : Bool) (r : Reg) → Backward (demux block.m) mask r block (sig_at signals.now) (ready_at ready.old) (ready_at ready.new) }
{
    let s = signals[at.place(0)];
    let go = sent(s.word, at, signals, ready);
    at.put_ready(0, go, ready);
    at.put_ready(1, go, ready);
}

pub fn backward_merge(at: Wired, reg: Reg, signals: &[Sig; 128], ready: &mut [bool; 128])
    requires le_m { 2 ≤ at.block.now.m }
    requires m_bound { at.block.now.m ≤ 8 }
    requires word_le_m { reg.word ≤ at.block.now.m }
    requires marks_bound { reg.marks < 4 }
    requires gone_quiet { GoneQuiet 2 at.block.now.m reg.marks at.block.now signals.now }
    requires own_inputs { OwnInputs (merge at.block.now.m []) at.block.now }
    ensures { let block = at.entry.block.now in (mask : Bool) → Backward (merge block.m []) mask reg block (sig_at signals.now) (ready_at ready.old) (ready_at ready.new) }
{
    let m = at.block.m;
    let w = winner_of(at, reg.word, signals);
    let a = won_by(at, w, signals);
    let gone = gone_with(2, m as usize, reg.marks, at, signals, ready);
    let go = blocks::cycle::fork_ready(2, a.valid, gone);
    ready_chosen(m, 0, go, w.saturating_sub(1), at, ready);
}

// What its input shows is not asked.
pub fn backward_data(at: Wired, reg: Reg, ready: &mut [bool; 128])
    ensures { (o : Option ℕ) (mask : Bool) (shows : ℕ → Sig) → Backward (buffer o) mask reg at.entry.block.now shows (ready_at ready.old) (ready_at ready.new) }
{
    let t = blocks::cycle::data_ready(reg, ready[at.place(1)]);
    at.put_ready(0, t, ready);
}

pub fn backward_control(at: Wired, reg: Reg, ready: &mut [bool; 128])
    ensures { (mask : Bool) (shows : ℕ → Sig) → Backward control mask reg at.entry.block.now shows (ready_at ready.old) (ready_at ready.new) }
{
    at.put_ready(0, blocks::cycle::control_ready(reg), ready);
}
