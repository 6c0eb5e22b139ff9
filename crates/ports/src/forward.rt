// Forward: what a block's outputs show, by kind.
ghost use Rattle.std.specs.Prelude.{◌≡◌, Bool, [], ℕ, suc, ◌+◌, ◌≤◌, ◌<◌};
ghost use Rattle.std.proofs.Math.Option.{Option, some};
ghost use Rattle.blocks.specs.Kinds.{operator, constant, fork, mux, demux, merge, buffer, control};
ghost use Rattle.blocks.specs.Words.{reach};
ghost use Rattle.blocks.specs.Signals.{chosen};
ghost use Rattle.blocks.specs.Folds.{bit};
ghost use Rattle.blocks.specs.Equations.{copy_out, winner, recorded};
ghost use Rattle.blocks.specs.declared.Reg.{Reg};
ghost use Rattle.ports.specs.Places.{sig_at, port_at, Put};
ghost use Rattle.ports.specs.Worked.{ins_show, Forward, OwnOutputs};

use crate::Wired;
use blocks::{Reg, Sig};

pub fn forward_operator(at: Wired, signals: &mut [Sig; 128])
    ensures { let block = at.entry.block.now in (mask : Bool) (r : Reg) → Forward (operator block.m) mask r block (sig_at signals.old) (sig_at signals.new) }
{
    let a = signals[at.place(0)];
    let b = signals[at.place(1)];
    at.put(2, blocks::cycle::operator_out(at.block.m, a, b), signals);
}

pub fn forward_constant(at: Wired, signals: &mut [Sig; 128])
    ensures { let block = at.entry.block.now in (mask : Bool) (r : Reg) → Forward (constant block.m block.value) mask r block (sig_at signals.old) (sig_at signals.new) }
{
    let a = signals[at.place(0)];
    at.put(
        1,
        blocks::cycle::constant_out(at.block.m, at.block.value, a),
        signals,
    );
}

// Puts copy i of a fork's input, which shows s. rest is the marks from the copy's own bit on.
fn put_copy(i: usize, rest: u8, s: Sig, at: Wired, signals: &mut [Sig; 128])
    requires { i < 9 }
    ensures { Put (λ j. port_at at.entry.block.now (1 + i + j)) (λ j. copy_out (bit 0 rest) s) 1 (sig_at signals.old) (sig_at signals.new) }
{
    at.put(1 + i, blocks::cycle::copy_out(rest, s), signals);
}

// The copies that have not gone show the input.
pub fn forward_fork(at: Wired, reg: Reg, signals: &mut [Sig; 128])
    requires le_m { 2 ≤ at.block.now.m }
    requires m_bound { at.block.now.m ≤ 8 }
    requires own_outputs { OwnOutputs (fork at.block.now.m) at.block.now }
    ensures { let block = at.entry.block.now in (mask : Bool) → Forward (fork block.m) mask reg block (sig_at signals.old) (sig_at signals.new) }
{
    let a = signals[at.place(0)];
    put_copy(0, reg.marks, a, at, signals);
    put_copy(1, reg.marks / 2, a, at, signals);
    let mut rest = reg.marks / 4;
    for i in 2..at.block.m as usize {
        put_copy(i, rest, a, at, signals);
        rest /= 2;
    }
}

// What the data input that select word s names shows.
fn selected(s: u32, at: Wired, signals: &[Sig; 128]) -> Sig
    requires le_m { 2 ≤ at.block.now.m }
    requires m_bound { at.block.now.m ≤ 8 }
    ensures { let block = at.entry.block.now in result ≡ chosen (reach block.m s) (λ t. sig_at signals.now (port_at block (suc t))) }
{
    let t = blocks::words::port_of(at.block.m as u32, s);
    signals[at.place(t as usize + 1)]
}

pub fn forward_mux(at: Wired, signals: &mut [Sig; 128])
    requires le_m { 2 ≤ at.block.now.m }
    requires m_bound { at.block.now.m ≤ 8 }
    ensures { let block = at.entry.block.now in (mask : Bool) (r : Reg) → Forward (mux block.m) mask r block (sig_at signals.old) (sig_at signals.new) }
{
    let s = signals[at.place(0)];
    let a = selected(s.word, at, signals);
    at.put(
        at.block.m as usize + 1,
        blocks::cycle::mux_out(s, a),
        signals,
    );
}

pub fn forward_demux(at: Wired, signals: &mut [Sig; 128])
    requires le_m { 2 ≤ at.block.now.m }
    requires m_bound { at.block.now.m ≤ 8 }
    requires own_outputs { OwnOutputs (demux at.block.now.m) at.block.now }
    ensures { let block = at.entry.block.now in (mask : Bool) (r : Reg) → Forward (demux block.m) mask r block (sig_at signals.old) (sig_at signals.new) }
{
    let s = signals[at.place(0)];
    let a = signals[at.place(1)];
    let n = at.block.m as u32;
    let t = blocks::words::port_of(n, s.word);
    for i in 0..n {
        at.put(
            2 + i as usize,
            blocks::cycle::demux_out(s, a, i == t),
            signals,
        );
    }
}

// The lowest-numbered valid input, plus 1; 0 for none.
fn lowest_valid(at: Wired, signals: &[Sig; 128]) -> u32
    requires { at.block.now.m ≤ 8 }
    ensures { let block = at.entry.block.now in result ≡ recorded (winner block.m (ins_show block (sig_at signals.now)) 0) }
{
    for i in 0..at.block.m as usize {
        if signals[at.place(i)].valid {
            return i as u32 + 1;
        }
    }
    0
}

// The winner of a merge as its register has it: the recorded one, else the lowest-numbered valid input.
pub fn winner_of(at: Wired, held: u32, signals: &[Sig; 128]) -> u32
    requires m_bound { at.block.now.m ≤ 8 }
    requires held_le_m { held ≤ at.block.now.m }
    ensures { let block = at.entry.block.now in result ≡ recorded (winner block.m (ins_show block (sig_at signals.now)) held) }
{
    if held == 0 {
        return lowest_valid(at, signals);
    }
    held
}

// What the input of winner w, from 1 to m, shows; nothing where w is 0, which is no winner. Of a w above m, which no winner has, nothing is promised.
pub fn won_by(at: Wired, w: u32, signals: &[Sig; 128]) -> Sig
    requires { at.block.now.m ≤ 8 }
    ensures { let block = at.entry.block.now in (o : Option ℕ) → ((t : ℕ) → o ≡ some t → t < block.m) → w ≡ recorded o → result ≡ chosen o (ins_show block (sig_at signals.now)) }
{
    if w == 0 || (at.block.m as u32) < w {
        return blocks::cycle::show(false, 0);
    }
    signals[at.place(w as usize - 1)]
}

pub fn forward_merge(at: Wired, reg: Reg, signals: &mut [Sig; 128])
    requires m_bound { at.block.now.m ≤ 8 }
    requires word_le_m { reg.word ≤ at.block.now.m }
    requires own_outputs { OwnOutputs (merge at.block.now.m []) at.block.now }
    ensures { let block = at.entry.block.now in (mask : Bool) → Forward (merge block.m []) mask reg block (sig_at signals.old) (sig_at signals.new) }
{
    let m = at.block.m as usize;
    let w = winner_of(at, reg.word, signals);
    let a = won_by(at, w, signals);
    let report = blocks::cycle::report_of(a.valid, w);
    at.put(m, blocks::cycle::copy_out(reg.marks, a), signals);
    at.put(
        m + 1,
        blocks::cycle::copy_out(reg.marks / 2, report),
        signals,
    );
}

pub fn forward_data(at: Wired, reg: Reg, signals: &mut [Sig; 128])
    ensures { (o : Option ℕ) (mask : Bool) → Forward (buffer o) mask reg at.entry.block.now (sig_at signals.old) (sig_at signals.new) }
{
    at.put(1, blocks::cycle::data_out(reg), signals);
}

pub fn forward_control(at: Wired, reg: Reg, signals: &mut [Sig; 128])
    ensures { (mask : Bool) → Forward control mask reg at.entry.block.now (sig_at signals.old) (sig_at signals.new) }
{
    let a = signals[at.place(0)];
    at.put(1, blocks::cycle::control_out(reg, a), signals);
}
