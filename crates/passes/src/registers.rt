// The registers after a cycle.
ghost use Rattle.std.specs.Prelude.{◌≡◌, Bool, true, false, List, ℕ, ◌≤◌, ◌<◌};
ghost use Rattle.blocks.specs.Numbers.{kind_number};
ghost use Rattle.blocks.specs.Ports.{m_ok};
ghost use Rattle.blocks.specs.States.{reg_in, Kept};
ghost use Rattle.ports.specs.Places.{sig_at, ready_at};
ghost use Rattle.ports.specs.Worked.{next_here};
ghost use Rattle.passes.specs.Rows.{kind_with, is_kind_no, FitReg, Rowed, Shaped, Kinds};
ghost use Rattle.passes.specs.Passed.{next_no, Settled, Stepping, AllSettled};

use crate::Sorted;
use blocks::{Kind, Net, Reg, Sig, State};
use ports::Wired;
use ports::registers::{next_control, next_data, next_fork, next_merge, next_source};

// The next registers of one block. Kinds that no rule names keep theirs.
fn next_one(kind: Kind, at: Wired, reg: Reg, signals: &[Sig; 128], ready: &[bool; 128]) -> Reg
    requires kind_is { at.block.now.kind ≡ kind_number kind }
    requires m_value { m_ok at.block.now.kind at.block.now.m ≡ true }
    requires reg_value { FitReg at.block.now reg }
    requires settled { Settled at.block.now reg signals.now }
    ensures { let block = at.entry.block.now in (xs : List ℕ) → result ≡ next_here (kind_with block xs) reg block (sig_at signals.now) (ready_at ready.now) }
{
    match kind {
        Kind::Source => next_source(at, reg, signals, ready),
        Kind::Fork => next_fork(at, reg, signals, ready),
        Kind::Merge => next_merge(at, reg, signals, ready),
        Kind::Buffer | Kind::FullBuffer => next_data(at, reg, signals, ready),
        Kind::Control => next_control(at, reg, signals, ready),
        _ => reg,
    }
}

// Steps the registers of the blocks of a kind, and no others.
fn next_kind(
    kind: Kind,
    sorted: &Sorted,
    net: &Net,
    signals: &[Sig; 128],
    ready: &[bool; 128],
    state: &mut State,
)
    requires rowed { Rowed net.now }
    requires kinds { Kinds net.now sorted.now }
    requires by_index { (b : ℕ) → b < net.now.size → is_kind_no net.now (kind_number kind) b ≡ true → Stepping net.now b state.old signals.now }
    ensures by_index_2 { (xs : ℕ → List ℕ) (mask : ℕ → Bool) (b : ℕ) → b < net.now.size → is_kind_no net.now (kind_number kind) b ≡ true → reg_in state.new b ≡ next_no net.now xs mask (reg_in state.old) (sig_at signals.now) (ready_at ready.now) b }
    ensures by_index_3 { (b : ℕ) → (b < net.now.size → is_kind_no net.now (kind_number kind) b ≡ false) → reg_in state.new b ≡ reg_in state.old b }
    ensures kept { Kept state.old state.new }
{
    let list = sorted.of_kind(kind);
    for b in list {
        let b = *b as usize;
        let block = &net.blocks[b];
        let next = next_one(kind, Wired { block }, state.reg(b), signals, ready);
        state.set_reg(b, next);
    }
}

// Steps the registers of all blocks, kind after kind; operators, constants, muxes, demuxes and sinks have none.
pub fn registers(
    sorted: &Sorted,
    net: &Net,
    signals: &[Sig; 128],
    ready: &[bool; 128],
    state: &mut State,
)
    requires rowed { Rowed net.now }
    requires kinds { Kinds net.now sorted.now }
    requires shaped { Shaped net.now state.old }
    requires all_settled { AllSettled net.now (reg_in state.old) signals.now }
    ensures by_index { (xs : ℕ → List ℕ) (mask : ℕ → Bool) (b : ℕ) → b < net.now.size → reg_in state.new b ≡ next_no net.now xs mask (reg_in state.old) (sig_at signals.now) (ready_at ready.now) b }
    ensures by_index_2 { (b : ℕ) → net.now.size ≤ b → reg_in state.new b ≡ reg_in state.old b }
    ensures kept { Kept state.old state.new }
{
    next_kind(Kind::Source, sorted, net, signals, ready, state);
    next_kind(Kind::Fork, sorted, net, signals, ready, state);
    next_kind(Kind::Merge, sorted, net, signals, ready, state);
    next_kind(Kind::Buffer, sorted, net, signals, ready, state);
    next_kind(Kind::FullBuffer, sorted, net, signals, ready, state);
    next_kind(Kind::Control, sorted, net, signals, ready, state);
}
