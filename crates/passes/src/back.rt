// Backward: whether every channel is ready.
ghost use Rattle.std.specs.Prelude.{◌≡◌, Bool, true, false, List, ◌⊎◌, ℕ, ◌<◌, leb};
ghost use Rattle.blocks.specs.Numbers.{kind_number};
ghost use Rattle.blocks.specs.Ports.{m_ok, inputs_of};
ghost use Rattle.blocks.specs.States.{reg_in};
ghost use Rattle.ports.specs.Places.{sig_at, ready_at, port_at, Apart};
ghost use Rattle.passes.specs.Rows.{kind_no, kind_with, is_kind_no, rests_back, FitReg, Rowed, Shaped, Along, Kinds};
ghost use Rattle.passes.specs.Pass.{Holds, Turned};
ghost use Rattle.passes.specs.Passed.{back, back_at, Settled, AllSettled};

use crate::Sorted;
use blocks::{Kind, Net, Reg, Sig, State};
use ports::Wired;
use ports::backward::{
    backward_constant, backward_control, backward_data, backward_demux, backward_fork,
    backward_merge, backward_mux, backward_operator,
};

// Works one block out backward. Sinks have been asked before, and sources have no inputs.
fn backward_one(kind: Kind, at: Wired, reg: Reg, signals: &[Sig; 128], ready: &mut [bool; 128])
    requires kind_is { at.block.now.kind ≡ kind_number kind }
    requires m_value { m_ok at.block.now.kind at.block.now.m ≡ true }
    requires reg_value { FitReg at.block.now reg }
    requires apart { let block = at.block.now in Apart (port_at block) (inputs_of block.kind block.m) }
    requires settled { Settled at.block.now reg signals.now }
    ensures { let block = at.entry.block.now in (xs : List ℕ) (mask : Bool) → Turned (back_at block (kind_with block xs) mask reg (sig_at signals.now)) (leb block.kind 1) (ready_at ready.old) (ready_at ready.new) }
{
    match kind {
        Kind::Source | Kind::Sink => {}
        Kind::Operator => backward_operator(at, signals, ready),
        Kind::Constant => backward_constant(at, signals, ready),
        Kind::Fork => backward_fork(at, signals, ready),
        Kind::Mux => backward_mux(at, signals, ready),
        Kind::Demux => backward_demux(at, signals, ready),
        Kind::Merge => backward_merge(at, reg, signals, ready),
        Kind::Buffer | Kind::FullBuffer => backward_data(at, reg, ready),
        Kind::Control => backward_control(at, reg, ready),
    }
}

// Works out the blocks that do not rest, from the end of their order: if those that rest are ready as they say, then every block is.
pub fn backward(
    order: &[u8],
    net: &Net,
    state: &State,
    signals: &[Sig; 128],
    ready: &mut [bool; 128],
)
    requires rowed { Rowed net.now }
    requires along { Along net.now rests_back order.now }
    requires shaped { Shaped net.now state.now }
    requires all_settled { AllSettled net.now (reg_in state.now) signals.now }
    ensures { (xs : ℕ → List ℕ) (mask : ℕ → Bool) → ((b : ℕ) → b < net.now.size → rests_back (kind_no net.now b) ≡ true → Holds (back net.now xs mask (reg_in state.now) (sig_at signals.now) b) (ready_at ready.old)) → (b : ℕ) → b < net.now.size → Holds (back net.now xs mask (reg_in state.now) (sig_at signals.now) b) (ready_at ready.new) }
{
    for b in order.iter().rev() {
        let b = *b as usize;
        let block = &net.blocks[b];
        if let Some(kind) = Kind::of(block.kind) {
            backward_one(kind, Wired { block }, state.reg(b), signals, ready);
        }
    }
}

// Works out the blocks of a kind that rests: they are ready as they say, and those of other kinds that rest and are done are so still.
pub fn backward_kind(
    kind: Kind,
    sorted: &Sorted,
    net: &Net,
    state: &State,
    signals: &[Sig; 128],
    ready: &mut [bool; 128],
)
    requires rowed { Rowed net.now }
    requires kinds { Kinds net.now sorted.now }
    requires kind_rests { (rests_back (kind_number kind) ≡ true) × (leb (kind_number kind) 1 ≡ false) }
    requires shaped { Shaped net.now state.now }
    requires all_settled { AllSettled net.now (reg_in state.now) signals.now }
    ensures { (xs : ℕ → List ℕ) (mask : ℕ → Bool) (done : ℕ → Bool) → ((k : ℕ) → done k ≡ true → rests_back k ≡ true) → ((b : ℕ) → b < net.now.size → done (kind_no net.now b) ≡ true → Holds (back net.now xs mask (reg_in state.now) (sig_at signals.now) b) (ready_at ready.old)) → (b : ℕ) → b < net.now.size → (done (kind_no net.now b) ≡ true) ⊎ (is_kind_no net.now (kind_number kind) b ≡ true) → Holds (back net.now xs mask (reg_in state.now) (sig_at signals.now) b) (ready_at ready.new) }
{
    let list = sorted.of_kind(kind);
    for b in list {
        let b = *b as usize;
        let block = &net.blocks[b];
        backward_one(kind, Wired { block }, state.reg(b), signals, ready);
    }
}
