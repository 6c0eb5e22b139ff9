// Forward: what every channel shows.
ghost use Rattle.std.specs.Prelude.{◌≡◌, Bool, true, false, List, ◌⊎◌, ℕ, ◌+◌, ◌<◌, eqb};
ghost use Rattle.blocks.specs.Numbers.{kind_number};
ghost use Rattle.blocks.specs.Ports.{m_ok, inputs_of, outputs_of};
ghost use Rattle.blocks.specs.States.{reg_in};
ghost use Rattle.ports.specs.Places.{sig_at, port_at, Apart};
ghost use Rattle.passes.specs.Rows.{kind_no, kind_with, is_kind_no, rests_ahead, FitReg, Rowed, Shaped, Along, Kinds};
ghost use Rattle.passes.specs.Pass.{Holds, Turned};
ghost use Rattle.passes.specs.Passed.{ahead, ahead_at};

use crate::Sorted;
use blocks::{Kind, Net, Reg, Sig, State};
use ports::Wired;
use ports::forward::{
    forward_constant, forward_control, forward_data, forward_demux, forward_fork, forward_merge,
    forward_mux, forward_operator,
};

// Works one block out forward. Sources have been offered before, and sinks have no outputs.
fn forward_one(kind: Kind, at: Wired, reg: Reg, signals: &mut [Sig; 128])
    requires kind_is { at.block.now.kind ≡ kind_number kind }
    requires m_value { m_ok at.block.now.kind at.block.now.m ≡ true }
    requires reg_value { FitReg at.block.now reg }
    requires apart { let block = at.block.now in Apart (λ j. port_at block (inputs_of block.kind block.m + j)) (outputs_of block.kind block.m) }
    ensures { let block = at.entry.block.now in (xs : List ℕ) (mask : Bool) → Turned (ahead_at block (kind_with block xs) mask reg) (eqb block.kind 0) (sig_at signals.old) (sig_at signals.new) }
{
    match kind {
        Kind::Source | Kind::Sink => {}
        Kind::Operator => forward_operator(at, signals),
        Kind::Constant => forward_constant(at, signals),
        Kind::Fork => forward_fork(at, reg, signals),
        Kind::Mux => forward_mux(at, signals),
        Kind::Demux => forward_demux(at, signals),
        Kind::Merge => forward_merge(at, reg, signals),
        Kind::Buffer | Kind::FullBuffer => forward_data(at, reg, signals),
        Kind::Control => forward_control(at, reg, signals),
    }
}

// Works out the blocks that do not rest, along their order: if those that rest show what they say, then every block does.
pub fn forward(order: &[u8], net: &Net, state: &State, signals: &mut [Sig; 128])
    requires rowed { Rowed net.now }
    requires along { Along net.now rests_ahead order.now }
    requires shaped { Shaped net.now state.now }
    ensures { (xs : ℕ → List ℕ) (mask : ℕ → Bool) → ((b : ℕ) → b < net.now.size → rests_ahead (kind_no net.now b) ≡ true → Holds (ahead net.now xs mask (reg_in state.now) b) (sig_at signals.old)) → (b : ℕ) → b < net.now.size → Holds (ahead net.now xs mask (reg_in state.now) b) (sig_at signals.new) }
{
    for b in order {
        let b = *b as usize;
        let block = &net.blocks[b];
        if let Some(kind) = Kind::of(block.kind) {
            forward_one(kind, Wired { block }, state.reg(b), signals);
        }
    }
}

// Works out the blocks of a kind that rests: they show what they say, and those of other kinds that rest and are done show it still.
pub fn forward_kind(kind: Kind, sorted: &Sorted, net: &Net, state: &State, signals: &mut [Sig; 128])
    requires rowed { Rowed net.now }
    requires kinds { Kinds net.now sorted.now }
    requires kind_rests { (rests_ahead (kind_number kind) ≡ true) × (eqb (kind_number kind) 0 ≡ false) }
    requires shaped { Shaped net.now state.now }
    ensures { (xs : ℕ → List ℕ) (mask : ℕ → Bool) (done : ℕ → Bool) → ((k : ℕ) → done k ≡ true → rests_ahead k ≡ true) → ((b : ℕ) → b < net.now.size → done (kind_no net.now b) ≡ true → Holds (ahead net.now xs mask (reg_in state.now) b) (sig_at signals.old)) → (b : ℕ) → b < net.now.size → (done (kind_no net.now b) ≡ true) ⊎ (is_kind_no net.now (kind_number kind) b ≡ true) → Holds (ahead net.now xs mask (reg_in state.now) b) (sig_at signals.new) }
{
    let list = sorted.of_kind(kind);
    for b in list {
        let b = *b as usize;
        let block = &net.blocks[b];
        forward_one(kind, Wired { block }, state.reg(b), signals);
    }
}
