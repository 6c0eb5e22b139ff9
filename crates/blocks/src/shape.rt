// Whether a block's registers are in shape.
ghost use Rattle.std.specs.Prelude.{◌≡◌, ℕ, ◌≤◌, []};
ghost use Rattle.blocks.specs.Kinds.{kind_of};
ghost use Rattle.blocks.specs.Shape.{zero_reg, source_reg, buffer_reg, fork_reg, merge_reg, in_shape};

use crate::cycle::all_copies;
use crate::{Kind, Reg};

// Both registers are 0.
// stays: == of the derive, with the clause that `in_shape` needs.
pub fn zero_reg(reg: Reg) -> bool
    ensures { result ≡ zero_reg reg }
{
    reg == Reg::ZERO
}

fn buffer_reg(reg: Reg) -> bool
    ensures { result ≡ buffer_reg reg }
{
    reg.marks == 1 || zero_reg(reg)
}

fn fork_reg(m: u8, reg: Reg) -> bool
    requires { m ≤ 8 }
    ensures { result ≡ fork_reg m reg }
{
    reg.word == 0 && reg.marks < all_copies(m)
}

fn merge_reg(m: u8, reg: Reg) -> bool
    ensures { result ≡ merge_reg m reg }
{
    if reg.word == 0 {
        reg.marks == 0
    } else {
        reg.word <= m as u32 && reg.marks <= 2
    }
}

// The registers of a block of this kind and m; m is in its kind's range.
pub fn reg_ok(kind: u8, m: u8, reg: Reg) -> bool
    requires { m ≤ 8 }
    ensures { (value : ℕ) → result ≡ in_shape (kind_of kind m value []) reg }
{
    match Kind::of(kind) {
        Some(Kind::Source) => reg.marks <= 1,
        Some(Kind::Fork) => fork_reg(m, reg),
        Some(Kind::Merge) => merge_reg(m, reg),
        Some(Kind::Buffer | Kind::FullBuffer | Kind::Control) => buffer_reg(reg),
        _ => zero_reg(reg),
    }
}
