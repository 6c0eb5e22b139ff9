// The equations of one block in one cycle, as functions of values. Loops over ports stand where a port's place is known, with one of these per port.
ghost use Rattle.std.specs.Prelude.{◌≡◌, ℕ, ◌+◌, ◌*◌, ◌^◌, ◌<◌, ◌≤◌, Bool, true, false, not, ◌&&◌, ◌||◌, List, ◌==◌};
ghost use Rattle.blocks.specs.Folds.{one, bit, bits};
ghost use Rattle.blocks.specs.Kinds.{kind_of};
ghost use Rattle.blocks.specs.Signals.{shown, kept};
ghost use Rattle.blocks.specs.Equations.{offers, source_next, operator_out, constant_out, copy_out, gained, fork_ready, fork_next, mux_out, demux_out, report_of, merge_next, data_out, data_ready, data_next, control_out, control_ready, control_next, fresh_reg};

use crate::words::compute;
use crate::{Kind, Reg, Sig};

// The word w where v holds, else nothing.
pub fn show(v: bool, w: u32) -> Sig
    ensures { result ≡ shown v w }
{
    Sig {
        valid: v,
        word: if v { w } else { 0 },
    }
}

// Whether a source offers a word, by its registers, its stream's length and its offer bit.
pub fn source_offers(reg: Reg, len: u32, offer: bool) -> bool
    ensures { result ≡ offers len reg offer }
{
    reg.word < len && (reg.marks == 1 || offer)
}

// v, y: whether the source's output is valid and ready. A position below a stream's length can go one on.
pub fn source_next(reg: Reg, v: bool, y: bool) -> Reg
    requires { v ≡ true → reg.word < 4294967295 }
    ensures { result ≡ source_next reg v y }
{
    if v && y {
        Reg {
            word: reg.word + 1,
            marks: 0,
        }
    } else {
        Reg {
            word: reg.word,
            marks: v as u8,
        }
    }
}

pub fn operator_out(m: u8, a: Sig, b: Sig) -> Sig
    ensures { result ≡ operator_out m a b }
{
    show(a.valid && b.valid, compute(m, a.word, b.word))
}

pub fn constant_out(m: u8, value: u32, a: Sig) -> Sig
    ensures { result ≡ constant_out m value a }
{
    show(a.valid, compute(m, a.word, value))
}

// A copy of the input: of a fork, or a merge's side. rest is the marks from the copy's own bit on.
pub fn copy_out(rest: u8, a: Sig) -> Sig
    ensures { result ≡ copy_out (bit 0 rest) a }
{
    show(a.valid && rest % 2 != 1, a.word)
}

// The delivered bits with one port more in front of them: ports are met from the last to the first.
pub fn with_port(went: u8, moved: bool) -> u8
    requires { went < 128 }
    ensures { result ≡ one moved + went * 2 }
{
    went * 2 + moved as u8
}

// The marks with the delivered bits. A copy that has gone is not valid, so it does not deliver again.
pub fn gain(marks: u8, went: u8) -> u8
    requires { marks + went ≤ 255 }
    ensures { (n : ℕ) (d : ℕ → Bool) → marks < 2 ^ n → went ≡ bits d n → ((i : ℕ) → i < n → (bit i marks && d i) ≡ false) → result ≡ gained n marks d }
{
    marks + went
}

// All n copies, as marks.
pub fn all_copies(n: u8) -> u8
    requires { n ≤ 8 }
    ensures { result + 1 ≡ 2 ^ n }
{
    ((1u32 << n) - 1) as u8
}

// Whether a fork takes its input, or a merge its winner's (n = 2): it is valid, and all n copies are gone with this cycle.
pub fn fork_ready(n: u8, v: bool, gone: u8) -> bool
    requires { n ≤ 8 }
    ensures { (marks : ℕ) (d : ℕ → Bool) → gone ≡ gained n marks d → result ≡ fork_ready n marks v d }
{
    v && gone == all_copies(n)
}

// Whether a copy that is valid or not, v, and ready or not, y, does not hinder its fork: it does while it is offered and not taken.
pub fn copy_done(v: bool, y: bool) -> bool
    ensures { result ≡ (not v || y) }
{
    !v || y
}

pub fn fork_next(taken: bool, gone: u8) -> u8
    ensures { result ≡ fork_next taken gone }
{
    if taken { 0 } else { gone }
}

pub fn mux_out(s: Sig, a: Sig) -> Sig
    ensures { result ≡ mux_out s a }
{
    show(s.valid && a.valid, a.word)
}

// Whether input i of a mux or a merge is ready, where go says that the chosen one is.
pub fn chosen_ready(go: bool, i: u32, chosen: u32) -> bool
    ensures { result ≡ (go && i == chosen) }
{
    go && i == chosen
}

// hit: this output is the selected one.
pub fn demux_out(s: Sig, a: Sig, hit: bool) -> Sig
    ensures { result ≡ demux_out s a hit }
{
    show(s.valid && a.valid && hit, a.word)
}

// What a merge's report carries of winner w, 1 to m, whose input is valid or not.
pub fn report_of(v: bool, w: u32) -> Sig
    ensures { result ≡ report_of v w }
{
    Sig {
        valid: v,
        word: if w == 0 { 0 } else { w - 1 },
    }
}

// v: the winner's input is valid; done: both sides are done; w: the winner, 1 to m; gone: the sides that are done.
pub fn merge_next(reg: Reg, v: bool, done: bool, w: u32, gone: u8) -> Reg
    ensures { result ≡ merge_next reg v done w gone }
{
    if !v {
        reg
    } else if done {
        Reg::ZERO
    } else {
        Reg {
            word: w,
            marks: gone,
        }
    }
}

pub fn data_out(reg: Reg) -> Sig
    ensures { result ≡ data_out reg }
{
    show(reg.marks == 1, reg.word)
}

pub fn data_ready(reg: Reg, y: bool) -> bool
    ensures { result ≡ data_ready reg y }
{
    y || reg.marks != 1
}

// What a port showed, as a buffer's registers.
fn kept(s: Sig) -> Reg
    ensures { result ≡ kept s }
{
    Reg {
        word: s.word,
        marks: s.valid as u8,
    }
}

// t: the input is ready.
pub fn data_next(reg: Reg, a: Sig, t: bool) -> Reg
    ensures { result ≡ data_next reg a t }
{
    if t { kept(show(a.valid, a.word)) } else { reg }
}

pub fn control_out(reg: Reg, a: Sig) -> Sig
    ensures { result ≡ control_out reg a }
{
    if reg.marks == 1 {
        show(true, reg.word)
    } else {
        show(a.valid, a.word)
    }
}

pub fn control_ready(reg: Reg) -> bool
    ensures { result ≡ control_ready reg }
{
    reg.marks != 1
}

// What the output showed is kept, unless it was taken.
pub fn control_next(out: Sig, y: bool) -> Reg
    ensures { (reg : Reg) (a : Sig) → out ≡ control_out reg a → result ≡ control_next reg a y }
{
    if y { Reg::ZERO } else { kept(out) }
}

// A block's registers in a fresh state.
pub fn fresh_reg(kind: u8, value: u32) -> Reg
    ensures { (m : ℕ) (xs : List ℕ) → result ≡ fresh_reg (kind_of kind m value xs) }
{
    if kind == Kind::FullBuffer as u8 {
        Reg {
            word: value,
            marks: 1,
        }
    } else {
        Reg::ZERO
    }
}
