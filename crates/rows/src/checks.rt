// The tests before a step: the state's shape, the streams' ends.
ghost use Rattle.std.specs.Prelude.{◌≡◌, ◌&&◌, ◌<◌, eqb, length};
ghost use Rattle.blocks.specs.States.{reg_in};
ghost use Rattle.cycles.specs.State.{entry_shape, shape_ok};
ghost use Rattle.cycles.specs.Streams.{ascend};
ghost use Rattle.passes.specs.Rows.{Rowed};
ghost use Rattle.rows.specs.Ends.{read};

use blocks::{Net, Reg, State};
use trace::numbers::Numbers;

// The most cycles that a state counts.
pub const CYCLE_LIMIT: u32 = 1048576;

// One entry of a state: a block's registers in shape, or zero ones beyond the net's blocks.
fn entry_ok(b: usize, state: &State, net: &Net) -> bool
    requires rowed { Rowed net.now }
    requires b_bound { b < 64 }
    ensures { result ≡ entry_shape net.now state.now b }
{
    let reg = state.reg(b);
    if b < net.size as usize {
        let block = &net.blocks[b];
        return blocks::shape::reg_ok(block.kind, block.m, reg);
    }
    reg == Reg::ZERO
}

// The state is in shape.
pub fn shape_ok(state: &State, net: &Net) -> bool
    requires { Rowed net.now }
    ensures { result ≡ shape_ok net.now state.now }
{
    if CYCLE_LIMIT < state.count {
        return false;
    }
    for b in 0..64 {
        if !entry_ok(b, state, net) {
            return false;
        }
    }
    true
}

// There are count ends, which do not descend and do not pass `long` words.
pub fn ends_fit(count: usize, long: usize, ends: Numbers) -> bool
    ensures { let list = read ends.entry in result ≡ (eqb (length list) count && ascend 0 long list) }
{
    if ends.len() != count {
        return false;
    }
    let mut low = 0;
    for i in 0..count {
        let end = ends.at(i) as usize;
        if end < low {
            return false;
        }
        low = end;
    }
    low <= long
}
