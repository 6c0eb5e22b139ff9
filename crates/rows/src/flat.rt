// The blocks of a net by kind and along the orders of the passes: made once for a step or a run.
ghost use Rattle.std.specs.Prelude.{◌≡◌, ◌≤◌};
ghost use Rattle.nets.specs.Promises.{Promises};
ghost use Rattle.passes.specs.Rows.{blocks_in, Rowed, Order, Whole, Along, Kinds};
ghost use Rattle.rows.specs.Flat.{rests_by, Ordered};

use crate::{Blocks, Laid, Sorted};
use blocks::{Kind, Net};
use nets::Plan;

// How many kinds there are.
const KINDS: usize = 11;

// Whether blocks of a kind rest in the pass backward, or forward.
fn rests(control: bool, kind: u8) -> bool
    ensures { result ≡ rests_by control kind }
{
    if kind <= Kind::Sink as u8 {
        true
    } else if control {
        kind == Kind::Control as u8
    } else {
        kind == Kind::Buffer as u8 || kind == Kind::FullBuffer as u8
    }
}

// The blocks that do not rest, along an order of all.
fn pick(control: bool, order: &[u8; 64], net: &Net) -> Blocks
    requires rowed { Rowed net.now }
    requires order { Order net.now.size order.now }
    ensures along { Whole net.now (rests_by control) order.now → Along net.now (rests_by control) (blocks_in result) }
    ensures count_bound { result.count ≤ 64 }
{
    let mut picked = Blocks::NONE;
    for i in 0..net.size as usize {
        let b = order[i];
        picked.put(b, !rests(control, net.blocks[b as usize].kind));
    }
    picked
}

// An accepted net laid out: its blocks sorted by kind, and by its plan those that do not rest.
pub fn lay_out<'a>(net: &'a Net, plan: &Plan) -> Laid<'a>
    requires { Promises net.now plan.now }
    ensures same_net { result.net.now ≡ net.now }
    ensures ordered { Ordered result }
{
    let mut sorted = Sorted {
        by_kind: [Blocks::NONE; KINDS],
    };
    for b in 0..net.size {
        let kind = net.blocks[b as usize].kind;
        sorted.by_kind[kind as usize].put(b, true);
    }
    Laid {
        net,
        sorted,
        ahead: pick(false, &plan.data, net),
        behind: pick(true, &plan.control, net),
    }
}
