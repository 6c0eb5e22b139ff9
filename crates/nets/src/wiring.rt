// The blocks at the ends of the channels, found by reading the blocks port by port.
ghost use Rattle.std.specs.Prelude.{◌≡◌, true, cond, ◌+◌, ◌*◌, ◌≤◌, ◌<◌};
ghost use Rattle.blocks.specs.Folds.{all_below};
ghost use Rattle.nets.specs.Net.{fields_ok};
ghost use Rattle.nets.specs.Ends.{CountsOf, Entries, Filled, held_at, EndsAre};

use crate::Net;
use blocks::Ports;

// The number of no block.
const NONE: u8 = 255;

// The ports on a side of a block with these counts, outputs (side true) or inputs: the first one, and the first one beyond them.
fn ports_on(side: bool, counts: Ports) -> (usize, usize)
    ensures first { result.0 ≡ cond side counts.inputs 0 }
    ensures last { result.1 ≡ cond side (counts.inputs + counts.outputs) counts.inputs }
{
    let inputs = counts.inputs as usize;
    if side {
        (inputs, inputs + counts.outputs as usize)
    } else {
        (0, inputs)
    }
}

// Enters block i at the channels of its ports on a side; false where a channel has a block already.
fn fill_block(side: bool, i: usize, net: &Net, counts: &[Ports; 64], table: &mut [u8; 128]) -> bool
    requires fields { fields_ok net.now ≡ true }
    requires counted { CountsOf net.now counts.now }
    requires i_bound { i < net.now.size }
    requires entries { Entries net.now side table.old (i * 10) }
    ensures { Filled net.now side i result table.new }
{
    let block = &net.blocks[i];
    let (first, last) = ports_on(side, counts[i]);
    for j in first..last {
        let c = block.ports[j] as usize;
        if table[c] != NONE {
            return false;
        }
        table[c] = i as u8;
    }
    true
}

// Every channel below the count has a block in the table.
fn all_held(table: &[u8; 128], channels: usize) -> bool
    requires { channels ≤ 128 }
    ensures { result ≡ all_below (held_at table.now) channels }
{
    table[..channels].iter().all(|a| *a != NONE)
}

// The block that each channel leaves (side true) or enters, where every channel has one such port.
pub fn ends_of(side: bool, net: &Net, counts: &[Ports; 64]) -> Option<[u8; 128]>
    requires fields { fields_ok net.now ≡ true }
    requires counted { CountsOf net.now counts.now }
    ensures { EndsAre net.now side result }
{
    let mut table = [NONE; 128];
    for i in 0..net.size as usize {
        if !fill_block(side, i, net, counts, &mut table) {
            return None;
        }
    }
    if all_held(&table, net.channels as usize) {
        Some(table)
    } else {
        None
    }
}
