// The fields of a net value.
ghost use Rattle.std.specs.Prelude.{◌≡◌, ◌≤◌, eqb, get_or};
ghost use Rattle.blocks.specs.Folds.{count_below};
ghost use Rattle.blocks.specs.Numbers.{kind_number};
ghost use Rattle.nets.specs.Block.{no_block, port_ok, ports_ok, value_ok, block_ok, ins, outs};
ghost use Rattle.nets.specs.Ends.{CountsOf};
ghost use Rattle.nets.specs.Net.{block_zero, entry_ok, sizes_ok, fields_ok, kind_count, few_ends};

use crate::{Block, Net};
use blocks::{Kind, Ports, kinds};

// A used port names a channel below the count; an unused one is 0, the only number below 1.
fn port_ok(port: u8, used: bool, channels: u8) -> bool
    ensures { result ≡ port_ok port used channels }
{
    port < if used { channels } else { 1 }
}

// The first n ports name channels, and the rest are 0.
fn ports_ok(ports: &[u8; 10], n: usize, channels: u8) -> bool
    ensures { result ≡ ports_ok ports.now n channels }
{
    for (i, port) in ports.iter().enumerate() {
        if !port_ok(*port, i < n, channels) {
            return false;
        }
    }
    true
}

// A kind without a value has value 0.
fn value_ok(kind: u8, value: u32) -> bool
    ensures { result ≡ value_ok kind value }
{
    kinds::has_value(kind) || value == 0
}

// Every field of the block is 0.
// stays: == of the derive, with the clause that `entry_ok` needs.
fn block_zero(b: Block) -> bool
    ensures { result ≡ block_zero b }
{
    b == Block::ZERO
}

// The net's two counts are in their ranges.
fn sizes_ok(size: u8, channels: u8) -> bool
    ensures { result ≡ sizes_ok size channels }
{
    2 <= size && size <= 64 && 1 <= channels && channels <= 128
}

// How many input and output ports a block has; none where its kind or its m is not in use.
pub fn counts(b: &Block) -> Ports
    ensures inputs { result.inputs ≡ ins b.now }
    ensures outputs { result.outputs ≡ outs b.now }
{
    let none = Ports {
        inputs: 0,
        outputs: 0,
    };
    kinds::ports_of(b.kind, b.m).unwrap_or(none)
}

// How many ports each block of a net has: counted once, since the checks come to a block again and again.
pub fn counts_of(net: &Net) -> [Ports; 64]
    requires { net.now.size ≤ 64 }
    ensures { CountsOf net.now result }
{
    let none = Ports {
        inputs: 0,
        outputs: 0,
    };
    let mut all = [none; 64];
    for b in 0..net.size as usize {
        all[b] = counts(&net.blocks[b]);
    }
    all
}

// Every field of the block is in its range.
fn block_ok(b: &Block, channels: u8) -> bool
    ensures { result ≡ block_ok b.now channels }
{
    let Some(p) = kinds::ports_of(b.kind, b.m) else {
        return false;
    };
    value_ok(b.kind, b.value) && ports_ok(&b.ports, (p.inputs + p.outputs) as usize, channels)
}

// Entry i of a net's blocks: a block in its ranges, or one beyond the net's blocks, which is 0.
fn entry_ok(b: &Block, used: bool, channels: u8) -> bool
    ensures { result ≡ entry_ok b.now used channels }
{
    if used {
        block_ok(b, channels)
    } else {
        block_zero(*b)
    }
}

// Whether every field of the net is in its range, and every unused entry 0.
pub fn fields_ok(net: &Net) -> bool
    ensures { result ≡ fields_ok net.now }
{
    if !sizes_ok(net.size, net.channels) {
        return false;
    }
    let size = net.size as usize;
    for (i, b) in net.blocks.iter().enumerate() {
        if !entry_ok(b, i < size, net.channels) {
            return false;
        }
    }
    true
}

// How many of the first size blocks are of this kind.
fn count_kind(kind: Kind, size: usize, blocks: &[Block; 64]) -> usize
    requires { size ≤ 64 }
    ensures { result ≡ count_below (λ i. eqb (get_or blocks.now i no_block).kind (kind_number kind)) size }
{
    let number = kind as u8;
    blocks[..size].iter().filter(|b| b.kind == number).count()
}

// How many blocks of the net are of this kind.
#[tactic(auto, unfolding(crate::specs::Net::kind_count))]
pub fn kind_count(kind: Kind, net: &Net) -> usize
    requires { net.now.size ≤ 64 }
    ensures { result ≡ kind_count net.now (kind_number kind) }
{
    count_kind(kind, net.size as usize, &net.blocks)
}

// The most sources that a net has, and the most sinks.
const MOST_SOURCES: usize = 32;

const MOST_SINKS: usize = 32;

// There are at most 32 sources and 32 sinks.
pub fn few_ends(net: &Net) -> bool
    requires { net.now.size ≤ 64 }
    ensures { result ≡ few_ends net.now }
{
    kind_count(Kind::Source, net) <= MOST_SOURCES && kind_count(Kind::Sink, net) <= MOST_SINKS
}
