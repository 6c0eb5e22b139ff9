// A net with buffers placed on its channels, one after another, by the codes of its channels.
#![tactic(auto)]

ghost use Rattle.std.specs.Prelude.{◌≡◌, cond, ◌&&◌, ◌+◌, ◌≤◌, ◌<◌, eqb, length};
ghost use Rattle.blocks.specs.Numbers.{kind_number};
ghost use Rattle.nets.specs.Verdict.{Joined};
ghost use Rattle.placed.specs.Placed.{buffer_from, input_moved, split, with_code, placed, buffers_of, added};
ghost use Rattle.placed.specs.Claims.{Fitting};

use blocks::Kind;
use nets::{Block, Net};

// A port on channel c is moved to d where it is an input.
fn port_moved(input: bool, p: u8, c: u8, d: u8) -> u8
    ensures { result ≡ cond (input && eqb p c) d p }
{
    if input && p == c { d } else { p }
}

// The block with its input from channel c, if it has one, from channel d instead. Most blocks do not name the channel at all, and are not looked at further.
fn input_moved(b: Block, c: u8, d: u8) -> Block
    ensures { result ≡ input_moved c d b }
{
    let mut ports = b.ports;
    if !ports.contains(&c) {
        return b;
    }
    let n = nets::counts(&b).inputs as usize;
    for (j, port) in ports.iter_mut().enumerate() {
        *port = port_moved(j < n, *port, c, d);
    }
    Block { ports, ..b }
}

// A buffer of a kind that takes from channel c and puts on channel d.
fn buffer(kind: Kind, c: u8, d: u8) -> Block
    ensures { result ≡ buffer_from (kind_number kind) c d }
{
    Block {
        kind: kind as u8,
        m: 0,
        value: 0,
        ports: [c, d, 0, 0, 0, 0, 0, 0, 0, 0],
    }
}

// The net with one buffer on channel c. Entries beyond its blocks are zero, so they are not looked at.
fn with_buffer(net: Net, c: u8, kind: Kind) -> Net
    requires joined { Joined net }
    requires size_bound { (net.size < 64) × (net.channels < 128) }
    ensures { result ≡ split net c (kind_number kind) }
{
    let d = net.channels;
    let n = net.size as usize;
    let mut blocks = [Block::ZERO; 64];
    for i in 0..n {
        blocks[i] = input_moved(net.blocks[i], c, d);
    }
    blocks[n] = buffer(kind, c, d);
    Net {
        size: net.size + 1,
        channels: d + 1,
        blocks,
    }
}

// The net with the buffers of one code on channel c.
fn with_code(net: Net, c: u8, code: u8) -> Net
    requires joined { Joined net }
    requires c_lt_channels { (c < net.channels) × (net.size + buffers_of code ≤ 64) × (net.channels + buffers_of code ≤ 128) }
    ensures { result ≡ with_code net c code }
{
    // stays: the codes are the numbers that a caller gives for its channels.
    match code {
        0 => net,
        1 => with_buffer(net, c, Kind::Buffer),
        2 => with_buffer(net, c, Kind::Control),
        _ => {
            let first = with_buffer(net, c, Kind::Buffer);
            with_buffer(first, net.channels, Kind::Control)
        }
    }
}

// How many buffers a code adds.
fn buffers_of(code: u8) -> usize
    ensures { result ≡ buffers_of code }
{
    // stays: the codes are the numbers that a caller gives for its channels.
    match code {
        0 => 0,
        1 | 2 => 1,
        _ => 2,
    }
}

// How many buffers the codes add.
pub fn count_added(codes: &[u8]) -> usize
    requires { length codes.now ≤ 255 }
    ensures { result ≡ added codes.now }
{
    codes.iter().map(|code| buffers_of(*code)).sum()
}

// The net with the buffers of all codes.
pub fn place_all(net: Net, codes: &[u8]) -> Net
    requires joined { Joined net }
    requires fitting { Fitting net codes.now }
    ensures { result ≡ placed net codes.now }
{
    let mut out = net;
    for (c, code) in codes.iter().enumerate() {
        out = with_code(out, c as u8, *code);
    }
    out
}
