// Writing a net's form over a buffer's bits.
ghost use Rattle.std.specs.Prelude.{◌≡◌, [], ◌++◌, ◌+◌, ◌*◌, ◌<◌, ◌≤◌, length, set, take};
ghost use Rattle.reader.specs.Bits.{odd, bits, bits_of};
ghost use Rattle.stored.specs.Form.{put_field, put_many, put_valued, put_block, encode, form_of};
ghost use Rattle.forms.specs.Over.{with_bit, over, block_bits, written_of, buffer_of};

use blocks::{Refusal, kinds};
use nets::{Block, Net};
use stored::read::port_count;

// The byte b with its bit k set to new.
fn with_bit(b: u8, k: usize, new: u32) -> u8
    requires { (k < 8) × (new < 2) }
    ensures { result ≡ with_bit b k (odd new) }
{
    let weight = 1u32 << (7 - k);
    (b as u32 + new * weight - reader::bit(b, k) * weight) as u8
}

// Sets bit at of the buffer.
fn put_bit(buf: &mut [u8], at: usize, new: u32)
    requires { (at < 8 * length buf.old) × (new < 2) }
    ensures { bits_of buf.new ≡ set (bits_of buf.old) at (odd new) }
{
    let i = at / 8;
    buf[i] = with_bit(buf[i], at % 8, new);
}

// Writes the width bits of value over the buffer's bits from bit at on.
fn put_field(buf: &mut [u8], at: usize, width: usize, value: u32)
    requires { (at + width ≤ 8 * length buf.old) × (at ≤ 65536) × (width ≤ 32) }
    ensures { bits_of buf.new ≡ over (bits_of buf.old) at (bits width value) }
{
    for k in 0..width {
        put_bit(buf, at + k, (value >> (width - 1 - k)) % 2);
    }
}

// Writes ports, 7 bits each, over the buffer's bits from bit start on.
fn put_ports(buf: &mut [u8], start: usize, ports: &[u8])
    requires { (start + 7 * length ports.now ≤ 8 * length buf.old) × (start ≤ 8192) × (length ports.now ≤ 10) }
    ensures { bits_of buf.new ≡ over (bits_of buf.old) start (put_many (put_field 7) ports.now []) }
{
    for (i, port) in ports.iter().enumerate() {
        put_field(buf, start + 7 * i, 7, *port as u32);
    }
}

// How many bits a block has.
fn block_bits(b: Block) -> usize
    ensures { result ≡ block_bits b }
{
    let value = if kinds::has_value(b.kind) { 32 } else { 0 };
    8 + value + 7 * port_count(b.kind, b.m)
}

// Writes what follows a block's m over the buffer's bits from bit at on: its value, where its kind has one, and its ports.
fn put_valued(buf: &mut [u8], at: usize, b: Block)
    requires { (at + length (put_valued b []) ≤ 8 * length buf.old) × (at ≤ 8100) }
    ensures { bits_of buf.new ≡ over (bits_of buf.old) at (put_valued b []) }
{
    let ports = &b.ports[..port_count(b.kind, b.m)];
    if kinds::has_value(b.kind) {
        put_field(buf, at, 32, b.value);
        put_ports(buf, at + 32, ports);
    } else {
        put_ports(buf, at, ports);
    }
}

// Writes a block over the buffer's bits from bit at on.
fn put_block(buf: &mut [u8], at: usize, b: Block)
    requires { (at + block_bits b ≤ 8 * length buf.old) × (at ≤ 8000) }
    ensures { bits_of buf.new ≡ over (bits_of buf.old) at (put_block b []) }
{
    put_field(buf, at, 4, b.kind as u32);
    put_field(buf, at + 4, 4, b.m as u32);
    put_valued(buf, at + 8, b);
}

// How many bits a net's form has before its padding.
fn form_bits(net: Net) -> usize
    requires { net.size ≤ 64 }
    ensures { result ≡ length (encode net) }
{
    let mut bits: usize = 32;
    for b in &net.blocks[..net.size as usize] {
        bits += block_bits(*b);
    }
    bits
}

// Writes a net's edition, reserved bits and counts at the buffer's beginning.
fn put_header(buf: &mut [u8], size: u8, channels: u8)
    requires { 32 ≤ 8 * length buf.old }
    ensures { bits_of buf.new ≡ over (bits_of buf.old) 0 (bits 4 1 ++ (bits 12 0 ++ (bits 8 size ++ bits 8 channels))) }
{
    put_field(buf, 0, 4, 1);
    put_field(buf, 4, 12, 0);
    put_field(buf, 16, 8, size as u32);
    put_field(buf, 24, 8, channels as u32);
}

// Writes a net's blocks over the buffer's bits from bit 32 on.
fn put_blocks(buf: &mut [u8], net: Net)
    requires { (net.size ≤ 64) × (length (encode net) ≤ 8 * length buf.old) }
    ensures { bits_of buf.new ≡ over (bits_of buf.old) 32 (put_many put_block (take net.size net.blocks) []) }
{
    let mut at: usize = 32;
    for b in &net.blocks[..net.size as usize] {
        put_block(buf, at, *b);
        at += block_bits(*b);
    }
}

// Writes a net's form at the buffer's beginning, where it fits.
pub(crate) fn put_net(net: Net, buf: &mut [u8]) -> Result<usize, Refusal>
    requires { net.size ≤ 64 }
    ensures answer { result ≡ written_of buf.old (form_of net) }
    ensures buffer { buf.new ≡ buffer_of buf.old (form_of net) }
{
    let bits = form_bits(net);
    let bytes = (bits + 7) / 8;
    if buf.len() < bytes {
        return Err(Refusal::Buffer);
    }
    put_header(buf, net.size, net.channels);
    put_blocks(buf, net);
    put_field(buf, bits, 8 * bytes - bits, 0);
    Ok(bytes)
}
