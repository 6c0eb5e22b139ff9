// Reading a form field by field, up to its first fault. Every field comes from the reader.
ghost use Rattle.std.specs.Prelude.{◌≡◌, ◌+◌, ◌*◌, ◌≤◌, ◌<◌, ◌^◌, length, drop, IfOk};
ghost use Rattle.reader.specs.Bits.{bits_of};
ghost use Rattle.blocks.specs.Ports.{m_ok, has_value};
ghost use Rattle.blocks.specs.Refusals.{refusal_number};
ghost use Rattle.stored.specs.Form.{port_count, take_field, take_tested, between, take_many, take_port, take_value, take_block, take_blocks, blank_end, denied, finish, parse};
ghost use Rattle.stored.specs.Reads.{Takes, TakesField, TakesBlock, padded_ports, Finds, net_answer};

use crate::{BlockRead, Loading};
use blocks::{Refusal, kinds};
use nets::{Block, Net};
use reader::Field;

// A field of width bits; refused where the bytes end within it.
fn read_field(form: &[u8], at: usize, width: usize) -> Result<u32, Refusal>
    requires { (at ≤ 65536) × (0 < width) × (width ≤ 32) }
    ensures taken { Takes form.now (take_field width (drop at (bits_of form.now))) (at + width) result }
    ensures small { IfOk result (λ v. v < 2 ^ width) }
{
    match reader::step_from(form, at, width) {
        Some(field) => Ok(field.value),
        None => Err(Refusal::Truncated),
    }
}

// A field of width bits that has to be low to high, else refused.
fn read_between(
    form: &[u8],
    at: usize,
    width: usize,
    low: u32,
    high: u32,
    refusal: Refusal,
) -> Result<u32, Refusal>
    requires { (at ≤ 65536) × (0 < width) × (width ≤ 32) }
    ensures taken { Takes form.now (take_tested width (between low high) (refusal_number refusal) (drop at (bits_of form.now))) (at + width) result }
    ensures in_range { IfOk result (λ v. (low ≤ v) × (v ≤ high)) }
{
    let v = read_field(form, at, width)?;
    if low <= v && v <= high {
        Ok(v)
    } else {
        Err(refusal)
    }
}

// A block's m: a field of 4 bits that its kind takes.
fn read_m(form: &[u8], at: usize, kind: u8) -> Result<u8, Refusal>
    requires { at ≤ 65536 }
    ensures { Takes form.now (take_tested 4 (m_ok kind) 5 (drop at (bits_of form.now))) (at + 4) result }
{
    let m = read_field(form, at, 4)? as u8;
    if kinds::takes(kind, m) {
        Ok(m)
    } else {
        Err(Refusal::M)
    }
}

// A block's value, where its kind has one, else 0 from no bits.
fn read_value(form: &[u8], at: usize, kind: u8) -> Result<Field, Refusal>
    requires { (at ≤ 8 * length form.now) × (at ≤ 8192) }
    ensures taken { TakesField form.now (take_value (has_value kind) (drop at (bits_of form.now))) result }
    ensures near { IfOk result (λ p. p.end ≤ at + 32) }
{
    if kinds::has_value(kind) {
        let value = read_field(form, at, 32)?;
        Ok(Field {
            value,
            end: at + 32,
        })
    } else {
        Ok(Field { value: 0, end: at })
    }
}

// A block's ports: count fields of 7 bits, each a channel below channels; the rest of the ten are 0.
fn read_ports(form: &[u8], start: usize, channels: u8, count: usize) -> Result<[u8; 10], Refusal>
    requires { (start ≤ 8 * length form.now) × (start ≤ 8192) × (1 ≤ channels) × (channels ≤ 128) × (count ≤ 10) }
    ensures { Takes form.now (padded_ports (take_many (take_port channels) count (drop start (bits_of form.now)))) (start + 7 * count) result }
{
    let last = channels as u32 - 1;
    let mut ports = [0u8; 10];
    for i in 0..count {
        let port = read_between(form, start + 7 * i, 7, 0, last, Refusal::PortChannel)?;
        ports[i] = port as u8;
    }
    Ok(ports)
}

// How many ports a block of this kind and m has.
#[tactic(auto, unfolding(crate::specs::Form::port_count))]
pub fn port_count(kind: u8, m: u8) -> usize
    ensures { result ≡ port_count kind m }
{
    match kinds::ports_of(kind, m) {
        Some(p) => p.inputs as usize + p.outputs as usize,
        None => 0,
    }
}

// A block, with the position after it.
fn read_block(form: &[u8], at: usize, channels: u8) -> Result<BlockRead, Refusal>
    requires { (at ≤ 8 * length form.now) × (at ≤ 8000) × (1 ≤ channels) × (channels ≤ 128) }
    ensures taken { TakesBlock form.now (take_block channels (drop at (bits_of form.now))) result }
    ensures near { IfOk result (λ r. r.end ≤ at + 110) }
{
    let kind = read_between(form, at, 4, 0, 10, Refusal::Kind)? as u8;
    let m = read_m(form, at + 4, kind)?;
    let value = read_value(form, at + 8, kind)?;
    let count = port_count(kind, m);
    let ports = read_ports(form, value.end, channels, count)?;
    Ok(BlockRead {
        block: Block {
            kind,
            m,
            value: value.value,
            ports,
        },
        end: value.end + 7 * count,
    })
}

// Whether what is left of the form from bit at on is less than a byte, and blank.
fn blank_from(form: &[u8], at: usize) -> bool
    requires { (at ≤ 8 * length form.now) × (at ≤ 8192) }
    ensures { result ≡ blank_end (drop at (bits_of form.now)) }
{
    let bytes = (at + 7) / 8;
    if form.len() != bytes {
        return false;
    }
    let width = 8 * bytes - at;
    if width == 0 {
        return true;
    }
    match reader::step_from(form, at, width) {
        Some(padding) => padding.value == 0,
        None => false,
    }
}

// The refusal's number and a zero net.
pub fn refused_load(refusal: u8) -> Loading
    ensures { result ≡ net_answer (denied refusal) }
{
    Loading {
        refusal,
        net: Net {
            size: 0,
            channels: 0,
            blocks: [Block::ZERO; 64],
        },
    }
}

// The blocks of a net whose counts have been read, and the end of the form.
fn read_blocks(form: &[u8], count: u8, channels: u8) -> Result<Net, Refusal>
    requires { (32 ≤ 8 * length form.now) × (2 ≤ count) × (count ≤ 64) × (1 ≤ channels) × (channels ≤ 128) }
    ensures { Finds (finish (take_blocks count channels (drop 32 (bits_of form.now)))) result }
{
    let mut blocks = [Block::ZERO; 64];
    let mut at: usize = 32;
    for i in 0..count as usize {
        let read = read_block(form, at, channels)?;
        blocks[i] = read.block;
        at = read.end;
    }
    if blank_from(form, at) {
        Ok(Net {
            size: count,
            channels,
            blocks,
        })
    } else {
        Err(Refusal::Rest)
    }
}

// The net that a form holds, or why it is refused, 1 to 7.
pub fn read_net(form: &[u8]) -> Result<Net, Refusal>
    ensures { Finds (parse form.now) result }
{
    read_between(form, 0, 4, 1, 1, Refusal::Edition)?;
    read_between(form, 4, 12, 0, 0, Refusal::Edition)?;
    let count = read_between(form, 16, 8, 2, 64, Refusal::Counts)? as u8;
    let channels = read_between(form, 24, 8, 1, 128, Refusal::Counts)? as u8;
    read_blocks(form, count, channels)
}
