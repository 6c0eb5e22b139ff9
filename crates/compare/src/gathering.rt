// A channel's words out of a trace.
ghost use Rattle.std.specs.Prelude.{◌≡◌, ◌*◌, ◌≤◌, leb, length};
ghost use Rattle.compare.specs.Gather.{words_in, gathered_of, gathered_into, put_front, answer_of};

use crate::Gathered;
use blocks::Refusal;
use recorded::{channel_at, word_at};
use trace::records::RECORD_BYTES;

// How many of the n records are the channel's.
fn count_on(trace: &[u8], n: usize, channel: u8) -> usize
    requires { 8 * n ≡ length trace.now }
    ensures { result ≡ length (words_in trace.now channel) }
{
    let mut k: usize = 0;
    for i in 0..n {
        if channel_at(trace, i) == channel {
            k += 1;
        }
    }
    k
}

// Whether a list of so many entries has room for the channel's words of the n records. One that has room for all records need not count them.
fn has_room(trace: &[u8], n: usize, channel: u8, room: usize) -> bool
    requires { 8 * n ≡ length trace.now }
    ensures { result ≡ leb (length (words_in trace.now channel)) room }
{
    n <= room || count_on(trace, n, channel) <= room
}

// Puts the channel's words of the n records at the front of the list, which has room for them, and counts them.
fn fill(trace: &[u8], n: usize, channel: u8, list: &mut [u32]) -> usize
    requires n_value { 8 * n ≡ length trace.now }
    requires channel_in_bounds { length (words_in trace.now channel) ≤ length list.old }
    ensures count { result ≡ length (words_in trace.now channel) }
    ensures front { list.new ≡ put_front (words_in trace.now channel) list.old }
{
    let mut k: usize = 0;
    for i in 0..n {
        if channel_at(trace, i) == channel {
            list[k] = word_at(trace, i);
            k += 1;
        }
    }
    k
}

// Puts the channel's words at the beginning of the list and gives their number, where the trace is whole records and the list has room.
fn gathered(trace: &[u8], channel: u8, list: &mut [u32]) -> Result<usize, Refusal>
    ensures answer { answer_of result ≡ gathered_of trace.now channel (length list.old) }
    ensures filled { list.new ≡ gathered_into trace.now channel list.old }
{
    let size = trace.len();
    if size % RECORD_BYTES != 0 {
        return Err(Refusal::Trace);
    }
    let n = size / RECORD_BYTES;
    if !has_room(trace, n, channel, list.len()) {
        return Err(Refusal::List);
    }
    Ok(fill(trace, n, channel, list))
}

// Puts the channel's words of a trace, in order, at the beginning of the list and counts them; entries beyond are unchanged. A trace is any bytes, and a channel number
// above 127 has no words. Refused in this order: 22 (the trace is not whole records), 23 (the list is too short); the list is then unchanged and the count 0.
pub fn gather(trace: &[u8], channel: u8, list: &mut [u32]) -> Gathered
    ensures answer { result ≡ gathered_of trace.now channel (length list.old) }
    ensures filled { list.new ≡ gathered_into trace.now channel list.old }
{
    match gathered(trace, channel, list) {
        Ok(count) => Gathered { refusal: 0, count },
        Err(refusal) => Gathered {
            refusal: refusal.number(),
            count: 0,
        },
    }
}
