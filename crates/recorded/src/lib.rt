// A trace read back: record i of its bytes as one 64-bit number, and the fields of a record.
#![tactic(auto)]

ghost use Rattle.std.specs.Prelude.{◌≡◌, ◌+◌, ◌*◌, ◌≤◌, length, get_or};
ghost use Rattle.recorded.specs.Recorded.{records_read, cycle_of, channel_of, word_of};

use trace::numbers::number_at;
use trace::records::{CHANNEL, CYCLE};

// How many channels a record's 7 bits tell apart.
const CHANNELS: u64 = 128;

// Record i of the bytes.
pub fn record_at(bytes: &[u8], i: usize) -> u64
    requires { 8 * i + 8 ≤ length bytes.now }
    ensures { result ≡ get_or (records_read bytes.now) i 0 }
{
    let head = number_at(bytes, 2 * i);
    let word = number_at(bytes, 2 * i + 1);
    head as u64 * CHANNEL + word as u64
}

// The channel of record i of the bytes: of its upper number alone, as a search for a channel's records reads all of them.
pub fn channel_at(bytes: &[u8], i: usize) -> u8
    requires { 8 * i + 8 ≤ length bytes.now }
    ensures { result ≡ channel_of (get_or (records_read bytes.now) i 0) }
{
    (number_at(bytes, 2 * i) % CHANNELS as u32) as u8
}

// The word of record i of the bytes.
pub fn word_at(bytes: &[u8], i: usize) -> u32
    requires { 8 * i + 8 ≤ length bytes.now }
    ensures { result ≡ word_of (get_or (records_read bytes.now) i 0) }
{
    number_at(bytes, 2 * i + 1)
}

// The cycle of a record.
pub fn cycle_of(r: u64) -> u64
    ensures { result ≡ cycle_of r }
{
    r / CYCLE
}

// The channel of a record.
pub fn channel_of(r: u64) -> u8
    ensures { result ≡ channel_of r }
{
    (r / CHANNEL % CHANNELS) as u8
}

// The word of a record.
pub fn word_of(r: u64) -> u32
    ensures { result ≡ word_of r }
{
    (r % CHANNEL) as u32
}
