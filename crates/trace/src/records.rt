// The records of a cycle: listed as numbers, then written as bytes into a part of the trace.
ghost use Rattle.std.specs.Prelude.{◌≡◌, ◌++◌, ◌*◌, ◌≤◌, length, take, drop};
ghost use Rattle.trace.specs.Records.{records_of, bytes_of, trace_of, Listed};

use blocks::Sig;

// The places of a record's fields: the cycle's count from bit 39 on, the channel from bit 32 on, the word below.
pub const CYCLE: u64 = 549755813888;

pub const CHANNEL: u64 = 4294967296;

// A record's bytes.
pub const RECORD_BYTES: usize = 8;

// Puts the records of the channels below n that deliver, ascending, at the front of list, and gives their number. Each record is stored where the next one
// goes, and the place moves on only where the channel delivers: no branch.
pub fn records(
    n: usize,
    count: u32,
    signals: &[Sig; 128],
    ready: &[bool; 128],
    list: &mut [u64; 128],
) -> usize
    requires n_bound { n ≤ 128 }
    requires count_bound { count ≤ 1048576 }
    ensures { Listed (records_of count signals.now ready.now n) n result list.new }
{
    let mut k: usize = 0;
    let mut head = count as u64 * CYCLE;
    for c in 0..n {
        list[k] = head + signals[c].word as u64;
        k += (signals[c].valid & ready[c]) as usize;
        head += CHANNEL;
    }
    k
}

// Writes a record's 8 bytes at the beginning of out, most significant first.
// stays: the library makes the bytes; here stand their place and the clause.
fn write_record(r: u64, out: &mut [u8])
    requires { 8 ≤ length out.old }
    ensures { out.new ≡ bytes_of r ++ drop 8 out.old }
{
    out[..RECORD_BYTES].copy_from_slice(&r.to_be_bytes());
}

// Writes the first k records at the beginning of out, which is the part of the trace after the last cycle's records.
pub fn write_records(k: usize, list: &[u64; 128], out: &mut [u8])
    requires k_bound { k ≤ 128 }
    requires k_in_bounds { 8 * k ≤ length out.old }
    ensures { out.new ≡ trace_of (take k list.now) ++ drop (8 * k) out.old }
{
    for j in 0..k {
        write_record(list[j], &mut out[RECORD_BYTES * j..]);
    }
}
