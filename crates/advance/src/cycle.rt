// One cycle of a run on lent arrays.
ghost use Rattle.std.specs.Prelude.{◌≡◌, ◌≤◌, length, MatchOption};
ghost use Rattle.blocks.specs.States.{reg_in};
ghost use Rattle.ports.specs.Places.{sig_at, ready_at};
ghost use Rattle.passes.specs.Rows.{in_kind, Shaped};
ghost use Rattle.passes.specs.Passed.{next_no};
ghost use Rattle.rows.specs.Ends.{read, stream_at, mask_at, Fitting};
ghost use Rattle.rows.specs.Flat.{Ordered};
ghost use Rattle.signals.specs.Wires.{Worked};
ghost use Rattle.trace.specs.Records.{records_of};
ghost use Rattle.advance.specs.Cycled.{NoRoom, Went};

use blocks::{Sig, State};
use rows::{Laid, Streams};
use trace::records::RECORD_BYTES;

// Works out a cycle, writes its records at the beginning of out and the next state in place, and gives the number of records; or, where out is too short for them,
// changes neither the state nor a byte and gives none.
// stays: offer and ready part where they are used, in `wires`; a struct would only be taken apart there.
pub fn cycle(
    laid: &Laid,
    streams: Streams,
    offer: u32,
    mask: u32,
    state: &mut State,
    signals: &mut [Sig; 128],
    ready: &mut [bool; 128],
    list: &mut [u64; 128],
    out: &mut [u8],
) -> Option<usize>
    requires ordered { Ordered laid.now }
    requires shaped { Shaped laid.now.net.now state.old }
    requires fitting { Fitting (length (in_kind laid.now.sorted 0)) (length (read streams.words)) (read streams.ends) }
    requires channels_bound { laid.now.net.now.channels ≤ 128 }
    requires count_bound { state.old.count ≤ 1048576 }
    ensures worked { let net = laid.now.net.now in Worked net (stream_at net (read streams.entry.words) (read streams.entry.ends)) (mask_at net offer mask) (reg_in state.old) (sig_at signals.new) (ready_at ready.new) }
    ensures fact { let net = laid.now.net.now in let list = records_of state.old.count signals.new ready.new net.channels in let next = next_no net (stream_at net (read streams.entry.words) (read streams.entry.ends)) (mask_at net offer mask) (reg_in state.old) (sig_at signals.new) (ready_at ready.new) in MatchOption result (NoRoom list state.old out.old state.new out.new) (λ r. Went net.size next list state.old out.old r state.new out.new) }
{
    signals::wires::wires(laid, streams, offer, mask, state, signals, ready);
    let channels = laid.net.channels as usize;
    let k = trace::records::records(channels, state.count, signals, ready, list);
    if out.len() < RECORD_BYTES * k {
        return None;
    }
    trace::records::write_records(k, list, out);
    passes::registers::registers(&laid.sorted, laid.net, signals, ready, state);
    state.count += 1;
    Some(k)
}
