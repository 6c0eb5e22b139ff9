// The ends of a net in a cycle: sources offer, sinks are ready, each by its number.
ghost use Rattle.std.specs.Prelude.{◌≡◌, true, Bool, List, ℕ, ◌+◌, ◌≤◌, ◌<◌, ◌^◌, length, get_or};
ghost use Rattle.std.proofs.Math.Seq.{slice};
ghost use Rattle.blocks.specs.Equations.{source_out};
ghost use Rattle.blocks.specs.States.{reg_in};
ghost use Rattle.blocks.specs.declared.Sig.{Sig};
ghost use Rattle.blocks.specs.declared.Reg.{Reg};
ghost use Rattle.ports.specs.Places.{sig_at, ready_at, port_at, Put};
ghost use Rattle.passes.specs.Rows.{is_kind_no, in_kind};
ghost use Rattle.passes.specs.Pass.{Holds};
ghost use Rattle.passes.specs.Passed.{ahead, back};
ghost use Rattle.rows.specs.Ends.{read, stream_at, mask_at, Fitting};

use blocks::{Kind, Reg, Sig, State};
use ports::Wired;
use rows::{Laid, Streams};
use trace::numbers::Numbers;

// The word at position p of a stream that begins at `start` and has len words; 0 past its end.
fn word_at(p: u32, start: u32, len: u32, words: Numbers) -> u32
    requires { start + len ≤ length (read words) }
    ensures inside { p < len → result ≡ get_or (read words.entry) (start + p) 0 }
    ensures past { len ≤ p → result ≡ 0 }
{
    if p < len {
        words.at(start as usize + p as usize)
    } else {
        0
    }
}

// Offers the word of one source, whose stream runs from `start` to `end`.
fn offer_one(
    reg: Reg,
    start: u32,
    end: u32,
    offer: bool,
    words: Numbers,
    at: Wired,
    signals: &mut [Sig; 128],
)
    requires { (start ≤ end) × (end ≤ length (read words)) }
    ensures { Put (λ j. port_at at.entry.block.now (0 + j)) (λ j. source_out (slice start end (read words.entry)) reg offer) 1 (sig_at signals.old) (sig_at signals.new) }
{
    let len = end - start;
    let v = blocks::cycle::source_offers(reg, len, offer);
    let w = word_at(reg.word, start, len, words);
    at.put(0, blocks::cycle::show(v, w), signals);
}

// Every source offers its word. The mask is halved along the sources.
pub fn offer_sources(
    laid: &Laid,
    streams: Streams,
    offer: u32,
    state: &State,
    signals: &mut [Sig; 128],
)
    requires { Fitting (length (in_kind laid.now.sorted 0)) (length (read streams.words)) (read streams.ends) }
    ensures offered { let net = laid.now.net.now in (ready b : ℕ) → b < net.size → is_kind_no net 0 b ≡ true → Holds (ahead net (stream_at net (read streams.entry.words) (read streams.entry.ends)) (mask_at net offer ready) (reg_in state.now) b) (sig_at signals.new) }
    ensures low_ends { (k : ℕ) → k < length (in_kind laid.now.sorted 0) → get_or (read streams.entry.ends) k 0 < 2 ^ 32 }
{
    let mut rest = offer;
    let mut start: u32 = 0;
    let list = laid.sorted.of_kind(Kind::Source);
    for (k, b) in list.iter().enumerate() {
        let b = *b as usize;
        let end = streams.ends.at(k);
        let block = &laid.net.blocks[b];
        offer_one(
            state.reg(b),
            start,
            end,
            rest % 2 == 1,
            streams.words,
            Wired { block },
            signals,
        );
        start = end;
        rest /= 2;
    }
}

// Every sink is ready as its bit says. The mask is halved along the sinks.
pub fn ready_sinks(laid: &Laid, mask: u32, ready: &mut [bool; 128])
    ensures { let net = laid.now.net.now in (xs : ℕ → List ℕ) (offer : ℕ) (r : ℕ → Reg) (X : ℕ → Sig) (b : ℕ) → b < net.size → is_kind_no net 1 b ≡ true → Holds (back net xs (mask_at net offer mask) r X b) (ready_at ready.new) }
{
    let mut rest = mask;
    let list = laid.sorted.of_kind(Kind::Sink);
    for b in list {
        let block = &laid.net.blocks[*b as usize];
        Wired { block }.put_ready(0, rest % 2 == 1, ready);
        rest /= 2;
    }
}
