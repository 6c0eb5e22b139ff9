// Four bays on one net and one set of streams: the calls `fresh_bays`, `step_bay` and `next`.
#![tactic(auto)]

ghost use Rattle.std.specs.Prelude.{◌≡◌, ◌<◌};
ghost use Rattle.blocks.specs.Folds.{bit};
ghost use Rattle.bays.specs.Calls.{refusal_bay, refused_bay, served_bay, fresh_bays, step_bay, first_wanting, no_bay, turned_to, next_bay};

use blocks::Refusal;
use cycles::{State, Stepped};
use nets::Net;

// How many bays there are.
const BAYS: u8 = 4;

// What `next` names where it serves no bay.
// stays: the answer of `next` names no bay by this number (`no_bay`, `next_bay`).
const NO_BAY: u8 = 4;

// A mask of bays is looked at below this number: its four lowest bits.
const BAY_MASKS: u32 = 16;

// The states of the four bays, each with its own count of cycles. The turn is the number of the bay that `next` asks first: not the bay last served, but the one after it.
#[derive(Clone, Copy)]
pub struct Bays {
    pub states: [State; 4],
    pub turn: u8,
}

// What `fresh_bays` returns: its refusal, or 0, and the record.
#[derive(Clone, Copy)]
pub struct FreshBays {
    // stays: what stands beside a refusal is promised too (`fresh_bays`: a zero record).
    pub refusal: u8,
    pub bays: Bays,
}

// What a bay's step returns: its refusal, or 0; the record; a delivery mark and the word for each channel, zero where nothing moved.
#[derive(Clone, Copy)]
pub struct BayStepped {
    // stays: what stands beside a refusal is promised too (`step_bay`: the record handed in, zeros).
    pub refusal: u8,
    pub bays: Bays,
    pub delivered: [u8; 128],
    pub words: [u32; 128],
}

// What `next` returns: the bay that it served, or 4 for none, and that bay's step.
#[derive(Clone, Copy)]
pub struct Turned {
    pub bay: u8,
    pub step: BayStepped,
}

// The fresh record of a net: four fresh states, the turn at bay 0. Refused (12): a zero record.
pub fn fresh_bays(net: Net) -> FreshBays
    ensures { result ≡ fresh_bays net }
{
    let fresh = sim::step::fresh(net);
    let bays = Bays {
        states: [fresh.state; 4],
        turn: 0,
    };
    FreshBays {
        refusal: fresh.refusal,
        bays,
    }
}

// The refusal of one of the four bays, by the record's turn and by the refusal of a step of its own state: the net's 12, then the turn's 13, then all others of that step.
fn refusal_bay(turn: u8, own: u8) -> u8
    ensures { result ≡ refusal_bay turn own }
{
    if own == Refusal::Net as u8 {
        return own;
    }
    if BAYS <= turn {
        return Refusal::State as u8;
    }
    own
}

// A refused step of a bay: the record handed in, nothing delivered.
fn refused_bay(refusal: u8, bays: Bays) -> BayStepped
    ensures { result ≡ refused_bay refusal bays }
{
    BayStepped {
        refusal,
        bays,
        delivered: [0; 128],
        words: [0; 128],
    }
}

// The cycle of bay k: its state moves, with its count. The turn stays.
fn served_bay(mut bays: Bays, k: usize, step: Stepped) -> BayStepped
    requires { k < 4 }
    ensures { result ≡ served_bay bays k step }
{
    let after = step.state;
    bays.states[k] = after;
    let delivered = step.delivered;
    let words = step.words;
    BayStepped {
        refusal: 0,
        bays,
        delivered,
        words,
    }
}

// One cycle of a bay: the record after it, and what each channel delivered. Refused in this order: 21 (the bay's number), 12 (the net), 13 (the turn, or the bay's own state), 14
// (the ends), 16 (the bay's own count); then the record handed in comes back, and nothing is delivered. The turn stays, served or refused. The states of the other bays are not
// looked at.
// stays: the parameters of a public call stay as they were.
pub fn step_bay(
    net: Net,
    bays: Bays,
    bay: u8,
    stream: &[u32],
    ends: &[u32],
    offer: u32,
    ready: u32,
) -> BayStepped
    ensures { result ≡ step_bay net bays bay stream.now ends.now offer ready }
{
    if BAYS <= bay {
        return refused_bay(Refusal::Bay as u8, bays);
    }
    let k = bay as usize;
    let state = bays.states[k];
    let step = sim::step::step(net, state, stream, ends, offer, ready);
    let refusal = refusal_bay(bays.turn, step.refusal);
    if refusal != 0 {
        return refused_bay(refusal, bays);
    }
    served_bay(bays, k, step)
}

// Bay k wants a cycle.
fn wants(k: u32, want: u32) -> bool
    requires { k < 4 }
    ensures { result ≡ bit k want }
{
    (want >> k) % 2 == 1
}

// The first bay, from the turn on and going round, that wants a cycle; 4 where none of the four does.
fn first_wanting(turn: u8, want: u32) -> u8
    ensures { result ≡ first_wanting turn want }
{
    for i in 0..4 {
        let k = (turn as u32 + i) % 4;
        if wants(k, want) {
            return k as u8;
        }
    }
    NO_BAY
}

// No bay is served: the record handed in, nothing delivered.
fn no_bay(refusal: u8, bays: Bays) -> Turned
    ensures { result ≡ no_bay refusal bays }
{
    Turned {
        bay: NO_BAY,
        step: refused_bay(refusal, bays),
    }
}

// A bay was served, refused or not: the bay after it is asked first from now on.
fn turned_to(bay: u8, mut step: BayStepped) -> Turned
    requires { bay < 4 }
    ensures { result ≡ turned_to bay step }
{
    step.bays.turn = (bay + 1) % BAYS;
    Turned { bay, step }
}

// One cycle of the first bay that wants one, from the turn on and going round: `step_bay` with that bay's masks, of which the offer is at twice its number and the ready mask after it.
// Bit k of `want` says that bay k wants a cycle; bits beyond the four bays are ignored. In this order: where no bay wants one, nothing is refused and nothing changes; a turn beyond the
// four bays is refused (13) and nothing changes; else the bay is named, its step reported, refused or not, and the bay after it has the turn.
// stays: the parameters of a public call stay as they were.
pub fn next(
    net: Net,
    bays: Bays,
    stream: &[u32],
    ends: &[u32],
    masks: &[u32; 8],
    want: u32,
) -> Turned
    ensures { result ≡ next_bay net bays stream.now ends.now masks.now want }
{
    if want % BAY_MASKS == 0 {
        // stays: 0 is no refusal.
        return no_bay(0, bays);
    }
    if BAYS <= bays.turn {
        return no_bay(Refusal::State as u8, bays);
    }
    let bay = first_wanting(bays.turn, want);
    let at = bay as usize * 2;
    let step = step_bay(net, bays, bay, stream, ends, masks[at], masks[at + 1]);
    turned_to(bay, step)
}
