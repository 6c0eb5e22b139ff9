// Buffers placed on the channels of a net: one placement, and the list of all that load.
#![tactic(auto)]

pub mod numbers;

ghost use Rattle.std.specs.Prelude.{◌≡◌, ◌≤◌, length, IfOk};
ghost use Rattle.nets.specs.Verdict.{Joined};
ghost use Rattle.nets.proofs.Decided.{verdict_of};
ghost use Rattle.forms.specs.Over.{answered};
ghost use Rattle.stored.specs.Form.{parse};
ghost use Rattle.placements.specs.Calls.{form_number, value_number, codes_ok, room_for, place_of, place_form_of};
ghost use Rattle.placements.specs.Listing.{loads, listing, listed, list_of, list_form_of, unlisted};
ghost use Rattle.placements.specs.Bases.{Earns, Based, BasedOn, place_on, list_on};
ghost use Rattle.blocks.specs.Refusals.{refusal_number};

use blocks::Refusal;
use nets::{Fault, Net};
use stored::{Loading, read};

// The numbers of the placements that load, ascending; with 0 for the rest, and the number of channels, which says how many digits each has. All 0 beside a refusal.
#[derive(Clone, Copy)]
pub struct Listing {
    // stays: what stands beside a refusal is promised too (`list_of`: zeros).
    pub refusal: u8,
    pub channels: u8,
    // stays: the answer is promised with its count (`list_of`).
    pub count: usize,
    pub numbers: [u16; 4096],
}

// The check of the net of a form as a base net: for all but its loops.
fn checked(net: Net) -> Result<(), Refusal>
    ensures { Earns (form_number (verdict_of net)) result }
{
    let Err(fault) = nets::check(&net) else {
        return Ok(());
    };
    match fault {
        Fault::DataLoop | Fault::ControlLoop => Ok(()),
        _ => Err(Refusal::from(fault)),
    }
}

// A net value as a base net.
fn value_base(net: Net) -> Result<Net, Refusal>
    ensures { Based (value_number (verdict_of net)) net result }
{
    match checked(net) {
        Ok(()) => Ok(net),
        Err(_) => Err(Refusal::Net),
    }
}

// The net of a form as a base net.
fn form_base(form: &[u8]) -> Result<Net, Refusal>
    ensures { BasedOn (parse form.now) result }
{
    let net = read::read_net(form)?;
    checked(net)?;
    Ok(net)
}

// There is one code for each channel, and none is above 3.
fn codes_ok(channels: u8, codes: &[u8]) -> bool
    ensures { result ≡ codes_ok channels codes.now }
{
    codes.len() == channels as usize && codes.iter().all(|code| *code <= 3)
}

// There is room for the buffers of the codes: at most 64 blocks and 128 channels come of it.
fn has_room(net: Net, codes: &[u8]) -> bool
    requires { length codes.now ≤ 255 }
    ensures { result ≡ room_for net codes.now }
{
    let n = placed::count_added(codes);
    net.size as usize + n <= 64 && net.channels as usize + n <= 128
}

// The placement on a base net, if there is one.
fn place_on(base: Result<Net, Refusal>, codes: &[u8]) -> Result<Net, Refusal>
    requires { IfOk base (λ net. Joined net) }
    ensures { answered result ≡ place_on base codes.now }
{
    let net = base?;
    if !codes_ok(net.channels, codes) {
        return Err(Refusal::Codes);
    }
    if !has_room(net, codes) {
        return Err(Refusal::Room);
    }
    let made = placed::place_all(net, codes);
    nets::check(&made)?;
    Ok(made)
}

// The net with the buffers that the codes ask for, one code for each channel: 0 none, 1 data, 2 control, 3 data then control. Refused 12, 18, 19, 10, 11, with a zero net.
pub fn place(net: Net, codes: &[u8]) -> Loading
    ensures { result ≡ place_of net codes.now }
{
    forms::loading(place_on(value_base(net), codes))
}

// The same of a form's net, which earns its own number, 1 to 9, in 12's place.
pub fn place_form(form: &[u8], codes: &[u8]) -> Loading
    ensures { result ≡ place_form_of form.now codes.now }
{
    forms::loading(place_on(form_base(form), codes))
}

// Whether the placement with number k loads.
fn loads_at(net: Net, k: usize) -> bool
    requires joined { Joined net }
    requires channels_bound { net.channels ≤ 6 }
    ensures { result ≡ loads net k }
{
    let n = net.channels as usize;
    let codes = numbers::codes_of(n, k);
    place_on(Ok(net), &codes[..n]).is_ok()
}

// A refused list.
fn refused_list(refusal: Refusal) -> Listing
    ensures { result ≡ unlisted (refusal_number refusal) }
{
    Listing {
        refusal: refusal.number(),
        channels: 0,
        count: 0,
        numbers: [0u16; 4096],
    }
}

// The list of a net that passes as a base net. Its numbers and their count stand in fixed memory, as `list` answers them.
fn listed(net: Net) -> Listing
    requires joined { Joined net }
    requires channels_bound { net.channels ≤ 6 }
    ensures { result ≡ listed net.channels (listing net) }
{
    let mut numbers = [0u16; 4096];
    let mut count: usize = 0;
    for k in 0..numbers::power(net.channels as usize) {
        if loads_at(net, k) {
            numbers[count] = k as u16;
            count += 1;
        }
    }
    Listing {
        refusal: 0,
        channels: net.channels,
        count,
        numbers,
    }
}

// The most channels of a net whose placements are listed.
const MOST_LISTED: u8 = 6;

// The list over a base net, if there is one.
fn list_on(base: Result<Net, Refusal>) -> Listing
    requires { IfOk base (λ net. Joined net) }
    ensures { result ≡ list_on base }
{
    match base {
        Err(refusal) => refused_list(refusal),
        Ok(net) => {
            if net.channels <= MOST_LISTED {
                listed(net)
            } else {
                refused_list(Refusal::Listing)
            }
        }
    }
}

// Every placement of a net of at most 6 channels whose result loads. Refused 12, 20.
pub fn list(net: Net) -> Listing
    ensures { result ≡ list_of net }
{
    list_on(value_base(net))
}

// The same of a form's net. Refused 1 to 9, 20.
pub fn list_form(form: &[u8]) -> Listing
    ensures { result ≡ list_form_of form.now }
{
    list_on(form_base(form))
}
