// The stored form of a net: loading and writing it.
#![tactic(auto)]

ghost use Rattle.std.specs.Prelude.{◌≡◌};
ghost use Rattle.forms.specs.Calls.{Loaded, LoadedFrom, Wrote};
ghost use Rattle.forms.specs.Over.{answered};
ghost use Rattle.stored.specs.Form.{loaded};

mod put;

use blocks::Refusal;
use nets::Net;
use stored::{Loading, read};

// The net that a form holds, or its refusal: 1 to 7 by its bits, then 8 to 11 by the check of the net.
pub fn load(form: &[u8]) -> Loading
    ensures { Loaded form.now result }
{
    let found = read::read_net(form);
    match &found {
        Ok(net) => judged(net),
        Err(refusal) => read::refused_load(refusal.number()),
    }
}

// The answer for a net that was read: refusal 0 with it, or the number of its fault with a zero net.
fn judged(net: &Net) -> Loading
    ensures { LoadedFrom (loaded net.now) result }
{
    match nets::check(net) {
        Ok(_) => Loading {
            refusal: 0,
            net: *net,
        },
        Err(fault) => read::refused_load(fault.number()),
    }
}

// The answer of refusal 0 with a net, or of a refusal with a zero net.
#[tactic(auto, unfolding(stored::specs::Reads::net_answer))]
pub fn loading(found: Result<Net, Refusal>) -> Loading
    ensures { result ≡ answered found }
{
    match found {
        Ok(net) => Loading { refusal: 0, net },
        Err(refusal) => read::refused_load(refusal.number()),
    }
}

// Writes a net's form at the buffer's beginning and changes no later byte: the form's byte count. Refused, 12 for a net that is not accepted or 17 for a shorter buffer, it
// changes none.
pub fn write(net: Net, buf: &mut [u8]) -> Result<usize, Refusal>
    ensures { Wrote net buf.old result buf.new }
{
    match nets::check(&net) {
        Ok(_) => put::put_net(net, buf),
        Err(_) => Err(Refusal::Net),
    }
}
