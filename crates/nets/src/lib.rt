// A net of blocks and channels: its value, its checks and its loop orders.
#![tactic(auto)]

mod fields;
mod placing;
mod wiring;

ghost use Rattle.std.specs.Prelude.{◌≡◌};
ghost use Rattle.nets.specs.Promises.{Planned, earned, refusal_of};
ghost use Rattle.nets.specs.Verdict.{number_of};

use blocks::Refusal;
pub use blocks::{Block, Net};
pub use fields::{counts, kind_count};

// What the check of a net finds wrong, in document 01's order of checking. Its numbers are those of the refusals.
#[derive(Clone, Copy, PartialEq, Eq)]
pub enum Fault {
    Field,
    Connection,
    Ends,
    DataLoop,
    ControlLoop,
}

// Of an accepted net: the block that each channel leaves and the one that it enters, and the two orders of its blocks.
#[derive(Clone, Copy)]
pub struct Plan {
    pub producer: [u8; 128],
    pub consumer: [u8; 128],
    pub data: [u8; 64],
    pub control: [u8; 64],
}

impl Fault {
    // Document 01's number of the refusal: that of the refusal that every call makes of a fault.
    pub fn number(self) -> u8
        ensures { result ≡ number_of (earned self) }
    {
        Refusal::from(self).number()
    }
}

impl From<Fault> for Refusal {
    ghost from_gives = { λ f r. r ≡ refusal_of f };

    fn from(fault: Fault) -> Refusal {
        match fault {
            Fault::Field => Refusal::Net,
            Fault::Connection => Refusal::Connection,
            Fault::Ends => Refusal::Ends,
            Fault::DataLoop => Refusal::DataLoop,
            Fault::ControlLoop => Refusal::ControlLoop,
        }
    }
}

// The check of a net value, and what stepping needs of an accepted one: its two orders are orders, and which of several they are is not promised.
pub fn plan_of(net: Net) -> Result<Plan, Fault>
    ensures { Planned net result }
{
    check(&net)
}

// The same of a net that is lent, of which nothing is copied.
pub fn check(net: &Net) -> Result<Plan, Fault>
    ensures { Planned net.now result }
{
    if !fields::fields_ok(net) {
        return Err(Fault::Field);
    }
    let counts = fields::counts_of(net);
    let producer = wiring::ends_of(true, net, &counts).ok_or(Fault::Connection)?;
    let consumer = wiring::ends_of(false, net, &counts).ok_or(Fault::Connection)?;
    if !fields::few_ends(net) {
        return Err(Fault::Ends);
    }
    let data = placing::order_of(false, net, &counts, &producer).ok_or(Fault::DataLoop)?;
    let control = placing::order_of(true, net, &counts, &producer).ok_or(Fault::ControlLoop)?;
    Ok(Plan {
        producer,
        consumer,
        data,
        control,
    })
}
