// Orders of the blocks, layer by layer: a sweep places the blocks whose inputs are fed by blocks that were placed before the sweep began.
ghost use Rattle.std.specs.Prelude.{◌≡◌, not, ◌&&◌, ◌||◌, ◌<◌, eqb, leb};
ghost use Rattle.nets.specs.Loops.{is_buffer};
ghost use Rattle.nets.specs.Promises.{cuts};
ghost use Rattle.nets.specs.Ends.{CountsOf};
ghost use Rattle.nets.specs.Order.{Feeds, Judged, Placed, Stepped, Swept, Ordered};

use crate::Net;
use blocks::{Kind, Ports};

// The order so far: how many blocks have a place, which they are, and of each block one more than its place; 0 is none.
#[derive(Clone, Copy)]
struct Order {
    count: usize,
    blocks: [u8; 64],
    places: [u8; 64],
}

// A control buffer, or a data buffer.
fn is_buffer(control: bool, kind: u8) -> bool
    ensures { result ≡ is_buffer control kind }
{
    if control {
        kind == Kind::Control as u8
    } else {
        kind == Kind::Buffer as u8 || kind == Kind::FullBuffer as u8
    }
}

// What passes along a channel from kind a to kind b ends at a buffer: ready at a control buffer a, valid at a data buffer b.
fn cut(control: bool, a: u8, b: u8) -> bool
    ensures { result ≡ cuts control a b }
{
    if control {
        is_buffer(true, a)
    } else {
        is_buffer(false, b)
    }
}

// An input is fed where it is cut, or where its producer has a place that is at most the limit.
fn fed(place: u8, limit: u8, free: bool) -> bool
    ensures { result ≡ (free || (leb place limit && not (eqb place 0))) }
{
    free || place <= limit && place != 0
}

// Every input of block b is fed within the limit.
fn may_place(
    control: bool,
    limit: u8,
    b: usize,
    net: &Net,
    counts: &[Ports; 64],
    producer: &[u8; 128],
    places: &[u8; 64],
) -> bool
    requires feeds { Feeds net.now producer.now }
    requires counted { CountsOf net.now counts.now }
    requires b_bound { b < net.now.size }
    ensures { Judged control net.now producer.now limit b places.now result }
{
    let block = &net.blocks[b];
    for j in 0..counts[b].inputs as usize {
        let a = producer[block.ports[j] as usize] as usize;
        if !fed(
            places[a],
            limit,
            cut(control, net.blocks[a].kind, block.kind),
        ) {
            return false;
        }
    }
    true
}

// Places block b next if it has no place yet and every input is fed within the limit.
fn place_block(
    control: bool,
    limit: u8,
    b: usize,
    net: &Net,
    counts: &[Ports; 64],
    producer: &[u8; 128],
    order: &mut Order,
)
    requires feeds { Feeds net.now producer.now }
    requires counted { CountsOf net.now counts.now }
    requires b_bound { b < net.now.size }
    requires placed { Placed control net.now producer.now order.old }
    ensures { Stepped control net.now producer.now limit b order.old order.new }
{
    if order.places[b] == 0 && may_place(control, limit, b, net, counts, producer, &order.places) {
        order.blocks[order.count] = b as u8;
        order.count += 1;
        order.places[b] = order.count as u8;
    }
}

// One sweep over the blocks, which places one layer: a step that comes to a block need not wait for its producers.
fn sweep(control: bool, net: &Net, counts: &[Ports; 64], producer: &[u8; 128], order: &mut Order)
    requires feeds { Feeds net.now producer.now }
    requires counted { CountsOf net.now counts.now }
    requires placed { Placed control net.now producer.now order.old }
    ensures { Swept control net.now producer.now order.old.count order.new }
{
    let limit = order.count as u8;
    for b in 0..net.size as usize {
        place_block(control, limit, b, net, counts, producer, order);
    }
}

// The blocks in an order in which each comes after the producers of its inputs, except where a buffer cuts the channel. A sweep that places nothing
// while blocks are left shows a loop without such a buffer.
pub fn order_of(
    control: bool,
    net: &Net,
    counts: &[Ports; 64],
    producer: &[u8; 128],
) -> Option<[u8; 64]>
    requires feeds { Feeds net.now producer.now }
    requires counted { CountsOf net.now counts.now }
    ensures { Ordered control net.now result }
{
    let mut order = Order {
        count: 0,
        blocks: [0; 64],
        places: [0; 64],
    };
    // stays: no index is counted, a sweep places as many as it can.
    while order.count < net.size as usize {
        let before = order.count;
        sweep(control, net, counts, producer, &mut order);
        if order.count == before {
            return None;
        }
    }
    Some(order.blocks)
}
