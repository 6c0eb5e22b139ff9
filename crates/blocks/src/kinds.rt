// How many ports a block has, computed from its kind and m (document 01, "Blocks and ports", as request 4 changes it).
ghost use Rattle.std.specs.Prelude.{◌≡◌, ◌≤◌, true};
ghost use Rattle.blocks.specs.Ports.{m_ok, counts_of, ports_of, has_value};

use crate::{Kind, Ports};

// The ranges of m: the last operation, and how many ports a side may have.
const LAST_OPERATION: u8 = 3;

const LEAST_PORTS: u8 = 2;

const MOST_PORTS: u8 = 8;

// Whether the kind is in use and takes this m.
pub fn takes(kind: u8, m: u8) -> bool
    ensures { result ≡ m_ok kind m }
{
    if kind <= Kind::Sink as u8 {
        m == 0
    } else if kind <= Kind::Constant as u8 {
        m <= LAST_OPERATION
    } else if kind <= Kind::Merge as u8 {
        LEAST_PORTS <= m && m <= MOST_PORTS
    } else {
        kind <= Kind::Control as u8 && m == 0
    }
}

// The ports of a fork, a mux, a demux or a merge. A fork and a demux differ in the select alone; a test more in place of the sum would be compiled into a table.
fn routing_ports(kind: u8, m: u8) -> Ports
    requires { (4 ≤ kind) × (kind ≤ 7) × (m ≤ 8) }
    ensures { result ≡ counts_of kind m }
{
    let with_select = m + 1;
    if kind == Kind::Mux as u8 {
        Ports {
            inputs: with_select,
            outputs: 1,
        }
    } else if kind == Kind::Merge as u8 {
        Ports {
            inputs: m,
            outputs: 2,
        }
    } else {
        Ports {
            inputs: 1 + (kind == Kind::Demux as u8) as u8,
            outputs: m,
        }
    }
}

// The ports of a kind and an m that it takes. A source has no input, a sink one and an operator two, as their numbers say; a choice with an arm for each kind would be
// compiled into a table in read-only memory.
fn used_ports(kind: u8, m: u8) -> Ports
    requires { m_ok kind m ≡ true }
    ensures { result ≡ counts_of kind m }
{
    if kind <= Kind::Operator as u8 {
        Ports {
            inputs: kind,
            outputs: (kind != Kind::Sink as u8) as u8,
        }
    } else if Kind::Fork as u8 <= kind && kind <= Kind::Merge as u8 {
        routing_ports(kind, m)
    } else {
        Ports {
            inputs: 1,
            outputs: 1,
        }
    }
}

// The ports of a block of this kind with this m; none for a kind above 10 or an m that its kind does not take.
#[tactic(auto, unfolding(crate::specs::Ports::ports_of))]
pub fn ports_of(kind: u8, m: u8) -> Option<Ports>
    ensures { result ≡ ports_of kind m }
{
    if takes(kind, m) {
        Some(used_ports(kind, m))
    } else {
        None
    }
}

// Only an operator with a constant and a data buffer that starts full have a value.
pub fn has_value(kind: u8) -> bool
    ensures { result ≡ has_value kind }
{
    kind == Kind::Constant as u8 || kind == Kind::FullBuffer as u8
}
