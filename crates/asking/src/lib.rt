// Questions to a block (change request 9), over a net and its signals: whom a block that is asked for a word or for readiness hands the question on to, and how a chain of
// waiting channels ends there.
#![tactic(auto)]

ghost use Rattle.std.specs.Prelude.{◌≡◌, true, [], ℕ, ◌+◌, ◌≤◌, ◌<◌, MatchOption};
ghost use Rattle.std.proofs.Math.Option.{none, some};
ghost use Rattle.blocks.specs.Folds.{lowest};
ghost use Rattle.blocks.specs.Kinds.{kind_of};
ghost use Rattle.blocks.specs.Ports.{m_ok};
ghost use Rattle.blocks.specs.Words.{reach};
ghost use Rattle.blocks.specs.declared.Reg.{Reg};
ghost use Rattle.ports.specs.Places.{sig_at, ready_at};
ghost use Rattle.ports.specs.Worked.{ins_show};
ghost use Rattle.asking.specs.Rows.{told, chosen_no, needs_no, looks_no, counts, wanting, takes_it, handed_by, handed_no, next_by, Row};
ghost use Rattle.asking.specs.Endings.{ending_number, ending_at, ending_of};

use blocks::{Kind, Net, Ports, Sig, State};
use ports::Wired;

// How a chain ends: at a block, or where a channel is met again.
#[derive(Clone, Copy, PartialEq, Eq)]
pub enum Ending {
    IdleSource(u8),
    UnreadySink(u8),
    EmptyBuffer(u8),
    FullControl(u8),
    Circle(u8),
    NoRule(u8),
}

// Who is asked next: a channel for its word, a channel for readiness, or nobody.
#[derive(Clone, Copy)]
pub enum Next {
    Word(u8),
    Ready(u8),
    End(Ending),
}

// An ending's number: 0 where there is no chain, and 1 to 6 in the request's order.
// stays: the cases have a block beside them, so that no cast gives their number.
pub fn number_of(ending: Option<Ending>) -> u8
    ensures { result ≡ ending_number ending }
{
    match ending {
        None => 0,
        Some(Ending::IdleSource(_)) => 1,
        Some(Ending::UnreadySink(_)) => 2,
        Some(Ending::EmptyBuffer(_)) => 3,
        Some(Ending::FullControl(_)) => 4,
        Some(Ending::Circle(_)) => 5,
        Some(Ending::NoRule(_)) => 6,
    }
}

// The block that an ending names, or for a circle the channel met again; 0 where there is no chain.
// stays: one pattern over all cases is the shortest way to what they have in common.
pub fn named_by(ending: Option<Ending>) -> u8
    ensures { result ≡ ending_at ending }
{
    match ending {
        None => 0,
        Some(
            Ending::IdleSource(at)
            | Ending::UnreadySink(at)
            | Ending::EmptyBuffer(at)
            | Ending::FullControl(at)
            | Ending::Circle(at)
            | Ending::NoRule(at),
        ) => at,
    }
}

// The port that the select word of a mux or a demux names: of a mux, a data input.
fn selected(at: Wired, signals: &[Sig; 128]) -> u32
    requires { (0 < at.block.now.m) × (at.block.now.m ≤ 8) }
    ensures { let block = at.entry.block.now in reach block.m (ins_show block (sig_at signals.now) 0).word ≡ some result }
{
    let s = signals[at.place(0)];
    blocks::words::port_of(at.block.m as u32, s.word)
}

// The port that a mux, a demux or a merge has chosen; none for a merge without a winner, and for other kinds. held is a merge's recorded winner.
fn chosen_of(at: Wired, held: u32, signals: &[Sig; 128]) -> Option<u32>
    requires m_value { m_ok at.block.now.kind at.block.now.m ≡ true }
    requires held_le_m { at.block.now.kind ≡ 7 → held ≤ at.block.now.m }
    ensures { let block = at.entry.block.now in result ≡ told (chosen_no block.kind block.m held (ins_show block (sig_at signals.now))) }
{
    let kind = at.block.kind;
    if kind == Kind::Merge as u8 {
        ports::forward::winner_of(at, held, signals).checked_sub(1)
    } else if kind == Kind::Mux as u8 || kind == Kind::Demux as u8 {
        Some(selected(at, signals))
    } else {
        None
    }
}

// Whether input i is needed. The inputs of a mux are its select and then the ports that a select word can name.
fn needs_input(kind: u8, chosen: Option<u32>, i: u32) -> bool
    ensures { result ≡ needs_no kind chosen i }
{
    if kind == Kind::Mux as u8 {
        i == 0 || chosen == Some(i - 1)
    } else if kind == Kind::Merge as u8 {
        chosen == Some(i)
    } else {
        true
    }
}

// Whether output j is looked at.
fn looks_at(kind: u8, chosen: Option<u32>, j: u32) -> bool
    ensures { result ≡ looks_no kind chosen j }
{
    if kind == Kind::Demux as u8 {
        chosen == Some(j)
    } else {
        true
    }
}

// Whether input i is needed (side true), or output i looked at.
fn counted(side: bool, kind: u8, chosen: Option<u32>, i: u32) -> bool
    ensures { result ≡ counts side kind chosen i }
{
    if side {
        needs_input(kind, chosen, i)
    } else {
        looks_at(kind, chosen, i)
    }
}

// An input lacks V (side true); an output is V but not R.
fn wants(side: bool, v: bool, y: bool) -> bool
    ensures { result ≡ wanting side v y }
{
    if side { !v } else { v && !y }
}

// Whether the question can be handed to port i of a side, whose ports begin at port `first`.
fn takes_it(
    side: bool,
    chosen: Option<u32>,
    first: usize,
    i: u32,
    at: Wired,
    signals: &[Sig; 128],
    ready: &[bool; 128],
) -> bool
    requires { first + i < 10 }
    ensures { result ≡ takes_it side chosen first at.entry.block.now signals.now ready.now i }
{
    let c = at.place(first + i as usize);
    counted(side, at.block.kind, chosen, i) & wants(side, signals[c].valid, ready[c])
}

// The first port, of n, to which the question can be handed.
fn first_of(
    side: bool,
    n: u8,
    chosen: Option<u32>,
    first: usize,
    at: Wired,
    signals: &[Sig; 128],
    ready: &[bool; 128],
) -> Option<u32>
    requires { first + n ≤ 10 }
    ensures { let found = lowest (takes_it side chosen first at.entry.block.now signals.now ready.now) n in MatchOption result (found ≡ none) (λ i. (found ≡ some i) × (i < n)) }
{
    for i in 0..n as u32 {
        if takes_it(side, chosen, first, i, at, signals, ready) {
            return Some(i);
        }
    }
    None
}

// Hands the question to the first input that lacks V, else to the first output that is V but not R.
fn hand_to(
    b: u8,
    ports: Ports,
    chosen: Option<u32>,
    at: Wired,
    signals: &[Sig; 128],
    ready: &[bool; 128],
) -> Next
    requires { ports.inputs + ports.outputs ≤ 10 }
    ensures { result ≡ handed_by b ports chosen at.entry.block.now signals.now ready.now }
{
    if let Some(i) = first_of(true, ports.inputs, chosen, 0, at, signals, ready) {
        return Next::Word(at.block.ports[i as usize]);
    }
    let first = ports.inputs as usize;
    if let Some(j) = first_of(false, ports.outputs, chosen, first, at, signals, ready) {
        // stays: no packed array: the outputs of a block stand behind its inputs.
        return Next::Ready(at.block.ports[first + j as usize]);
    }
    Next::End(Ending::NoRule(b))
}

// Hands the question on, by the block's kind.
fn hand_on(b: u8, at: Wired, held: u32, signals: &[Sig; 128], ready: &[bool; 128]) -> Next
    requires m_value { m_ok at.block.now.kind at.block.now.m ≡ true }
    requires held_le_m { at.block.now.kind ≡ 7 → held ≤ at.block.now.m }
    ensures { (marks : ℕ) → result ≡ handed_no b at.entry.block.now (record { word = held; marks = marks }) (sig_at signals.now) (ready_at ready.now) }
{
    let chosen = chosen_of(at, held, signals);
    match blocks::kinds::ports_of(at.block.kind, at.block.m) {
        Some(ports) => hand_to(b, ports, chosen, at, signals, ready),
        None => Next::End(Ending::NoRule(b)),
    }
}

// How a chain ends at block b of this kind that is asked for a word (question true) or for readiness; none where the question is handed on.
fn ending_of(kind: u8, question: bool, b: u8) -> Option<Ending>
    ensures { (m value : ℕ) → result ≡ ending_of (kind_of kind m value []) question b }
{
    if kind == Kind::Source as u8 {
        Some(Ending::IdleSource(b))
    } else if kind == Kind::Sink as u8 {
        Some(Ending::UnreadySink(b))
    } else if question && (kind == Kind::Buffer as u8 || kind == Kind::FullBuffer as u8) {
        Some(Ending::EmptyBuffer(b))
    } else if !question && kind == Kind::Control as u8 {
        Some(Ending::FullControl(b))
    } else {
        None
    }
}

// What block b answers that is asked for a word (question true) or for readiness.
pub fn asked(
    question: bool,
    b: u8,
    net: &Net,
    state: &State,
    signals: &[Sig; 128],
    ready: &[bool; 128],
) -> Next
    requires { Row net.now state.now b }
    ensures { result ≡ next_by net.now state.now signals.now ready.now question b }
{
    let block = &net.blocks[b as usize];
    match ending_of(block.kind, question, b) {
        Some(ending) => Next::End(ending),
        None => {
            let held = state.words[b as usize];
            hand_on(b, Wired { block }, held, signals, ready)
        }
    }
}
