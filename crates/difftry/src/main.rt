// Gathering and comparing by a run. Without arguments: what the sink of document 01's net takes, in two traces laid beside each other; then calls that are refused.
// With a file: the two calls of `gather` that it asks for, how what they put compares, and the rest. Its numbers have 4 bytes, most significant first: the bytes of the first trace, its
// channel, the room of its list; the same of the second; then the first trace and the second.
#![tactic(auto)]

ghost use Rattle.std.specs.Prelude.{◌≤◌};
ghost use Rattle.std.specs.Counts.{IsPrefixLen};

use compare::Compared;
use trace::numbers::number_at;

const MOST_BYTES: usize = 65536;

const HEAD_BYTES: usize = 24;

const MOST_ROOM: usize = 256;

// Prints a line. A write that fails is passed over, here and below.
fn say(rt: &impl Print, text: &str) {
    let _ = println!(rt; "{text}");
}

// Prints the words of a list, and ends the line.
fn print_list(rt: &impl Print, text: &str, list: &[u32]) {
    let _ = print!(rt; "{text}");
    for word in list {
        let _ = print!(rt; " {word}");
    }
    let _ = println!(rt);
}

// A list before it is lent: entry i is 4294967295 - i.
fn unfilled() -> [u32; MOST_ROOM] {
    let mut list = [0u32; MOST_ROOM];
    for (i, entry) in list.iter_mut().enumerate() {
        *entry = u32::MAX - i as u32;
    }
    list
}

// Gathers, shows the answer and the whole list, and answers the count.
fn gathered(rt: &impl Print, text: &str, trace: &[u8], channel: u8, list: &mut [u32]) -> usize
    ensures { IsPrefixLen result list.new }
{
    let answer = compare::gather(trace, channel, list);
    let _ = print!(rt; "{text}{} count {}", answer.refusal, answer.count);
    print_list(rt, " list", &*list);
    answer.count
}

fn show_answer(rt: &impl Print, a: &[u32], b: &[u32]) {
    match compare::compare(a, b) {
        Compared::Equal => say(rt, "compare: equal"),
        Compared::FirstBegins => say(rt, "compare: first begins second"),
        Compared::SecondBegins => say(rt, "compare: second begins first"),
        Compared::Differ(n) => {
            let _ = println!(rt; "compare: differ at {n}");
        }
    }
}

// How two lists compare, and the rest.
fn show_compared<'a>(rt: &impl Print, a: &'a [u32], b: &'a [u32]) {
    show_answer(rt, a, b);
    print_list(rt, "rest:", compare::rest(a, b));
}

// ---- Two calls of gather

// What a call asks for: the channel, and so many entries of its list.
#[derive(Clone, Copy)]
struct Wish {
    channel: u8,
    room: usize,
}

fn asked(channel: u32, room: u32) -> Wish
    ensures { result.room ≤ 256 }
{
    Wish {
        channel: (channel % 256) as u8,
        room: MOST_ROOM.min(room as usize),
    }
}

// Gathers from both traces into these lists, and compares what the calls put.
fn try_lists(
    rt: &impl Print,
    first: &[u8],
    channel: u8,
    list: &mut [u32],
    second: &[u8],
    other_channel: u8,
    other: &mut [u32],
) {
    let k = gathered(rt, "first: refusal ", first, channel, list);
    let m = gathered(rt, "second: refusal ", second, other_channel, other);
    show_compared(rt, &list[..k], &other[..m]);
}

// The same with lists of the room that is asked for.
fn try_traces(rt: &impl Print, first: &[u8], a: Wish, second: &[u8], b: Wish)
    requires { (a.room ≤ 256) × (b.room ≤ 256) }
{
    let mut list = unfilled();
    let mut other = unfilled();
    let room = a.room;
    let other_room = b.room;
    try_lists(
        rt,
        first,
        a.channel,
        &mut list[..room],
        second,
        b.channel,
        &mut other[..other_room],
    );
}

// ---- A file

fn try_case(rt: &impl Print, file: &[u8]) -> Option<()> {
    let (head, traces) = file.split_at_checked(HEAD_BYTES)?;
    let (first, others) = traces.split_at_checked(number_at(head, 0) as usize)?;
    let (second, _) = others.split_at_checked(number_at(head, 3) as usize)?;
    let wish = asked(number_at(head, 1), number_at(head, 2));
    let other_wish = asked(number_at(head, 4), number_at(head, 5));
    try_traces(rt, first, wish, second, other_wish);
    Some(())
}

// ---- Without a file

// Two traces laid beside each other, and calls that are refused.
fn trial_of(rt: &impl Print, ours: &[u8], card: &[u8], torn: &[u8]) {
    say(rt, "channel 2 of both");
    try_traces(rt, ours, asked(2, 5), card, asked(2, 5));
    say(rt, "channels 2 and 0");
    try_traces(rt, ours, asked(2, 5), card, asked(0, 5));
    say(rt, "a list that is just long enough, and one that is not");
    try_traces(rt, ours, asked(2, 3), ours, asked(2, 2));
    say(rt, "31 bytes, and no room either");
    try_traces(rt, torn, asked(0, 5), torn, asked(0, 0));
    say(rt, "channels 130 and 3, which have no words");
    try_traces(rt, ours, asked(130, 2), card, asked(3, 0));
}

// What the sink of document 01's net takes from 1, 2, 3, after the source's first word: where nothing stalls, and on a card whose sink is ready late.
fn trial_of_traces(rt: &impl Print) {
    let torn = [0u8; 31];
    trial_of(
        rt,
        b"\x00\x00\x00\x00\x00\x00\x00\x01\x00\x00\x00\x82\x00\x00\x00\x06\x00\x00\x01\x02\x00\x00\x00\x07\x00\x00\x01\x82\x00\x00\x00\x08",
        b"\x00\x00\x00\x00\x00\x00\x00\x01\x00\x00\x01\x82\x00\x00\x00\x06\x00\x00\x02\x02\x00\x00\x00\x07",
        &torn,
    );
}

fn main(rt: HostRuntime) {
    if !input::has_argument(&rt, 1) {
        trial_of_traces(&rt);
        return;
    }
    let mut buf = [0u8; MOST_BYTES + 1];
    let Some(n) = input::read_form(&rt, b"difftry", &mut buf) else {
        return;
    };
    if MOST_BYTES < n || try_case(&rt, &buf[..n]).is_none() {
        say(&rt, "no case");
    }
}
