// Follows a stall of a stored net to its cause: `netstall FORM CYCLE CHANNEL [offer=MASKS] [ready=MASKS] [STREAM..]` runs the net for CYCLE cycles from its fresh state, and then prints the chain
// of waiting channels that begins at CHANNEL, a line each, and how it ends. All arguments are read before anything is run.
#![tactic(auto)]

ghost use Rattle.std.specs.Prelude.{◌≤◌, length, IfOk, IfSome};
ghost use Rattle.nets.specs.Verdict.{Joined};

use asking::Ending;
use blocks::Refusal;
use cycles::State;
use input::say;
use nets::Net;
use stalls::Chain;
use std::env::Env;
use typed::{ListFault, list_in, narrowed, number_in};

// The masks of an argument: so many entries of its list, one for each of the first cycles, and the mask of all later cycles.
#[derive(Clone, Copy)]
struct Listed {
    count: usize,
    later: u32,
}

// The streams of all arguments: how many words they have, and how many streams there are.
#[derive(Clone, Copy)]
struct Counted {
    words: usize,
    count: usize,
}

// The masks of every cycle: those of the first cycles, and the one of all later cycles.
#[derive(Clone, Copy)]
struct Masks<'a> {
    first: &'a [u32],
    later: u32,
}

// Streams: their words, one stream after another, and where the words of each end.
#[derive(Clone, Copy)]
struct Streams<'a> {
    words: &'a [u32],
    ends: &'a [u32],
}

// What is asked: after how many cycles and at which channel, with which masks.
#[derive(Clone, Copy)]
struct Question<'a> {
    cycles: u32,
    channel: u32,
    offers: Masks<'a>,
    readies: Masks<'a>,
}

// The arguments: the program's name is number 0.
const CYCLE_ARGUMENT: usize = 2;

const CHANNEL_ARGUMENT: usize = 3;

const FIRST_FURTHER: usize = 4;

// Rooms: the words of all streams, the masks of a list, the streams.
const MOST_WORDS: usize = 4096;

const MOST_MASKS: usize = 4096;

const MOST_STREAMS: usize = 64;

// The bytes of an argument.
const MOST_TEXT: usize = 65536;

// A mask that leaves nothing out.
const ALL_BITS: u32 = u32::MAX;

// The names of the arguments that have masks, and what lets the last mask go on.
const OFFER: &[u8] = b"offer=";

const READY: &[u8] = b"ready=";

const ON: &[u8] = b"..";

// The cycles that a net can be run from its fresh state.
const MOST_CYCLES: u32 = 1048576;

// ---- Errors

// What to write where an argument is missing.
fn say_usage(rt: &HostRuntime) {
    say(
        rt,
        b"netstall: usage: netstall FORM CYCLE CHANNEL [offer=MASKS] [ready=MASKS] [STREAM..]\n",
    );
    say(
        rt,
        b"FORM is a file with a stored net, CYCLE how many cycles are run before the question, CHANNEL where the chain begins. MASKS are the masks of the first cycles, as ready=3,1 (later cycles have all bits) or ready=3,1.. (the last one goes on). Each STREAM has the words of the next source, as 10,20,30; without any, every source gets 1,2,3.\n",
    );
}

// Begins a message about argument i.
fn say_argument(rt: &HostRuntime, i: usize) {
    let _ = eprint!(rt; "netstall: argument {i}");
}

// Begins a message about argument i with its text.
fn say_text(rt: &HostRuntime, i: usize, text: &[u8]) {
    say_argument(rt, i);
    say(rt, b", \"");
    say(rt, text);
    say(rt, b"\", ");
}

// An argument that does not fit its buffer.
fn say_too_long(rt: &HostRuntime, i: usize) {
    say_argument(rt, i);
    say(
        rt,
        b" has over 65536 bytes: give fewer or shorter numbers\n",
    );
}

// What is wrong with an argument that has masks.
fn say_bad_masks(rt: &HostRuntime, i: usize, text: &[u8], fault: ListFault) {
    if fault == ListFault::TooLong {
        say_argument(rt, i);
        say(
            rt,
            b" has over 4096 masks: give fewer, the last one can go on by .. after it\n",
        );
        return;
    }
    say_text(rt, i, text);
    say(
        rt,
        b"is no list of masks: write numbers from 0 to 4294967295 with commas between them, as ready=3,1 or, for the last one to go on, ready=3,1..\n",
    );
}

// What is wrong with an argument that has a stream.
// stays: the texts are what differs, and they read best where they are said.
fn say_bad_stream(rt: &HostRuntime, i: usize, text: &[u8], fault: ListFault) {
    if fault == ListFault::TooLong {
        say_argument(rt, i);
        say(
            rt,
            b" has more words than there is room for: give at most 4096 in all streams\n",
        );
        return;
    }
    say_text(rt, i, text);
    say(
        rt,
        b"is no stream: write words from 0 to 4294967295 with commas between them, as 10,20,30; masks begin with offer= or ready=\n",
    );
}

// A stream for which there is no room.
fn say_too_many_streams(rt: &HostRuntime, i: usize) {
    say_argument(rt, i);
    say(
        rt,
        b" is one stream too many: there is room for 64; give one for each source of the net\n",
    );
}

// ---- Masks

// The mask of the cycles after a list of masks: the last one where it goes on, else all bits.
fn later_mask(list: &[u32], goes_on: bool) -> u32 {
    match list.last() {
        Some(mask) if goes_on => *mask,
        _ => ALL_BITS,
    }
}

// The masks of argument i, which come after its name, in the list, or none where it has no masks, which is then said.
fn masks_in(
    rt: &HostRuntime,
    i: usize,
    text: &[u8],
    after_name: &[u8],
    list: &mut [u32],
) -> Option<Listed>
    ensures { IfSome result (λ m. m.count ≤ length list.old) }
{
    let numbers = after_name.strip_suffix(ON);
    match list_in(numbers.unwrap_or(after_name), list) {
        Ok(count) => {
            let later = later_mask(&list[..count], numbers.is_some());
            Some(Listed { count, later })
        }
        Err(fault) => {
            say_bad_masks(rt, i, text, fault);
            None
        }
    }
}

// The masks after argument i: its own where it begins with the name, else those before; or none where they cannot be read, which is then said.
fn masks_after(
    rt: &HostRuntime,
    i: usize,
    name: &[u8],
    before: Listed,
    list: &mut [u32],
) -> Option<Listed>
    requires { before.count ≤ length list.old }
    ensures { IfSome result (λ m. m.count ≤ length list.old) }
{
    let mut text = [0u8; MOST_TEXT];
    let Ok(n) = rt.arg(i, &mut text) else {
        say_too_long(rt, i);
        return None;
    };
    match text[..n].strip_prefix(name) {
        Some(after_name) => masks_in(rt, i, &text[..n], after_name, list),
        None => Some(before),
    }
}

// The masks of the last argument that begins with the name, in the list; without such an argument all bits in every cycle. None where an argument cannot be read, which is then said.
fn masks_given(rt: &HostRuntime, name: &[u8], list: &mut [u32]) -> Option<Listed>
    ensures { IfSome result (λ m. m.count ≤ length list.old) }
{
    let mut masks = Listed {
        count: 0,
        later: ALL_BITS,
    };
    for i in FIRST_FURTHER..usize::MAX {
        if !input::has_argument(rt, i) {
            break;
        }
        masks = masks_after(rt, i, name, masks, list)?;
    }
    Some(masks)
}

impl<'a> Masks<'a> {
    // The mask of a cycle.
    fn of(self, cycle: u32) -> u32 {
        match self.first.get(cycle as usize) {
            Some(mask) => *mask,
            None => self.later,
        }
    }
}

// ---- Streams

// Puts the words of a stream at the start of the list and gives their number; a text without a character is an empty stream.
fn words_in(text: &[u8], list: &mut [u32]) -> Result<usize, ListFault>
    ensures { IfOk result (λ n. n ≤ length list.old) }
{
    if text.is_empty() {
        return Ok(0);
    }
    list_in(text, list)
}

// The streams with that of argument i after them, or none where it is no stream or has no room, which is then said.
fn stream_in(
    rt: &HostRuntime,
    i: usize,
    text: &[u8],
    before: Counted,
    words: &mut [u32],
    ends: &mut [u32],
) -> Option<Counted>
    requires { (before.words ≤ length words.old) × (before.count ≤ length ends.old) }
    ensures { IfSome result (λ s. (s.words ≤ length words.old) × (s.count ≤ length ends.old)) }
{
    let count = before.count;
    if ends.len() <= count {
        say_too_many_streams(rt, i);
        return None;
    }
    let from = before.words;
    match words_in(text, &mut words[from..]) {
        Ok(more) => {
            let end = from + more;
            ends[count] = u32::try_from(end).unwrap_or(u32::MAX);
            Some(Counted {
                words: end,
                count: count + 1,
            })
        }
        Err(fault) => {
            say_bad_stream(rt, i, text, fault);
            None
        }
    }
}

// The streams after argument i, which is one more unless it has masks; or none where it cannot be read, which is then said.
fn streams_after(
    rt: &HostRuntime,
    i: usize,
    before: Counted,
    words: &mut [u32],
    ends: &mut [u32],
) -> Option<Counted>
    requires { (before.words ≤ length words.old) × (before.count ≤ length ends.old) }
    ensures { IfSome result (λ s. (s.words ≤ length words.old) × (s.count ≤ length ends.old)) }
{
    let mut text = [0u8; MOST_TEXT];
    let Ok(n) = rt.arg(i, &mut text) else {
        say_too_long(rt, i);
        return None;
    };
    let text = &text[..n];
    if text.starts_with(OFFER) || text.starts_with(READY) {
        return Some(before);
    }
    stream_in(rt, i, text, before, words, ends)
}

// The streams of all arguments that have no masks, or none where an argument cannot be read, which is then said.
fn streams_given(rt: &HostRuntime, words: &mut [u32], ends: &mut [u32]) -> Option<Counted>
    ensures { IfSome result (λ s. (s.words ≤ length words.old) × (s.count ≤ length ends.old)) }
{
    let mut streams = Counted { words: 0, count: 0 };
    for i in FIRST_FURTHER..usize::MAX {
        if !input::has_argument(rt, i) {
            break;
        }
        streams = streams_after(rt, i, streams, words, ends)?;
    }
    Some(streams)
}

// ---- Printing

// Prints the refusal of the form or of the question. A write that fails is passed over, here and below.
fn print_refusal(rt: &impl Print, refusal: u8) {
    let _ = println!(rt; "refused {refusal}");
}

// Prints a channel of a chain.
fn print_channel(rt: &impl Print, channel: u8, valid: bool) {
    let _ = if valid {
        println!(rt; "channel {channel}: its word is not taken (lacks R)")
    } else {
        println!(rt; "channel {channel}: no word comes (lacks V)")
    };
}

// Prints how a chain ends: at which block, for a circle at which channel; where there is no chain, that the first channel delivers.
fn print_ending(rt: &impl Print, channel: u32, ending: Option<Ending>) {
    let _ = match ending {
        None => println!(rt; "channel {channel} delivers"),
        Some(Ending::IdleSource(b)) => println!(rt;
            "ends at block {b}: a source that offers nothing"
        ),
        Some(Ending::UnreadySink(b)) => println!(rt; "ends at block {b}: a sink that is not ready"),
        Some(Ending::EmptyBuffer(b)) => println!(rt; "ends at block {b}: an empty data buffer"),
        Some(Ending::FullControl(b)) => println!(rt; "ends at block {b}: a full control buffer"),
        Some(Ending::Circle(c)) => println!(rt; "ends in a circle: channel {c} is met again"),
        Some(Ending::NoRule(b)) => println!(rt;
            "ends at block {b}: no rule names a further channel"
        ),
    };
}

// Prints a chain that begins at a channel.
fn print_chain(rt: &impl Print, channel: u32, chain: Chain) {
    for (c, valid) in chain.channels.iter().zip(&chain.valid).take(chain.count) {
        print_channel(rt, *c, *valid);
    }
    print_ending(rt, channel, chain.ending);
}

// ---- The run and the question

// The state of a net after the cycles of the question.
fn state_after(net: Net, start: State, streams: Streams, question: Question) -> State {
    let mut state = start;
    for cycle in 0..question.cycles {
        let offer = question.offers.of(cycle);
        let ready = question.readies.of(cycle);
        state = sim::step::step(net, state, streams.words, streams.ends, offer, ready).state;
    }
    state
}

// The chain in a state, with the masks of a cycle.
fn chain_in(net: Net, state: State, streams: Streams, question: Question, cycle: u32) -> Chain {
    let offer = question.offers.of(cycle);
    let ready = question.readies.of(cycle);
    stalls::follow::follow(
        net,
        state,
        streams.words,
        streams.ends,
        offer,
        ready,
        question.channel,
    )
}

// Answers the question for a net that was loaded. Asking at the fresh state first shows whether it is refused, before a cycle is run.
fn answer(rt: &impl Print, net: Net, streams: Streams, question: Question) {
    let start = sim::step::fresh(net).state;
    let first = chain_in(net, start, streams, question, 0);
    if first.refusal != 0 {
        print_refusal(rt, first.refusal);
        return;
    }
    if MOST_CYCLES < question.cycles {
        print_refusal(rt, Refusal::Cycles as u8);
        return;
    }
    let state = state_after(net, start, streams, question);
    let chain = chain_in(net, state, streams, question, question.cycles);
    print_chain(rt, question.channel, chain);
}

// Answers the question where no stream is given: 1, 2, 3 for every source, as netrun has them.
fn answer_sample(rt: &impl Print, net: Net, question: Question)
    requires { Joined net }
{
    let words = sample::one_two_three();
    let ends = sample::ends_of_three();
    let k = sample::count_sources(net);
    let streams = Streams {
        words: &words,
        ends: &ends[..k],
    };
    answer(rt, net, streams, question);
}

// Answers the question for a form, or prints the refusal that the form earns.
fn answer_form(rt: &impl Print, form: &[u8], streams: Streams, question: Question) {
    let loading = forms::load(form);
    if loading.refusal != 0 {
        print_refusal(rt, loading.refusal);
        return;
    }
    if streams.ends.is_empty() {
        answer_sample(rt, loading.net, question);
    } else {
        answer(rt, loading.net, streams, question);
    }
}

// ---- Arguments

// Reads the form, and answers the question for it.
fn answer_file(rt: &HostRuntime, streams: Streams, question: Question) {
    let mut buf = [0u8; input::ROOM];
    if let Some(n) = input::read_form(rt, b"netstall", &mut buf) {
        answer_form(rt, &buf[..n], streams, question);
    }
}

// Reads the further arguments, and answers the question: after so many cycles, at a channel. Where an argument cannot be read, which is then said, nothing is answered.
fn answer_given(rt: &HostRuntime, cycles: u32, channel: u32) -> Option<()> {
    let mut words = [0u32; MOST_WORDS];
    let mut ends = [0u32; MOST_STREAMS];
    let mut offers = [0u32; MOST_MASKS];
    let mut readies = [0u32; MOST_MASKS];
    let offer = masks_given(rt, OFFER, &mut offers)?;
    let ready = masks_given(rt, READY, &mut readies)?;
    let counted = streams_given(rt, &mut words, &mut ends)?;
    let question = Question {
        cycles,
        channel,
        offers: Masks {
            first: &offers[..offer.count],
            later: offer.later,
        },
        readies: Masks {
            first: &readies[..ready.count],
            later: ready.later,
        },
    };
    let streams = Streams {
        words: &words[..counted.words],
        ends: &ends[..counted.count],
    };
    answer_file(rt, streams, question);
    Some(())
}

// The number that argument i is, the greatest of 32 bits for one that has more; none, where it is no number, which is then said.
fn number_given(rt: &HostRuntime, i: usize, wrong: &[u8]) -> Option<u32> {
    let mut text = [0u8; MOST_TEXT];
    let Ok(n) = rt.arg(i, &mut text) else {
        say_too_long(rt, i);
        return None;
    };
    let number = narrowed(number_in(&text[..n]));
    if number.is_none() {
        say_text(rt, i, &text[..n]);
        say(rt, wrong);
    }
    number
}

// Reads all arguments, and answers the question that they ask. Where one cannot be read, which is then said, nothing is answered.
fn answer_arguments(rt: &HostRuntime) -> Option<()> {
    let cycles = number_given(
        rt,
        CYCLE_ARGUMENT,
        b"is no number of cycles: write it in digits alone, as 3\n",
    )?;
    let channel = number_given(
        rt,
        CHANNEL_ARGUMENT,
        b"is no number of a channel: write it in digits alone, as 0\n",
    )?;
    answer_given(rt, cycles, channel)
}

fn main(rt: HostRuntime) {
    if !input::has_argument(&rt, FIRST_FURTHER - 1) {
        say_usage(&rt);
        return;
    }
    let _ = answer_arguments(&rt);
}
