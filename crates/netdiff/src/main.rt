// Lays two traces side by side: `netdiff FIRST SECOND [CHANNEL]` says, for the channel or for each of the 128, how the words compare that the two have there.
// It reads the files in blocks of whole records, whose words one after another are those of the whole (`words-blocks`, compare/proofs/Words.antt). A channel's words of a block wait in a list
// until the other trace has matched them, and the next block of a file is read when its list is used up. So the words passed over are those that both begin with, and passing over them
// changes nothing but the place of a difference (`passed_over`, compare/proofs/Meaning.antt).
#![tactic(auto)]

ghost use Rattle.std.specs.Prelude.{◌+◌, ◌<◌, ◌≤◌, length, IfSome};
ghost use Rattle.netdiff.specs.Waits.{Within};

use compare::Compared;
use input::say;
use std::env::Env;
use std::fs;
use std::io::{Read, Seek, SeekFrom};
use std::num::wrapping_add_u64;
use trace::records::RECORD_BYTES;

// A file that is read, and the argument that names it.
#[derive(Drop)]
struct File {
    bytes: fs::File,
    argument: usize,
}

// The two files.
#[derive(Drop)]
struct Files {
    first: File,
    second: File,
}

// A channel's words that were read from a file and are not matched yet: entries `from` to `to` of its list (two places, since a range is not copied). more: the file has not ended.
#[derive(Clone, Copy)]
struct Waiting {
    from: usize,
    to: usize,
    // stays: the words that wait are there whether the file has ended or not.
    more: bool,
}

// How far two files are compared: what waits of each, how many words are matched, and whether to go on.
#[derive(Clone, Copy)]
struct Progress {
    first: Waiting,
    second: Waiting,
    matched: u64,
    // stays: what waits and is matched counts in the end, when it goes on no more.
    going: bool,
}

// How the words that wait in the end compare: how many more the longer list has, or the place of a difference and the two words that differ.
#[derive(Clone, Copy)]
enum Ending {
    Equal,
    FirstBegins(usize),
    SecondBegins(usize),
    Differ { place: usize, one: u32, other: u32 },
}

// As many words as a block of a file has records, so that a channel's words of a block have room.
const MOST_WORDS: usize = 8192;
// The bytes of a block.
const BLOCK: usize = 65536;

const CHANNELS: u8 = 128;

// ---- Errors

// Writes the program's name and the argument i on standard error.
fn say_argument(rt: &HostRuntime, i: usize) {
    let mut text = [0u8; input::ROOM];
    let n = rt.arg(i, &mut text).unwrap_or(0);
    say(rt, b"netdiff: ");
    say(rt, &text[..n]);
}

// A file that could be read when it was opened, and cannot any more.
fn say_unreadable(rt: &HostRuntime, i: usize) {
    say_argument(rt, i);
    say(rt, b" cannot be read to its end\n");
}

fn say_no_trace(rt: &HostRuntime, i: usize, bytes: u64) {
    say_argument(rt, i);
    let _ = eprintln!(rt;
        " is no trace: its {bytes} bytes are not whole records of 8 bytes (refusal 22)"
    );
}

// ---- Reading

// Nothing waits; the file has not been read yet.
fn unread() -> Waiting
    ensures { Within 0 result }
{
    Waiting {
        from: 0,
        to: 0,
        more: true,
    }
}

// The channel's words of the next block, or none where it cannot be read, which is then said. A block that is not full is the last one.
fn next_words(
    rt: &HostRuntime,
    file: &File,
    channel: u8,
    buf: &mut [u8],
    list: &mut [u32],
) -> Option<Waiting>
    ensures { IfSome result (λ w. Within (length list.old) w) }
{
    let Ok(n) = input::read_all(&mut &file.bytes, buf) else {
        say_unreadable(rt, file.argument);
        return None;
    };
    let gathered = compare::gather(&buf[..n], channel, list);
    if gathered.refusal != 0 {
        say_no_trace(rt, file.argument, n as u64);
        return None;
    }
    Some(Waiting {
        from: 0,
        to: gathered.count,
        more: n == buf.len(),
    })
}

// What waits where the list is used up: the words of the next block that has some.
fn refilled(
    rt: &HostRuntime,
    file: &File,
    channel: u8,
    before: Waiting,
    buf: &mut [u8],
    list: &mut [u32],
) -> Option<Waiting>
    requires { Within (length list.old) before }
    ensures { IfSome result (λ w. Within (length list.old) w) }
{
    let mut waiting = before;
    for _ in 0..u64::MAX {
        if waiting.from != waiting.to || !waiting.more {
            break;
        }
        waiting = next_words(rt, file, channel, buf, list)?;
    }
    Some(waiting)
}

// ---- Printing

// A channel's line that ends in a number of words. A write that fails is passed over.
fn print_words(rt: &impl Print, channel: u8, text: &str, n: u64) {
    let _ = match n {
        0 => println!(rt; "channel {channel}{text}no words"),
        1 => println!(rt; "channel {channel}{text}1 word"),
        _ => println!(rt; "channel {channel}{text}{n} words"),
    };
}

fn print_difference(rt: &impl Print, channel: u8, place: u64, one: u32, other: u32) {
    let _ = println!(rt; "channel {channel}: differ at {place}: {one} {other}");
}

// ---- Comparing

fn begun() -> Progress
    ensures within { Within 0 result.first }
    ensures within_2 { Within 0 result.second }
{
    Progress {
        first: unread(),
        second: unread(),
        matched: 0,
        going: true,
    }
}

// What waits after k words of it.
fn after(waiting: Waiting, k: usize) -> Waiting
    requires { waiting.from + k ≤ waiting.to }
    ensures { Within waiting.to result }
{
    Waiting {
        from: waiting.from + k,
        ..waiting
    }
}

// How many words that wait on both sides match.
fn matching(a: &[u32], b: &[u32]) -> usize
    ensures upper_bound { result ≤ length a.now }
    ensures upper_bound_2 { result ≤ length b.now }
{
    match compare::compare(a, b) {
        // An arm of its own: of an arm for two answers the proof does not know what `compare` says of each.
        Compared::Equal => a.len(),
        Compared::FirstBegins => a.len(),
        Compared::SecondBegins => b.len(),
        Compared::Differ(n) => n,
    }
}

// Passes over the words that match. Where none does, there is nothing to go on with: one file has no word left, or the first two words that wait differ.
fn passed(first: Waiting, second: Waiting, count: u64, a: &[u32], b: &[u32]) -> Progress
    requires within { Within (length a.now) first }
    requires within_2 { Within (length b.now) second }
    ensures within_3 { Within (length a.now) result.first }
    ensures within_4 { Within (length b.now) result.second }
{
    let from = first.from;
    let to = first.to;
    let other_from = second.from;
    let other_to = second.to;
    let k = matching(&a[from..to], &b[other_from..other_to]);
    Progress {
        first: after(first, k),
        second: after(second, k),
        matched: wrapping_add_u64(count, k as u64),
        going: k > 0,
    }
}

// One turn: reads on where nothing waits, in both files even if one cannot be read, and passes over the words that match.
fn advanced(
    rt: &HostRuntime,
    files: &Files,
    channel: u8,
    at: Progress,
    buf: &mut [u8],
    a: &mut [u32],
    b: &mut [u32],
) -> Option<Progress>
    requires within { Within (length a.old) at.first }
    requires within_2 { Within (length b.old) at.second }
    ensures within_3 { IfSome result (λ p. Within (length a.old) p.first) }
    ensures within_4 { IfSome result (λ p. Within (length b.old) p.second) }
{
    let first = refilled(rt, &files.first, channel, at.first, buf, a);
    let second = refilled(rt, &files.second, channel, at.second, buf, b);
    Some(passed(first?, second?, at.matched, &*a, &*b))
}

// How many words a file has left, with those that are read: so many of the block that `last` tells of; none where it cannot be read.
fn left_over(
    rt: &HostRuntime,
    file: &File,
    channel: u8,
    last: Waiting,
    words: usize,
    buf: &mut [u8],
    list: &mut [u32],
) -> Option<u64> {
    let mut waiting = last;
    let mut sum = words as u64;
    for _ in 0..u64::MAX {
        if !waiting.more {
            break;
        }
        waiting = next_words(rt, file, channel, buf, list)?;
        sum = wrapping_add_u64(sum, waiting.to as u64);
    }
    Some(sum)
}

// How the words that wait in the end compare.
fn ends<'a>(a: &'a [u32], b: &'a [u32]) -> Ending {
    let rest = compare::rest(a, b).len();
    match compare::compare(a, b) {
        Compared::Equal => Ending::Equal,
        Compared::FirstBegins => Ending::FirstBegins(rest),
        Compared::SecondBegins => Ending::SecondBegins(rest),
        Compared::Differ(n) => differing(a, b, n),
    }
}

fn differing(a: &[u32], b: &[u32], place: usize) -> Ending
    requires { (place < length a.now) × (place < length b.now) }
{
    Ending::Differ {
        place,
        one: a[place],
        other: b[place],
    }
}

// ---- A channel's line

// Unless a file could not be read.
fn print_surplus(rt: &impl Print, channel: u8, text: &str, surplus: Option<u64>) {
    if let Some(words) = surplus {
        print_words(rt, channel, text, words);
    }
}

// The channel's line, by how the words compare that wait in the end.
fn print_ending(
    rt: &HostRuntime,
    files: &Files,
    channel: u8,
    at: Progress,
    end: Ending,
    buf: &mut [u8],
    list: &mut [u32],
) {
    match end {
        Ending::Equal => print_words(rt, channel, ": equal, ", at.matched),
        Ending::FirstBegins(rest) => {
            let surplus = left_over(rt, &files.second, channel, at.second, rest, buf, list);
            print_surplus(rt, channel, ": first begins second by ", surplus);
        }
        Ending::SecondBegins(rest) => {
            let surplus = left_over(rt, &files.first, channel, at.first, rest, buf, list);
            print_surplus(rt, channel, ": second begins first by ", surplus);
        }
        Ending::Differ { place, one, other } => {
            let place = wrapping_add_u64(at.matched, place as u64);
            print_difference(rt, channel, place, one, other);
        }
    }
}

// The channel's line.
fn conclude(
    rt: &HostRuntime,
    files: &Files,
    channel: u8,
    at: Progress,
    buf: &mut [u8],
    a: &mut [u32],
    b: &mut [u32],
)
    requires within { Within (length a.old) at.first }
    requires within_2 { Within (length b.old) at.second }
{
    let first = at.first;
    let second = at.second;
    let from = first.from;
    let to = first.to;
    let other_from = second.from;
    let other_to = second.to;
    let end = ends(&a[from..to], &b[other_from..other_to]);
    print_ending(rt, files, channel, at, end, buf, a);
}

// Lays the channel's words of the two files beside each other. Where a file cannot be read there is no line.
fn lay_beside(rt: &HostRuntime, files: &Files, channel: u8) {
    let _ = (&files.first.bytes).seek(SeekFrom::Start(0));
    let _ = (&files.second.bytes).seek(SeekFrom::Start(0));
    let mut block = [0u8; BLOCK];
    let mut words = [0u32; MOST_WORDS];
    let mut others = [0u32; MOST_WORDS];
    let buf: &mut [u8] = &mut block;
    let a: &mut [u32] = &mut words;
    let b: &mut [u32] = &mut others;
    let mut at = begun();
    for _ in 0..u64::MAX {
        if !at.going {
            break;
        }
        let Some(further) = advanced(rt, files, channel, at, buf, a, b) else {
            return;
        };
        at = further;
    }
    conclude(rt, files, channel, at, buf, a, b);
}

// ---- Each channel

// Marks the channels of the records of a block.
fn mark_block(block: &[u8], seen: &mut [bool; 128]) {
    for i in 0..block.len() / RECORD_BYTES {
        let channel = recorded::channel_of(recorded::record_at(block, i));
        seen[channel as usize] = true;
    }
}

// Marks the channels of the next block, and answers whether there may be another one.
fn mark_next(file: &File, buf: &mut [u8], seen: &mut [bool; 128]) -> bool {
    let n = input::read_all(&mut &file.bytes, buf).unwrap_or(0);
    mark_block(&buf[..n], seen);
    n == buf.len()
}

// Marks the channels on which a file has words.
fn mark_channels(file: &File, seen: &mut [bool; 128]) {
    let _ = (&file.bytes).seek(SeekFrom::Start(0));
    let mut block = [0u8; BLOCK];
    let buf: &mut [u8] = &mut block;
    for _ in 0..u64::MAX {
        if !mark_next(file, buf, seen) {
            break;
        }
    }
}

// A line for each channel. One on which neither file has a word needs no more reading.
fn lay_all_beside(rt: &HostRuntime, files: &Files) {
    let mut seen = [false; 128];
    mark_channels(&files.first, &mut seen);
    mark_channels(&files.second, &mut seen);
    for channel in 0..CHANNELS {
        if seen[channel as usize] {
            lay_beside(rt, files, channel);
        } else {
            print_words(rt, channel, ": equal, ", 0);
        }
    }
}

// ---- Arguments

fn say_usage(rt: &HostRuntime) {
    say(rt, b"netdiff: usage: netdiff FIRST SECOND [CHANNEL]\n");
    say(
        rt,
        b"FIRST and SECOND are traces: the records that were written, 8 bytes each, and not the whole buffer. Without CHANNEL there is a line for each of the 128.\n",
    );
}

// The channel that the text is the number of.
fn channel_in(text: &[u8]) -> Option<u8> {
    match typed::number_in(text) {
        Ok(number) if number < CHANNELS as u32 => Some(number as u8),
        _ => None,
    }
}

// The channel that the third argument asks for, or none, which is then said.
fn channel_asked(rt: &HostRuntime) -> Option<u8> {
    let mut text = [0u8; input::ROOM];
    let n = rt.arg(3, &mut text).unwrap_or(0);
    let channel = channel_in(&text[..n]);
    if channel.is_none() {
        say_argument(rt, 3);
        say(rt, b" is no channel: channels are 0 to 127\n");
    }
    channel
}

// A pipe would be found empty when it is read for the second time, so it is not read at all.
fn say_once_only(rt: &HostRuntime, path: &[u8]) {
    say(rt, b"netdiff: cannot read ");
    say(rt, path);
    say(
        rt,
        b": it can be read only once, as a pipe can; put it into a file first\n",
    );
}

// Whether an open file can be read, and again from its beginning; where it cannot, says so with its name.
fn is_readable(rt: &HostRuntime, file: &fs::File, path: &[u8]) -> bool {
    let mut input = file;
    if input.seek(SeekFrom::Start(0)).is_err() {
        say_once_only(rt, path);
        return false;
    }
    let mut byte = [0u8; 1];
    match input.read(&mut byte) {
        Ok(_) => true,
        Err(error) => {
            input::complain(rt, b"netdiff", path, &error);
            false
        }
    }
}

// Opens the file of that name, and tries to read it; none says that it cannot be read.
fn opened_by_name(rt: &HostRuntime, path: &[u8]) -> Option<fs::File> {
    match input::open(rt, path) {
        Ok(file) => {
            if is_readable(rt, &file, path) {
                Some(file)
            } else {
                None
            }
        }
        Err(error) => {
            input::complain(rt, b"netdiff", path, &error);
            None
        }
    }
}

// Opens the file that argument i names, and tries to read it; none says that it cannot be read.
fn opened(rt: &HostRuntime, i: usize) -> Option<fs::File> {
    let mut path = [0u8; input::ROOM];
    match rt.arg(i, &mut path) {
        Ok(n) => opened_by_name(rt, &path[..n]),
        Err(_) => {
            let name = b"the file that an argument names";
            input::complain(rt, b"netdiff", name, &input::too_long());
            None
        }
    }
}

// How many bytes a file has; one that cannot tell has none, and is read to its end all the same.
fn bytes_of(file: &File) -> u64 {
    (&file.bytes).seek(SeekFrom::End(0)).unwrap_or(0)
}

// Whether a file is whole records.
fn is_trace(rt: &HostRuntime, file: &File) -> bool {
    let bytes = bytes_of(file);
    if bytes as usize % RECORD_BYTES != 0 {
        say_no_trace(rt, file.argument, bytes);
        return false;
    }
    true
}

// Compares the two files, on one channel or on each.
fn compare_files(rt: &HostRuntime, files: &Files, channel: Option<u8>) {
    if !is_trace(rt, &files.first) || !is_trace(rt, &files.second) {
        return;
    }
    match channel {
        Some(channel) => lay_beside(rt, files, channel),
        None => lay_all_beside(rt, files),
    }
}

// Compares the files that the first two arguments name.
fn compare_named(rt: &HostRuntime, channel: Option<u8>) {
    let Some(bytes) = opened(rt, 1) else {
        return;
    };
    let first = File { bytes, argument: 1 };
    let Some(bytes) = opened(rt, 2) else {
        return;
    };
    let second = File { bytes, argument: 2 };
    compare_files(rt, &Files { first, second }, channel);
}

fn main(rt: HostRuntime) {
    if !input::has_argument(&rt, 2) || input::has_argument(&rt, 4) {
        say_usage(&rt);
        return;
    }
    if !input::has_argument(&rt, 3) {
        compare_named(&rt, None);
        return;
    }
    if let Some(channel) = channel_asked(&rt) {
        compare_named(&rt, Some(channel));
    }
}
