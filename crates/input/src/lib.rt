// Input of programs: a stored net, which is the bytes of the file that the first argument names, or of standard input where there is none; and the next bytes of an open file.
#![tactic(auto)]

ghost use Rattle.std.specs.Prelude.{IfSome};
ghost use Rattle.std.specs.Counts.{IsPrefixLen};
ghost use Rattle.std.specs.Io.{ReadsAtMost};

use std::env::{Env, FillError};
use std::fs::File;
use std::io;
use std::io::{Print, Read, Write};

// As many bytes as a form is read with, and as the name of a file can have.
pub const ROOM: usize = 4096;

// The system's numbers of two errors: a name that is too long, and one that is no text.
const NAME_TOO_LONG: i32 = 36;

const NAME_NO_TEXT: i32 = 84;

// What stands between an error's text and its number where it is shown.
const BEFORE_NUMBER: &str = " (os error ";

// Writes on standard error. Where that fails there is nothing left to say it with.
pub fn say(rt: &HostRuntime, text: &[u8]) {
    let _ = rt.stderr().write_all(text);
}

// Writes the system's text for an error on standard error.
// stays: the system's text without its number, which Display does not leave out.
fn say_reason(rt: &HostRuntime, error: &io::Error) {
    let mut text = [0u8; 256];
    let mut room: &mut [u8] = &mut text;
    let _ = write!(room, "{error}");
    let shown = str::from_utf8(&text).unwrap_or("");
    let reason = match shown.split_once(BEFORE_NUMBER) {
        Some((before, _)) => before,
        None => shown.trim_end_matches('\0'),
    };
    say(rt, reason.as_bytes());
}

// Says on standard error why the input cannot be read.
pub fn complain(rt: &HostRuntime, program: &[u8], name: &[u8], error: &io::Error) {
    say(rt, program);
    say(rt, b": cannot read ");
    say(rt, name);
    say(rt, b": ");
    say_reason(rt, error);
    say(rt, b"\n");
}

// Whether the program was started with an argument i; its own name is number 0.
pub fn has_argument(rt: &impl Env, i: usize) -> bool {
    !matches!(rt.arg(i, &mut []), Err(FillError::NotPresent))
}

// Why an argument does not name a file that can be read: it is too long.
pub fn too_long() -> io::Error {
    io::Error::from_raw_os_error(NAME_TOO_LONG)
}

// Opens the file of that name. A name that is no UTF-8 cannot be opened.
pub fn open(rt: &HostRuntime, name: &[u8]) -> io::Result<File> {
    match str::from_utf8(name) {
        Ok(path) => File::open(rt, path),
        Err(_) => Err(io::Error::from_raw_os_error(NAME_NO_TEXT)),
    }
}

// Reads until the buffer is full, the input ends or a read fails.
pub fn read_all<R: Read>(input: &mut R, buf: &mut [u8]) -> io::Result<usize>
    ensures { ReadsAtMost result buf.new }
{
    let mut done: usize = 0;
    // stays: no index is counted, a turn goes on by as much as a read gives.
    while done < buf.len() {
        let n = input.read(&mut buf[done..])?;
        if n == 0 {
            break;
        }
        done += n;
    }
    Ok(done)
}

// Puts an open input at the start of the buffer and gives the number of its bytes; where that fails, says so with its name.
fn read_open<R: Read>(
    rt: &HostRuntime,
    program: &[u8],
    input: &mut R,
    name: &[u8],
    buf: &mut [u8],
) -> Option<usize>
    ensures { IfSome result (λ n. IsPrefixLen n buf.new) }
{
    match read_all(input, buf) {
        Ok(bytes) => Some(bytes),
        Err(error) => {
            complain(rt, program, name, &error);
            None
        }
    }
}

// Reads the file of that name.
fn read_named(rt: &HostRuntime, program: &[u8], name: &[u8], buf: &mut [u8]) -> Option<usize>
    ensures { IfSome result (λ n. IsPrefixLen n buf.new) }
{
    match open(rt, name) {
        Ok(mut file) => read_open(rt, program, &mut file, name, buf),
        Err(error) => {
            complain(rt, program, name, &error);
            None
        }
    }
}

// Reads the file that the first argument names.
fn read_file(rt: &HostRuntime, program: &[u8], buf: &mut [u8]) -> Option<usize>
    ensures { IfSome result (λ n. IsPrefixLen n buf.new) }
{
    let mut path = [0u8; ROOM];
    match rt.arg(1, &mut path) {
        Ok(length) => read_named(rt, program, &path[..length], buf),
        Err(_) => {
            complain(
                rt,
                program,
                b"the file that the first argument names",
                &too_long(),
            );
            None
        }
    }
}

// Puts the input's first bytes at the start of the buffer and gives their number, or none where it cannot be read, which is then said. 4,096 of them tell what a longer input holds as a form: no field lies beyond byte 628, and a byte follows either way.
pub fn read_form(rt: &HostRuntime, program: &[u8], buf: &mut [u8]) -> Option<usize>
    ensures { IfSome result (λ n. IsPrefixLen n buf.new) }
{
    if !has_argument(rt, 1) {
        return read_open(rt, program, &mut rt.stdin(), b"standard input", buf);
    }
    read_file(rt, program, buf)
}
