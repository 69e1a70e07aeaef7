// What the programs ask of the system: words go out whole and at once, in the system's own words where something failed; arguments come in;
// files are opened. What the system answers no contract can say.
#![tactic(auto)]

ghost use Rattle.std.specs.Prelude.{◌≤◌, length};

use std::env::{Env, FillError};
use std::fmt;
use std::fs::{File, OpenOptions};
use std::io::{Error, ErrorKind, Print, Result, Stderr, Stdout};
use std::rt::Files;

// As many bytes as any path has.
pub const NAME_ROOM: usize = 4096;

// More than any of the system's words for an error.
const WORDS_ROOM: usize = 128;

// Standard output, and standard error for what can't be written there.
#[derive(Clone, Copy)]
pub struct Outlets {
    pub output: Stdout,
    pub errors: Stderr,
}

// The system's words for an error, as they are gathered.
#[derive(Drop)]
struct Words {
    bytes: [u8; WORDS_ROOM],
    count: usize,
}

impl fmt::Write for Words {
    fn write_str(&mut self, s: &str) -> fmt::Result {
        for b in s.as_bytes() {
            if self.count < WORDS_ROOM {
                self.bytes[self.count] = *b;
                self.count += 1;
            }
        }
        Ok(())
    }
}

// All of the bytes on standard output, or a message.
pub fn put(to: Outlets, bytes: &[u8]) {
    if let Err(why) = to.output.write_all(bytes) {
        fail(&to.errors, b"error: standard output can't be written", &why);
    }
}

// All of the bytes; whether they were taken.
pub fn write(to: &impl Print, bytes: &[u8]) -> bool {
    to.write_all(bytes).is_ok()
}

// A number, in decimal; whether it was taken.
pub fn number(to: &impl Print, n: u64) -> bool {
    to.print(n).is_ok()
}

// A line that says what failed, and why.
pub fn fail(to: &impl Print, what: &[u8], why: &Error) {
    write(to, what);
    write(to, b": ");
    tell(to, why);
    write(to, b"\n");
}

// The words alone: the number that stands behind them says nothing to a reader.
fn tell(to: &impl Print, why: &Error) {
    let mut words = Words {
        bytes: [0u8; WORDS_ROOM],
        count: 0,
    };
    let _ = fmt::Write::write(&mut words, why);
    let count = words_end(&words.bytes, words.count);
    write(to, &words.bytes[..count]);
}

// Where the words end, before the bracket with the number, of as many bytes.
fn words_end(bytes: &[u8; WORDS_ROOM], count: usize) -> usize
    ensures { result ≤ 128 }
{
    for i in 1..WORDS_ROOM {
        if i < count && bytes[i] == b'(' {
            return i - 1;
        }
    }
    if WORDS_ROOM < count {
        return WORDS_ROOM;
    }
    count
}

// How many arguments there are, the program's own name counted.
pub fn arg_count(rt: &impl Env) -> usize {
    let mut room = [0u8; 8];
    for i in 0..usize::MAX {
        if let Err(FillError::NotPresent) = rt.arg(i, &mut room) {
            return i;
        }
    }
    usize::MAX
}

// An argument, in the first bytes, and how many it has: none where there is no such argument, or where it is longer than the buffer.
pub fn arg(rt: &impl Env, i: usize, bytes: &mut [u8]) -> usize
    ensures { result ≤ length bytes.new }
{
    match rt.arg(i, bytes) {
        Ok(n) => n,
        Err(_) => 0,
    }
}

// A name that is opened is UTF-8.
pub fn text_of(name: &[u8]) -> Result<&str> {
    match str::from_utf8(name) {
        Ok(text) => Ok(text),
        Err(_) => Err(Error::new(ErrorKind::InvalidInput, "The name is no UTF-8")),
    }
}

// A file to read.
pub fn open_read<R: Files<File = File>>(rt: &R, name: &[u8]) -> Result<File> {
    OpenOptions::new().read(true).open(rt, text_of(name)?)
}

// A file to read and to write, as it is.
pub fn open_update<R: Files<File = File>>(rt: &R, name: &[u8]) -> Result<File> {
    OpenOptions::new()
        .read(true)
        .write(true)
        .open(rt, text_of(name)?)
}
