// A line of a script, read (docs/SCRIPTS.md): a command with its data, or what happens on the line to a try or to its answer.
#![tactic(auto)]

ghost use Rattle.std.specs.Prelude.{◌≡◌, length};
ghost use Rattle.std.proofs.lemmas.List.Edits.{sets};
ghost use Rattle.writing.specs.Words.{behind as behind_of};
ghost use Rattle.script.specs.Script.{number_of, says_nothing, byte_of, replacing, becomes_in, named_in, numbered, command_with, coded, act_of, content_of};

use faults::Fault;
use writing::content::{is_plain, unescape};
use writing::words::{behind, digit, is, word};

// The most data bytes of a command in a script.
pub const MOST_CONTENT: usize = 255;

// What a line says: nothing; a command, whose data is so many bytes; or what happens to a try, or to its answer.
#[derive(Clone, Copy)]
pub enum Act {
    Nothing,
    Command {
        code: u8,
        count: usize,
    },
    Happens {
        answer: bool,
        attempt: u8,
        fault: Fault,
    },
}

// SCRIPTS 6: what is wrong with a line; or another number, which is the caller's own.
#[derive(Clone, Copy, PartialEq, Eq)]
pub enum Mistake {
    NoCommand,
    NoEscape,
    TooLong,
    NoTry,
    NoFault,
    Other(u8),
}

// The number that SCRIPTS 6 gives it.
pub fn number(mistake: Mistake) -> u8
    ensures { result ≡ number_of mistake }
{
    match mistake {
        Mistake::NoCommand => 1,
        Mistake::NoEscape => 2,
        Mistake::TooLong => 3,
        Mistake::NoTry => 4,
        Mistake::NoFault => 5,
        Mistake::Other(n) => n,
    }
}

// One line, without its line feed. The data of a command goes to the front of `buf`.
pub fn read_line(line: &[u8], buf: &mut [u8]) -> Result<Act, Mistake>
    ensures value { result ≡ act_of line.now (length buf.old) }
    ensures buf_after { buf.new ≡ sets buf.old 0 (content_of result (behind_of line.now)) }
{
    if says_nothing(line) {
        return Ok(Act::Nothing);
    }
    let first = word(line);
    let rest = behind(line);
    if is(first, b"try") {
        return numbered(false, figures::digits(word(rest), 1), behind(rest));
    }
    if is(first, b"answer") {
        return numbered(true, figures::digits(word(rest), 1), behind(rest));
    }
    coded(figures::digits(first, 3), rest, buf)
}

fn says_nothing(line: &[u8]) -> bool
    ensures { result ≡ says_nothing line.now }
{
    line.is_empty() || text::begins_with(line, b'#')
}

// What happens to the try of a number, or to its answer.
fn numbered(answer: bool, number: Option<u64>, s: &[u8]) -> Result<Act, Mistake>
    ensures { result ≡ numbered answer number s.now }
{
    let Some(n) = number else {
        return Err(Mistake::NoTry);
    };
    if (1 <= n) & (n <= 5) {
        let fault = named_in(s).ok_or(Mistake::NoFault)?;
        return Ok(Act::Happens {
            answer,
            attempt: n as u8,
            fault,
        });
    }
    Err(Mistake::NoTry)
}

// `lost`, or `byte PLACE becomes HH`.
fn named_in(s: &[u8]) -> Option<Fault>
    ensures { result ≡ named_in s.now }
{
    if is(s, b"lost") {
        return Some(Fault::Lost);
    }
    if is(word(s), b"byte") {
        return becomes_in(behind(s));
    }
    None
}

// `PLACE becomes HH`.
fn becomes_in(s: &[u8]) -> Option<Fault>
    ensures { result ≡ becomes_in s.now }
{
    let rest = behind(s);
    if is(word(rest), b"becomes") {
        return replacing(figures::digits(word(s), 3), behind(rest));
    }
    None
}

fn replacing(number: Option<u64>, s: &[u8]) -> Option<Fault>
    ensures { result ≡ replacing number s.now }
{
    let Some(place) = number else {
        return None;
    };
    let byte = byte_of(s)?;
    if place < 1 {
        return None;
    }
    Some(Fault::Becomes {
        place: place as usize,
        byte,
    })
}

// Two hexadecimal digits, and the byte that they say.
fn byte_of(s: &[u8]) -> Option<u8>
    ensures { result ≡ byte_of s.now }
{
    let [high, low] = s else {
        return None;
    };
    let high = digit(*high)?;
    let low = digit(*low)?;
    Some(high * 16 + low)
}

// A code, and its data.
fn coded(number: Option<u64>, s: &[u8], buf: &mut [u8]) -> Result<Act, Mistake>
    ensures value { result ≡ coded number s.now (length buf.old) }
    ensures buf_after { buf.new ≡ sets buf.old 0 (content_of result s.now) }
{
    let Some(n) = number else {
        return Err(Mistake::NoCommand);
    };
    if (1 <= n) & (n <= 255) {
        return command_with(n as u8, s, buf);
    }
    Err(Mistake::NoCommand)
}

// The data is read twice: first for its form and its length, then into the buffer.
fn command_with(code: u8, s: &[u8], buf: &mut [u8]) -> Result<Act, Mistake>
    ensures value { result ≡ command_with code s.now (length buf.old) }
    ensures buf_after { buf.new ≡ sets buf.old 0 (content_of result s.now) }
{
    let mut none = [0u8; 1];
    let read = unescape(s, &mut none);
    if !is_plain(read.stand) {
        return Err(Mistake::NoEscape);
    }
    if MOST_CONTENT.min(buf.len()) < read.count {
        return Err(Mistake::TooLong);
    }
    unescape(s, buf);
    Ok(Act::Command {
        code,
        count: read.count,
    })
}
