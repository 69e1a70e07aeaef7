// What is told of a command, of its tries and of what the device makes of them (SCRIPTS 7, 8), put into a lent buffer. Each function says the
// place behind its text, or the buffer's end.
#![tactic(auto)]

ghost use Rattle.std.specs.Prelude.{◌≡◌, [], eqb};
ghost use Rattle.sentences.specs.Put.{Put};
ghost use Rattle.sentences.specs.Filled.{filled};
ghost use Rattle.phrases.specs.Sentences.{hears_nothing};
ghost use Rattle.telling.specs.Telling.{heading_text, way_text, fate_text, why_text, done_text, call_text, shows_text};
ghost use Rattle.telling.specs.Private.{way_row};

use faults::Fault;
use line::Call;
use phrases::{plain, sentence, worded};
use reasons::Reason;
use sentences::{front, put};

// Rows of the table of sentences.
const HEADING: usize = 0;

const HEADING_BRIEF: usize = 1;

const WHOLE: usize = 6;

const BECOMES: usize = 7;

const LOST: usize = 8;

const SILENCE: usize = 9;

const QUIET: usize = 10;

const BROKEN: usize = 11;

const REPEATED: usize = 12;

const DONE: usize = 13;

const WHY: usize = 14;

const LINE_END: usize = 15;

const DISPLAYS: usize = 32;

// SCRIPTS 7: a command as it stands in the script, and what it is called; 8: with what becomes of it behind it on the same line.
pub fn heading(buf: &mut [u8], at: usize, brief: bool, code: u8, line: &[u8]) -> usize
    ensures { Put buf.old at (heading_text brief code line.now) buf.new result }
{
    let next = put(buf, at, line);
    let row = if brief { HEADING_BRIEF } else { HEADING };
    worded(buf, next, row, words::command_word(code), &[])
}

// A try on its way, or its answer on the way back: its number, how many bytes it has, and what happens to it.
pub fn way(buf: &mut [u8], at: usize, answer: bool, n: u8, count: usize, fault: Fault) -> usize
    ensures { Put buf.old at (way_text answer n count fault) buf.new result }
{
    let figures = [n as u64, count as u64];
    let next = sentence(buf, at, way_row(answer, count), b"", &figures);
    fate(buf, next, fault)
}

fn way_row(answer: bool, count: usize) -> usize
    ensures { result ≡ way_row answer (eqb count 1) }
{
    match (answer, count == 1) {
        (true, true) => 4,
        (true, false) => 5,
        (false, true) => 2,
        (false, false) => 3,
    }
}

// What happens on the way.
fn fate(buf: &mut [u8], at: usize, fault: Fault) -> usize
    ensures { Put buf.old at (fate_text fault) buf.new result }
{
    match fault {
        Fault::Nothing => sentence(buf, at, WHOLE, b"", &[0, 0]),
        Fault::Becomes { place, byte } => sentence(
            buf,
            at,
            BECOMES,
            b"",
            &[place as u64, byte as u64],
        ),
        Fault::Lost => sentence(buf, at, LOST, b"", &[0, 0]),
    }
}

// Nothing arrives at the device.
pub fn silence(buf: &mut [u8], at: usize) -> usize
    ensures { Put buf.old at (filled hears_nothing [] []) buf.new result }
{
    plain(buf, at, SILENCE, b"")
}

// What the device made of some bytes, by the reply number and the first reason against a command.
pub fn call(
    buf: &mut [u8],
    at: usize,
    call: Call,
    number: u64,
    taken: usize,
    reason: Reason,
) -> usize
    ensures { Put buf.old at (call_text call number taken reason) buf.new result }
{
    let figures = [taken as u64];
    match call {
        Call::Quiet => sentence(buf, at, QUIET, b"", &figures),
        Call::Nak => sentence(buf, at, BROKEN, b"", &figures),
        Call::Again => sentence(buf, at, REPEATED, b"", &figures),
        Call::Order { .. } => done(buf, at, number, reason),
    }
}

// A command carried out, or refused.
fn done(buf: &mut [u8], at: usize, number: u64, reason: Reason) -> usize
    ensures { Put buf.old at (done_text number reason) buf.new result }
{
    let next = worded(buf, at, DONE, words::reply_word(number), &[number]);
    why(buf, next, number, reason)
}

// The reason for a refusal.
fn why(buf: &mut [u8], at: usize, number: u64, reason: Reason) -> usize
    ensures { Put buf.old at (why_text number reason) buf.new result }
{
    if number == 0 {
        return plain(buf, at, LINE_END, b"");
    }
    worded(buf, at, WHY, words::reason_word(reason), &[])
}

// What the display shows, from its lent buffer; nothing where no text is shown.
pub fn shows(buf: &mut [u8], at: usize, told: Option<usize>, display: &[u8]) -> usize
    ensures { Put buf.old at (shows_text told display.now) buf.new result }
{
    match told {
        None => put(buf, at, b""),
        Some(n) => plain(buf, at, DISPLAYS, front(display, n)),
    }
}
