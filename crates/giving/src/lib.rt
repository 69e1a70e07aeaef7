// The second half of a call of the device: what was asked for is given (PROTOCOL 1.10, 1.11, 2.5). It does not touch the sheet.
#![tactic(auto)]

ghost use Rattle.std.specs.Prelude.{◌≡◌, ◌≤◌, length};
ghost use Rattle.std.proofs.lemmas.List.Edits.{sets};
ghost use Rattle.sheet.specs.Sheet.{match_at};
ghost use Rattle.line.specs.Turns.{last_answer};
ghost use Rattle.line.specs.Calls.{before_of};
ghost use Rattle.carrying.specs.Work.{worked};
ghost use Rattle.giving.specs.Ending.{staying_with, hands_back, carried_behind, ending_as, ending};
ghost use Rattle.giving.specs.Private.{AtLength};

use carrying::Work;
use line::{Call, Port, Previous};
use machine::{Begun, Device, Given, Hearing};
use sheet::{Line, Note, Writes};
use wire::ANSWER_ROOM;

// What the call brought, and what is to be written into the sheet.
#[derive(Clone, Copy)]
pub struct Ended {
    pub hearing: Hearing,
    pub writes: Writes,
}

// What was asked for is given. `found` is the line of the sheet at which the search ended, `at` its place.
pub fn finish(
    begun: Begun,
    at: usize,
    found: Line,
    last: &mut [u8; ANSWER_ROOM],
    buf: &mut [u8],
) -> Ended
    ensures buf_after { record { ended = result; last = last.new; buffer = buf.new } ≡ ending begun at found last.old buf.old }
    ensures count_bound { result.hearing.given.count ≤ 217 }
{
    if !begun.enough {
        return end_with(begun, 7, 0, at, found);
    }
    if buf.len() < ANSWER_ROOM {
        return end_with(begun, 7, 0, at, found);
    }
    give(begun, at, found, last, buf)
}

// Nothing is carried out: the device and the sheet stay.
fn end_with(begun: Begun, number: u64, count: usize, at: usize, found: Line) -> Ended
    ensures { result ≡ staying_with begun number count at found }
{
    Ended {
        hearing: Hearing {
            given: Given {
                device: begun.device,
                number,
                count,
                shows: begun.shows,
            },
            call: begun.call,
            taken: begun.taken,
        },
        writes: sheet::writes_of(Note::Nothing, at, found, at),
    }
}

fn give(begun: Begun, at: usize, found: Line, last: &mut [u8], buf: &mut [u8]) -> Ended
    requires { AtLength last.old buf.old }
    ensures buf_after { record { ended = result; last = last.new; buffer = buf.new } ≡ ending_as begun.call begun at found last.old buf.old }
    ensures count_bound { result.hearing.given.count ≤ 217 }
{
    match begun.call {
        Call::Quiet => end_with(begun, 0, 0, at, found),
        Call::Nak => {
            text::put_byte(buf, 0, 0x15);
            end_with(begun, 5, 1, at, found)
        }
        Call::Again => {
            let count = again(begun.device.line.previous, &*last, buf);
            end_with(begun, 6, count, at, found)
        }
        Call::Order { seq, code, .. } => order(begun, seq, code, at, found, last, buf),
    }
}

// The last answer once more, byte for byte.
fn again(previous: Previous, last: &[u8], buf: &mut [u8]) -> usize
    ensures value { result ≡ length (last_answer (before_of previous last.now)) }
    ensures buf_after { buf.new ≡ sets buf.old 0 (last_answer (before_of previous last.now)) }
{
    match previous {
        Previous::Nothing => 0,
        Previous::Frame { count, .. } => {
            let n = count.min(last.len());
            text::put_bytes(buf, 0, &last[0..n]);
            n
        }
    }
}

// A command carried out, and its answer kept.
fn order(
    begun: Begun,
    seq: u8,
    code: u8,
    at: usize,
    found: Line,
    last: &mut [u8],
    buf: &mut [u8],
) -> Ended
    requires { AtLength last.old buf.old }
    ensures buf_after { record { ended = result; last = last.new; buffer = buf.new } ≡ carried_behind begun seq code at found last.old (worked begun.device.books (match_at at begun.lines found) seq code begun.passes begun.parsed buf.old) }
    ensures count_bound { result.hearing.given.count ≤ 217 }
{
    let m = sheet::match_at(at, begun.lines, found);
    let work = carrying::carry_out(
        begun.device.books,
        m,
        seq,
        code,
        begun.passes,
        begun.parsed,
        buf,
    );
    text::put_bytes(last, 0, &buf[0..work.count]);
    carried_out(begun, seq, code, work, at, found)
}

// What a command carried out hands back: it is the frame before from now on.
fn carried_out(begun: Begun, seq: u8, code: u8, work: Work, at: usize, found: Line) -> Ended
    ensures { result ≡ hands_back begun seq code work at found }
{
    let device = begun.device;
    let previous = Previous::Frame {
        seq,
        code,
        count: work.count,
    };
    Ended {
        hearing: Hearing {
            given: Given {
                device: Device {
                    line: Port {
                        previous,
                        ..device.line
                    },
                    books: work.books,
                    ..device
                },
                number: work.number,
                count: work.count,
                shows: begun.shows,
            },
            call: begun.call,
            taken: begun.taken,
        },
        writes: sheet::writes_of(work.note, at, found, device.books.receipt.lines as usize),
    }
}
