// A device told of a list of events, and what it gives back on each. The crate `events` says what an event is and what it lends.
#![tactic(auto)]

use display::MOST_SHOWN;
use events::{DEVICE_ROOM, End, Lent};
use feeding::Unfed;
use kept::{Kept, Next};
use reader::FRAME_ROOM;
use sheet::MOST_LINES;
use std::io::{Error, ErrorKind, Result};
use system::Outlets;
use wire::ANSWER_ROOM;

// More than all that is given back on an event.
const BUF_ROOM: usize = 65536;

// Events are read one by one to the end of the input.
fn main(rt: HostRuntime) {
    let to = Outlets {
        output: rt.stdout(),
        errors: rt.stderr(),
    };
    let mut frame = [0u8; FRAME_ROOM];
    let mut last = [0u8; ANSWER_ROOM];
    let mut event = [0u8; DEVICE_ROOM];
    let mut buf = [0u8; BUF_ROOM];
    let mut display = [0u8; MOST_SHOWN];
    let mut kept = kept::fresh_kept();
    for events in 0..u64::MAX {
        if let Err(why) = feeding::next_event(rt.stdin(), to.errors, End::Device, &mut event) {
            ended(to, why, events);
            return;
        }
        if events::switches_on(event) {
            kept = kept::switch_on(kept);
            continue;
        }
        let lent = events::lent_by(event, ANSWER_ROOM, MOST_LINES, MOST_SHOWN);
        let next = tell(kept, &mut frame, &mut last, lent, &mut buf, &mut display);
        let shows = next.shows;
        if let Err(why) = told(to, next.number, next.count, &buf, shows, &display) {
            unwritten(to, why);
            return;
        }
        kept = next.kept;
    }
}

// Why there are no more events: at the end of the input nothing is said.
fn ended(to: Outlets, why: Unfed, events: u64) {
    if why == Unfed::Ended {
        return;
    }
    system::write(&to.errors, b"error: after ");
    system::number(&to.errors, events);
    system::write(
        &to.errors,
        b" events comes one that is cut short or is none: 4Fh, or 42h and a byte, or 53h, 0 to 2, two bytes of length and a byte\n",
    );
}

fn unwritten(to: Outlets, why: Error) {
    system::fail(&to.errors, b"error: standard output can't be written", &why);
}

// A byte with this much lent.
fn tell(
    kept: Kept,
    frame: &mut [u8; FRAME_ROOM],
    last: &mut [u8; ANSWER_ROOM],
    lent: Lent,
    buf: &mut [u8],
    display: &mut [u8],
) -> Next {
    let bytes = [lent.byte];
    let room = lent.room.min(buf.len());
    let shown = lent.shown.min(display.len());
    lending::hear_lent(
        kept,
        frame,
        last,
        &mut buf[0..room],
        &mut display[0..shown],
        lent.lines,
        &bytes,
        0,
    )
}

// What an event gave back, and what is shown.
fn told(
    to: Outlets,
    number: u64,
    count: usize,
    buf: &[u8],
    shows: Option<usize>,
    display: &[u8],
) -> Result<()> {
    say(to, number, count, buf)?;
    show(to, shows, display)
}

// The reply number, the count, as many bytes.
fn say(to: Outlets, number: u64, count: usize, buf: &[u8]) -> Result<()> {
    let head = [(number % 256) as u8, (count % 256) as u8];
    to.output.write_all(&head)?;
    if buf.len() < count {
        return Err(too_many());
    }
    to.output.write_all(&buf[0..count])
}

// 00h, where no text is shown; else 01h, the number of its bytes, and the text.
fn show(to: Outlets, shows: Option<usize>, display: &[u8]) -> Result<()> {
    match shows {
        None => {
            let none = [0u8];
            to.output.write_all(&none)
        }
        Some(n) => show_text(to, n.min(display.len()), display),
    }
}

fn show_text(to: Outlets, n: usize, display: &[u8]) -> Result<()> {
    if display.len() < n {
        return Err(too_many());
    }
    let head = [1u8, (n % 256) as u8];
    to.output.write_all(&head)?;
    to.output.write_all(&display[0..n])
}

fn too_many() -> Error {
    Error::new(
        ErrorKind::InvalidData,
        "more bytes are counted than there are",
    )
}
