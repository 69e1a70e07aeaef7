// A whole recording told, part by part and call by call.
use display::MOST_SHOWN;
use reader::FRAME_ROOM;
use sentences::front;
use std::fs::File;
use std::io::{Read, Stdin};
use system::Outlets;
use trail::Trail;
use wire::ANSWER_ROOM;
use witness::{Seen, see};

// More than the longest telling of a call. In a page a line has 28 bytes of marks, a byte has up to five letters. So the frame takes at most 804
// bytes; its data as a whole and its texts 2,700; an answer of 217 bytes 685, and its data, were it nothing but commas, 6,300; 42 status bits
// 3,600; all other lines 1,600.
const TELLING_ROOM: usize = 16384;

// As many bytes are read at once, if they are there.
const PART_ROOM: usize = 4096;

// A recording that is open for reading: standard input, or a file.
#[derive(Drop)]
pub(crate) enum Recording {
    Input(Stdin),
    Named(File),
}

// Bytes of a part that are not yet heard: from a place to the end of what was read.
#[derive(Clone, Copy)]
struct Span {
    from: usize,
    count: usize,
}

// The recording that is open for reading, from here to its end.
pub(crate) fn tell(to: Outlets, recording: &mut Recording, html: bool) {
    let mut bytes = [0u8; PART_ROOM];
    let mut frame = [0u8; FRAME_ROOM];
    let mut last = [0u8; ANSWER_ROOM];
    let mut shadow = [0u8; FRAME_ROOM];
    let mut kept = kept::fresh_kept();
    let mut trail = trail::fresh();
    let mut span = Span { from: 0, count: 0 };
    for _ in 0..i64::MAX {
        span = refill(to, recording, &mut bytes, span);
        if span.count == 0 {
            tell_end(to, html, trail, &shadow);
            return;
        }
        let mut buf = [0u8; ANSWER_ROOM];
        let mut text = [0u8; MOST_SHOWN];
        let read = part(&bytes, span.count);
        let at = span.from;
        let seen = see(kept, &mut frame, &mut last, &mut buf, &mut text, read, at);
        kept = seen.next.kept;
        let taken = taken_of(&bytes, span, seen.next.taken);
        tell_call(to, html, trail, &shadow, taken, seen, &buf, &text);
        trail = trail::follow(trail, &mut shadow, taken);
        span = behind(span, seen.next.taken);
    }
}

// What is told of a call, written at once.
fn tell_call(
    to: Outlets,
    html: bool,
    trail: Trail,
    shadow: &[u8; FRAME_ROOM],
    taken: &[u8],
    seen: Seen,
    buf: &[u8; ANSWER_ROOM],
    display: &[u8; MOST_SHOWN],
) {
    let next = seen.next;
    let given = front(buf, next.count);
    let mut text = [0u8; TELLING_ROOM];
    let n = story::put_call(
        &mut text,
        0,
        html,
        trail,
        shadow,
        taken,
        next.call,
        next.number,
        seen.reason,
        given,
        next.shows,
        display,
    );
    system::write(&to.output, front(&text, n));
}

fn tell_end(to: Outlets, html: bool, trail: Trail, shadow: &[u8; FRAME_ROOM]) {
    let mut text = [0u8; TELLING_ROOM];
    let n = story::put_ends(&mut text, 0, html, trail, shadow);
    system::write(&to.output, front(&text, n));
}

// The bytes that are not yet heard; where there are none, as much of the recording as is there: nothing at its end, or where it can't be read.
fn refill(to: Outlets, recording: &mut Recording, bytes: &mut [u8; PART_ROOM], span: Span) -> Span {
    if span.from < span.count {
        return span;
    }
    Span {
        from: 0,
        count: read(to, recording, bytes),
    }
}

fn read(to: Outlets, recording: &mut Recording, bytes: &mut [u8; PART_ROOM]) -> usize {
    let got = match recording {
        Recording::Input(input) => input.read(bytes),
        Recording::Named(file) => file.read(bytes),
    };
    match got {
        Ok(n) => n,
        Err(why) => {
            system::fail(
                &to.errors,
                b"error: the recording can't be read: what is told ends before it does",
                &why,
            );
            0
        }
    }
}

fn part(bytes: &[u8; PART_ROOM], n: usize) -> &[u8] {
    front(bytes, n)
}

// The first of the bytes that are not yet heard, as many as were taken.
fn taken_of(bytes: &[u8; PART_ROOM], span: Span, taken: usize) -> &[u8] {
    let read = part(bytes, span.count);
    let from = span.from.min(read.len());
    front(&read[from..], taken)
}

// Those behind them: none where all were taken.
fn behind(span: Span, taken: usize) -> Span {
    let from = span.from.saturating_add(taken).min(span.count);
    Span { from, ..span }
}
