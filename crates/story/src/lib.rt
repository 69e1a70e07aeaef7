// What is told of a call of the device, and at the end of the recording, put into a lent buffer (EXPLAIN 2). Each function says the place behind
// its text, or the buffer's end.
#![tactic(auto)]

ghost use Rattle.sentences.specs.Put.{Put};
ghost use Rattle.story.specs.Story.{part_text, broken_text, repeated_text, order_text, told_text, call_text, ends_text};

use items::{Four, Kind};
use line::Call;
use pages::put_end;
use reader::FRAME_ROOM;
use reasons::Reason;
use sentences::put;
use trail::Trail;

// A call took these bytes behind those of the trail; the last of them brought it. What it gave back is `given`, what is shown stands in `display`.
pub fn put_call(
    buf: &mut [u8],
    at: usize,
    html: bool,
    trail: Trail,
    shadow: &[u8; FRAME_ROOM],
    taken: &[u8],
    call: Call,
    number: u64,
    reason: Reason,
    given: &[u8],
    shows: Option<usize>,
    display: &[u8],
) -> usize
    ensures { Put buf.old at (call_text html trail shadow.now taken.now call number reason given.now shows display.now) buf.new result }
{
    let n = taken.len();
    if n == 0 {
        return put(buf, at, b"");
    }
    let mut near = *shadow;
    let before = trail::follow(trail, &mut near, &taken[..n - 1]);
    let byte = taken[n - 1];
    put_told(
        buf, at, html, before, &near, byte, call, number, reason, given, shows, display,
    )
}

// By what the last byte brought, with the trail up to it.
fn put_told(
    buf: &mut [u8],
    at: usize,
    html: bool,
    trail: Trail,
    shadow: &[u8; FRAME_ROOM],
    byte: u8,
    call: Call,
    number: u64,
    reason: Reason,
    given: &[u8],
    shows: Option<usize>,
    display: &[u8],
) -> usize
    ensures { Put buf.old at (told_text html trail shadow.now byte call number reason given.now shows display.now) buf.new result }
{
    match call {
        Call::Quiet => put(buf, at, b""),
        Call::Nak => put_broken(buf, at, html, trail, shadow, byte, number),
        Call::Again => put_repeated(buf, at, html, trail, shadow, byte, number, given),
        Call::Order { count, .. } => put_order(
            buf, at, html, trail, shadow, byte, count, number, reason, given, shows, display,
        ),
    }
}

// An order: what was asked; the reply, and of a refusal the reason; the display; the answer.
fn put_order(
    buf: &mut [u8],
    at: usize,
    html: bool,
    trail: Trail,
    shadow: &[u8; FRAME_ROOM],
    byte: u8,
    count: usize,
    number: u64,
    reason: Reason,
    given: &[u8],
    shows: Option<usize>,
    display: &[u8],
) -> usize
    ensures { Put buf.old at (order_text html trail shadow.now byte count number reason given.now shows display.now) buf.new result }
{
    let seq = shadow[1];
    let code = shadow[2];
    let kind = items::kind_of(Call::Order { seq, code, count }, number);
    let content = passages::data_of(shadow, count);
    let whole = passages::put_whole(buf, at, html, kind, trail, shadow, byte);
    let asked = passages::put_asked(buf, whole, html, code, content);
    let reply = passages::put_reply(buf, asked, html, number);
    let why = passages::put_reason(buf, reply, html, number, reason);
    let shown = passages::put_shown(buf, why, html, shows, display);
    let answer = unfolding::put_answer(buf, shown, html, code, given);
    put_end(buf, answer, html)
}

// A frame that is not whole: the bytes that came, and what was expected.
fn put_part(
    buf: &mut [u8],
    at: usize,
    html: bool,
    kind: Kind,
    trail: Trail,
    shadow: &[u8; FRAME_ROOM],
    lines: Four,
) -> usize
    ensures { Put buf.old at (part_text html kind trail shadow.now lines) buf.new result }
{
    let reader = trail.reader;
    let before = passages::put_skipped(buf, at, html, trail.start, trail.skipped);
    let head = pages::put_heading(buf, before, html, kind, trail.start, b"");
    let frame = passages::put_frame(buf, head, html, shadow, reader.count, b"");
    entries::put_four(buf, frame, html, lines)
}

// A byte broke the frame.
fn put_broken(
    buf: &mut [u8],
    at: usize,
    html: bool,
    trail: Trail,
    shadow: &[u8; FRAME_ROOM],
    byte: u8,
    number: u64,
) -> usize
    ensures { Put buf.old at (broken_text html trail shadow.now byte number) buf.new result }
{
    let reader = trail.reader;
    let expected = expecting::expected_at(reader, shadow);
    let lines = items::broken_items(reader.count, byte, expected);
    let part = put_part(buf, at, html, Kind::Broken, trail, shadow, lines);
    let reply = passages::put_reply(buf, part, html, number);
    put_end(buf, reply, html)
}

// A repeat, and the last answer once more.
fn put_repeated(
    buf: &mut [u8],
    at: usize,
    html: bool,
    trail: Trail,
    shadow: &[u8; FRAME_ROOM],
    byte: u8,
    number: u64,
    given: &[u8],
) -> usize
    ensures { Put buf.old at (repeated_text html trail shadow.now byte number given.now) buf.new result }
{
    let whole = passages::put_whole(buf, at, html, Kind::Repeat, trail, shadow, byte);
    let reply = passages::put_reply(buf, whole, html, number);
    let answer = unfolding::put_given(buf, reply, html, given);
    put_end(buf, answer, html)
}

// At the end of the recording: bytes outside frames, or a frame that it ends in.
pub fn put_ends(
    buf: &mut [u8],
    at: usize,
    html: bool,
    trail: Trail,
    shadow: &[u8; FRAME_ROOM],
) -> usize
    ensures { Put buf.old at (ends_text html trail shadow.now) buf.new result }
{
    let reader = trail.reader;
    if !reader.inside {
        return passages::put_skipped(buf, at, html, trail.offset, trail.skipped);
    }
    let expected = expecting::expected_at(reader, shadow);
    let lines = items::cut_items(reader.count, expected);
    let part = put_part(buf, at, html, Kind::Cut, trail, shadow, lines);
    put_end(buf, part, html)
}
