// The parts of what is told of a frame, put into a lent buffer (EXPLAIN 2). Each function says the place behind its text, or the buffer's end.
#![tactic(auto)]

ghost use Rattle.std.specs.Prelude.{◌≡◌, take, drop};
ghost use Rattle.sentences.specs.Put.{Put};
ghost use Rattle.pages.specs.Pages.{headed};
ghost use Rattle.words.specs.Names.{command_word};
ghost use Rattle.passages.specs.Passages.{skipped_text, frame_text, names_text, whole_text, asked_text, reply_text, reason_text, shown_text};

use entries::{put_bytes, put_four, put_item, put_said, put_some};
use items::{Item, Kind, Label, Value};
use pages::put_heading;
use reader::FRAME_ROOM;
use reasons::Reason;
use sentences::{front, put};
use trail::Trail;

// The bytes outside frames that end where the next frame begins, if there are any.
pub fn put_skipped(buf: &mut [u8], at: usize, html: bool, end: u64, count: u64) -> usize
    ensures { Put buf.old at (skipped_text html end count) buf.new result }
{
    if count == 0 {
        return put(buf, at, b"");
    }
    let begin = end.saturating_sub(count);
    let told = put_heading(buf, at, html, Kind::Skipped, begin, b"");
    let label = Label::Skipped;
    let value = Value::Number(count);
    let next = put_item(buf, told, html, Some(Item { label, value }));
    pages::put_end(buf, next, html)
}

// 01h, the bytes behind it, and the last one.
pub fn put_frame(
    buf: &mut [u8],
    at: usize,
    html: bool,
    shadow: &[u8; FRAME_ROOM],
    count: u8,
    last: &[u8],
) -> usize
    ensures { Put buf.old at (frame_text html shadow.now count last.now) buf.new result }
{
    let start = [0x01];
    let behind = front(shadow, count as usize);
    put_bytes(buf, at, html, Label::Frame, &start, behind, last)
}

// A whole frame: what it is, its bytes, SEQ and CMD.
pub fn put_whole(
    buf: &mut [u8],
    at: usize,
    html: bool,
    kind: Kind,
    trail: Trail,
    shadow: &[u8; FRAME_ROOM],
    byte: u8,
) -> usize
    ensures { Put buf.old at (whole_text html kind trail shadow.now byte) buf.new result }
{
    let reader = trail.reader;
    let before = put_skipped(buf, at, html, trail.start, trail.skipped);
    let head = put_command(buf, before, html, kind, trail.start, shadow[2]);
    let last = [byte];
    let next = put_frame(buf, head, html, shadow, reader.count, &last);
    put_names(buf, next, html, shadow[1], shadow[2])
}

// The heading by the command's word.
fn put_command(buf: &mut [u8], at: usize, html: bool, kind: Kind, offset: u64, code: u8) -> usize
    ensures { Put buf.old at (headed html kind offset (command_word code)) buf.new result }
{
    let name = words::command_word(code);
    let word = name.bytes;
    put_heading(buf, at, html, kind, offset, front(&word, name.count))
}

fn put_names(buf: &mut [u8], at: usize, html: bool, seq: u8, code: u8) -> usize
    ensures { Put buf.old at (names_text html seq code) buf.new result }
{
    let seq = Item {
        label: Label::Seq,
        value: Value::Byte(seq),
    };
    let code = Item {
        label: Label::Cmd,
        value: Value::Number(code as u64),
    };
    let next = put_item(buf, at, html, Some(seq));
    put_item(buf, next, html, Some(code))
}

// The data behind LEN, SEQ and CMD.
pub fn data_of(shadow: &[u8], count: usize) -> &[u8]
    ensures { result.now ≡ take count (drop 3 shadow.now) }
{
    if shadow.len() < 3 {
        return &shadow[..0];
    }
    front(&shadow[3..], count)
}

// The data, its texts, and what else it is read as.
pub fn put_asked(buf: &mut [u8], at: usize, html: bool, code: u8, content: &[u8]) -> usize
    ensures { Put buf.old at (asked_text html code content.now) buf.new result }
{
    let told = put_some(buf, at, html, Label::Data, content);
    let first = command::first_text(code, content);
    let one = put_some(buf, told, html, Label::Text, first);
    let second = command::second_text(code, content);
    let two = put_some(buf, one, html, Label::SecondText, second);
    let lines = items::asked::asked_of(command::parse(code, content));
    put_four(buf, two, html, lines)
}

// The reply number, and what it says.
pub fn put_reply(buf: &mut [u8], at: usize, html: bool, number: u64) -> usize
    ensures { Put buf.old at (reply_text html number) buf.new result }
{
    let name = words::reply_word(number);
    let bytes = name.bytes;
    let figures = [number];
    let word = front(&bytes, name.count);
    put_said(buf, at, html, Label::Reply, b" #, ~", word, &figures)
}

// The reason, where there is one.
pub fn put_reason(buf: &mut [u8], at: usize, html: bool, number: u64, reason: Reason) -> usize
    ensures { Put buf.old at (reason_text html number reason) buf.new result }
{
    if number == 0 {
        return put(buf, at, b"");
    }
    let name = words::reason_word(reason);
    let bytes = name.bytes;
    let none = [0u64; 1];
    let word = front(&bytes, name.count);
    put_said(buf, at, html, Label::Reason, b" ~", word, &none[..0])
}

// The text on the display, where one is shown; it can have no bytes.
pub fn put_shown(
    buf: &mut [u8],
    at: usize,
    html: bool,
    shows: Option<usize>,
    display: &[u8],
) -> usize
    ensures { Put buf.old at (shown_text html shows display.now) buf.new result }
{
    match shows {
        None => put(buf, at, b""),
        Some(n) => { entries::put_text(buf, at, html, Label::OnDisplay, front(display, n)) }
    }
}
