// A recording: all the bytes that a fresh device heard (PROTOCOL 1.1); and any part of the line's bytes, heard with the sheet by value.
#![tactic(auto)]

ghost use Rattle.std.specs.Prelude.{◌≡◌, replicate};
ghost use Rattle.sheet.specs.Sheet.{blank};
ghost use Rattle.recorder.specs.Recording.{recording, told_in};
ghost use Rattle.recorder.specs.Parts.{part_left, part_heard};

use books::Books;
use display::MOST_SHOWN;
use kept::Kept;
use reader::FRAME_ROOM;
use runs::hear_run;
use tape::start;
use wire::ANSWER_ROOM;

// A recording heard: the books at the end, and how many bytes stand in the two lent buffers.
#[derive(Clone, Copy)]
pub struct Recorded {
    pub books: Books,
    pub given: usize,
    pub listed: usize,
}

// A part heard: the device with its sheet, and how many bytes stand in the two lent buffers.
#[derive(Clone, Copy)]
pub struct Part {
    pub kept: Kept,
    pub given: usize,
    pub listed: usize,
}

// The bytes of a part, with the sheet held by value. Built into its caller, so that the compiler leaves out what that does not look at, as
// `printer` the display's buffer (PERFORMANCE, Today's forms).
#[inline(always)]
pub fn hear_part(
    kept: Kept,
    frame: &mut [u8; FRAME_ROOM],
    last: &mut [u8; ANSWER_ROOM],
    buf: &mut [u8],
    display: &mut [u8],
    bytes: &[u8],
    out: &mut [u8],
    orders: &mut [u8],
) -> Part
    ensures { part_left result frame.new last.new buf.new display.new out.new orders.new ≡ part_heard kept frame.old last.old buf.old display.old bytes.now out.old orders.old }
{
    let mut s = kept.sheet;
    let begun = start(kept.device, bytes.len());
    let run = hear_run(begun, frame, last, buf, display, &mut s, bytes, out, orders);
    Part {
        kept: Kept {
            device: run.device,
            sheet: s,
        },
        given: run.given,
        listed: run.listed,
    }
}

// A recorded session, heard by a fresh device that is always lent its 217 bytes, 40 for the display and a sheet on which nothing stood.
// What it gives back goes into `out`, the commands carried out into `orders`, as far as each reaches.
pub fn hear_all(bytes: &[u8], out: &mut [u8], orders: &mut [u8]) -> Recorded
    ensures { record { recorded = result; out = out.new; orders = orders.new } ≡ told_in out.old orders.old (recording (replicate 512 blank) bytes.now) }
{
    let mut frame = [0u8; FRAME_ROOM];
    let mut last = [0u8; ANSWER_ROOM];
    let mut buf = [0u8; ANSWER_ROOM];
    let mut display = [0u8; MOST_SHOWN];
    let kept = kept::fresh_kept();
    let part = hear_part(
        kept,
        &mut frame,
        &mut last,
        &mut buf,
        &mut display,
        bytes,
        out,
        orders,
    );
    let left = part.kept;
    let device = left.device;
    let books = device.books;
    Recorded {
        books,
        given: part.given,
        listed: part.listed,
    }
}
