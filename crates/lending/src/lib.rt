// A device that is lent as many lines of its sheet as its caller says (PROTOCOL 2.4, DECISIONS 72).
#![tactic(auto)]

ghost use Rattle.std.specs.Prelude.{◌≡◌, ◌≤◌, ◌<◌, min, drop};
ghost use Rattle.machine.specs.Hearing.{after_part};
ghost use Rattle.kept.specs.ByValue.{machine_of, next_with};
ghost use Rattle.lending.specs.Lending.{stayed_as};

use kept::{Kept, Next};
use reader::FRAME_ROOM;
use sheet::MOST_LINES;
use wire::ANSWER_ROOM;

// What `device::hear` does with so many lines of the sheet, at most all.
pub fn hear_lent(
    kept: Kept,
    frame: &mut [u8; FRAME_ROOM],
    last: &mut [u8; ANSWER_ROOM],
    buf: &mut [u8],
    display: &mut [u8],
    lines: usize,
    bytes: &[u8],
    from: usize,
) -> Next
    ensures lines_after { next_with result frame.new last.new buf.new display.new (min lines 512) ≡ after_part (machine_of kept frame.old last.old) (record { buffer = buf.old; lines = min lines 512; display = display.old }) (drop from bytes.now) }
    ensures count_bound { result.count ≤ 217 }
{
    if lines < MOST_LINES {
        return hear_few(kept, frame, last, buf, display, lines, bytes, from);
    }
    kept::hear_next(kept, frame, last, buf, display, bytes, from)
}

// With too few of them: both halves of a call, and nothing between them, for the sheet is not searched then.
fn hear_few(
    kept: Kept,
    frame: &mut [u8; FRAME_ROOM],
    last: &mut [u8; ANSWER_ROOM],
    buf: &mut [u8],
    display: &mut [u8],
    lines: usize,
    bytes: &[u8],
    from: usize,
) -> Next
    requires { lines < 512 }
    ensures { (result ≡ stayed_as kept) × ((frame.new ≡ frame.old) × ((last.new ≡ last.old) × ((buf.new ≡ buf.old) × (display.new ≡ display.old)))) }
{
    let begun = machine::begin(kept.device, frame, display, buf.len(), lines, bytes, from);
    let hearing = giving::finish(begun, 0, sheet::blank_line(), last, buf).hearing;
    Next {
        kept,
        call: hearing.call,
        number: hearing.given.number,
        count: hearing.given.count,
        shows: hearing.given.shows,
        taken: hearing.taken,
    }
}
