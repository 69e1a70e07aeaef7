// One call of the device, and why the command that it carried out was refused (DECISIONS 72).
#![tactic(auto)]

ghost use Rattle.std.specs.Prelude.{◌≡◌, ◌≤◌, drop};
ghost use Rattle.kept.specs.ByValue.{machine_of};
ghost use Rattle.machine.specs.Hearing.{carried_by};
ghost use Rattle.witness.specs.Witness.{reason_among, seen_of, witnessed};

use books::Books;
use guard::Guard;
use kept::{Kept, Next};
use line::{Call, MOST_HELD};
use reader::FRAME_ROOM;
use reasons::Reason;
use sheet::{Line, MOST_LINES};
use wire::ANSWER_ROOM;

// A call as `kept::hear_next` hands it back, and the first reason against its command: Done where none was refused.
#[derive(Clone, Copy)]
pub struct Seen {
    pub next: Next,
    pub reason: Reason,
}

// What `kept::hear_next` does, and the reason, by the guard, the books and the sheet before the call.
pub fn see(
    kept: Kept,
    frame: &mut [u8; FRAME_ROOM],
    last: &mut [u8; ANSWER_ROOM],
    buf: &mut [u8],
    display: &mut [u8],
    bytes: &[u8],
    from: usize,
) -> Seen
    ensures display_after { seen_of result frame.new last.new buf.new display.new ≡ witnessed (machine_of kept frame.old last.old) (record { buffer = buf.old; lines = 512; display = display.old }) (drop from bytes.now) }
    ensures count_bound { result.next.count ≤ 217 }
{
    let next = kept::hear_next(kept, frame, last, buf, display, bytes, from);
    let device = kept.device;
    Seen {
        next,
        reason: why(device.guard, device.books, kept.sheet, next.call, &*frame),
    }
}

// The first reason against a call's command. An order's data stands in the frame from its fourth byte on.
fn why(
    guard: Guard,
    books: Books,
    sheet: [Line; MOST_LINES],
    call: Call,
    frame: &[u8; FRAME_ROOM],
) -> Reason
    ensures { result ≡ reason_among (record { books = books; sheet = sheet; guard = guard }) (carried_by call frame.now) }
{
    let Call::Order { code, count, .. } = call else {
        return Reason::Done;
    };
    let end = count.min(MOST_HELD) + 3;
    let parsed = command::parse(code, &frame[3..end]);
    let said = matching::match_kept(sheet, carrying::search_in(books, parsed));
    refusals::reason_of(guard, books, said, parsed)
}
