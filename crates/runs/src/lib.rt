// The bytes of a part heard to its end, call by call.
#![tactic(auto)]

ghost use Rattle.std.specs.Prelude.{◌≡◌};
ghost use Rattle.runs.specs.Running.{heard_through};

use reader::FRAME_ROOM;
use sheet::Line;
use tape::{Run, note_down};
use wire::ANSWER_ROOM;

// The bytes of a part, call by call: what the device gives back goes into `out`, the commands carried out into `orders`, as far as each
// reaches. With less than 217 bytes, 512 lines or 40 bytes for the display
// lent no byte is heard. Built into its caller for speed (PERFORMANCE, Today's forms).
#[inline(always)]
pub fn hear_run(
    begun: Run,
    frame: &mut [u8; FRAME_ROOM],
    last: &mut [u8; ANSWER_ROOM],
    buf: &mut [u8],
    display: &mut [u8],
    sheet: &mut [Line],
    bytes: &[u8],
    out: &mut [u8],
    orders: &mut [u8],
) -> Run
    ensures { record { run = result; frame = frame.new; last = last.new; buffer = buf.new; display = display.new; sheet = sheet.new; out = out.new; orders = orders.new } ≡ heard_through bytes.now (record { run = begun; frame = frame.old; last = last.old; buffer = buf.old; display = display.old; sheet = sheet.old; out = out.old; orders = orders.old }) }
{
    let mut run = begun;
    while run.more {
        let heard = device::hear(
            run.device, frame, last, buf, display, sheet, bytes, run.place,
        );
        run = note_down(run, heard, frame, buf, bytes.len(), out, orders);
    }
    run
}
