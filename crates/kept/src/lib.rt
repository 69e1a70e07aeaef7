// A device with its sheet by value, for callers that cannot lend a slice of records (DECISIONS 72).
#![tactic(auto)]

ghost use Rattle.std.specs.Prelude.{◌≡◌, ◌≤◌, drop};
ghost use Rattle.machine.specs.Hearing.{after_part};
ghost use Rattle.kept.specs.ByValue.{machine_of, next_of, fresh_kept, kept_anew};

use device::hear;
use line::Call;
use machine::Device;
use reader::FRAME_ROOM;
use sheet::{Line, MOST_LINES};
use wire::ANSWER_ROOM;

// A device and the 512 records of its sheet.
#[derive(Clone, Copy)]
pub struct Kept {
    pub device: Device,
    pub sheet: [Line; MOST_LINES],
}

// A call: the device and its sheet behind it, what the bytes asked for, the reply number, the bytes given back, what the display shows,
// the bytes taken.
#[derive(Clone, Copy)]
pub struct Next {
    pub kept: Kept,
    pub call: Call,
    pub number: u64,
    pub count: usize,
    pub shows: Option<usize>,
    pub taken: usize,
}

// A fresh device, with a sheet on which nothing stands.
pub fn fresh_kept() -> Kept
    ensures { result ≡ fresh_kept }
{
    let device = machine::fresh();
    let line = sheet::blank_line();
    Kept {
        device,
        sheet: [line; MOST_LINES],
    }
}

// Switched on anew: the sheet stays, as an open receipt does.
pub fn switch_on(kept: Kept) -> Kept
    ensures { result ≡ kept_anew kept }
{
    let device = machine::switch_on(kept.device);
    Kept { device, ..kept }
}

// What `device::hear` does, the sheet by value.
pub fn hear_next(
    kept: Kept,
    frame: &mut [u8; FRAME_ROOM],
    last: &mut [u8; ANSWER_ROOM],
    buf: &mut [u8],
    display: &mut [u8],
    bytes: &[u8],
    from: usize,
) -> Next
    ensures display_after { next_of result frame.new last.new buf.new display.new ≡ after_part (machine_of kept frame.old last.old) (record { buffer = buf.old; lines = 512; display = display.old }) (drop from bytes.now) }
    ensures count_bound { result.count ≤ 217 }
{
    let mut lines = kept.sheet;
    let hearing = hear(
        kept.device,
        frame,
        last,
        buf,
        display,
        &mut lines,
        bytes,
        from,
    );
    let given = hearing.given;
    Next {
        kept: Kept {
            device: given.device,
            sheet: lines,
        },
        call: hearing.call,
        number: given.number,
        count: given.count,
        shows: given.shows,
        taken: hearing.taken,
    }
}
