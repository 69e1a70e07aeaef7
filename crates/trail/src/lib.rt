// Where in a recording its frames stand: the offset of each, and the bytes that belong to none (PROTOCOL 1.7 to 1.9).
#![tactic(auto)]

ghost use Rattle.std.specs.Prelude.{◌≡◌};
ghost use Rattle.reader.specs.Reading.{read};
ghost use Rattle.reader.specs.Fields.{place_of, kept_in};
ghost use Rattle.wire.specs.declared.Way.TheVariants.{ToDevice};
ghost use Rattle.trail.specs.Trails.{fresh_trail, passed, followed, skipped_behind};

use reader::{FRAME_ROOM, Heard, Reader};
use wire::Way;

// Where reading stands; the offset of the next byte; that of the last 01h; the bytes outside frames since the last frame.
#[derive(Clone, Copy)]
pub struct Trail {
    pub reader: Reader,
    pub offset: u64,
    pub start: u64,
    pub skipped: u64,
}

// Before the first byte.
pub fn fresh() -> Trail
    ensures { result ≡ fresh_trail }
{
    let reader = reader::fresh();
    Trail {
        reader,
        offset: 0,
        start: 0,
        skipped: 0,
    }
}

// One byte further.
pub fn pass(trail: Trail, array: &mut [u8; FRAME_ROOM], b: u8) -> Trail
    ensures value { result ≡ passed trail array.old b }
    ensures array_after { array.new ≡ kept_in array.old (read ToDevice (place_of trail.reader array.old) b).place }
{
    let before = trail.reader;
    let taken = reader::take_byte(Way::ToDevice, before, array, b);
    Trail {
        reader: taken.reader,
        offset: trail.offset.saturating_add(1),
        start: if b == 0x01 { trail.offset } else { trail.start },
        skipped: skipped_behind(taken.heard, before, trail.skipped, b),
    }
}

// The bytes outside frames, once b has come: none behind a frame, whole or broken. The largest number stays, which no recording reaches.
fn skipped_behind(heard: Heard, before: Reader, skipped: u64, b: u8) -> u64
    ensures { result ≡ skipped_behind heard before skipped b }
{
    if heard != Heard::Nothing {
        return 0;
    }
    let start = b == 0x01;
    let skips = if before.inside {
        before.count == 0 && start
    } else {
        !start
    };
    if skips {
        skipped.saturating_add(1)
    } else {
        skipped
    }
}

// Some bytes further.
pub fn follow(trail: Trail, array: &mut [u8; FRAME_ROOM], bytes: &[u8]) -> Trail
    ensures { record { trail = result; array = array.new } ≡ followed trail array.old bytes.now }
{
    let mut at = trail;
    for b in bytes {
        at = pass(at, array, *b);
    }
    at
}
