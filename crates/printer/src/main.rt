// A device on a line: the raw bytes that it receives on standard input or a LINE, all that it gives back on standard output or the same LINE,
// as soon as it is there. With a RECORDING it stands where that ends, and keeps there what it hears; each further one is a switching on (LINE).
#![tactic(auto)]

ghost use Rattle.std.specs.Prelude.{◌≡◌, length};

use display::MOST_SHOWN;
use kept::Kept;
use opening::Held;
use options::Ends;
use reader::FRAME_ROOM;
use recorder::Part;
use std::env::Env;
use std::fs::File;
use std::rt::Files;
use wire::ANSWER_ROOM;

// As many bytes are read at once, if they are there.
const PART_ROOM: usize = 16384;

// All that they can make the device give back: 217 bytes for each of them.
const OUT_ROOM: usize = 3555328;

fn main(rt: HostRuntime) {
    let mut held = opening::none_held(rt.stdin(), rt.stdout(), rt.stderr());
    if let Some(ends) = opening::open_ends(&rt, &mut held) {
        run(&rt, &mut held, ends);
    }
}

// Part by part: read, and kept where it came from the line; heard; answered. Behind a recording that another follows the device is switched on
// anew.
fn run<R: Env + Files<File = File>>(rt: &R, held: &mut Held, mut ends: Ends) {
    let mut frame = [0u8; FRAME_ROOM];
    let mut last = [0u8; ANSWER_ROOM];
    let mut out = out_room();
    let mut bytes = part_room();
    let mut kept = kept::fresh_kept();
    let mut stage = keeping::first_stage(options::replays(ends));
    for _ in 0..i64::MAX {
        stage = passing::read_part(&*held, ends, stage, &mut bytes);
        if stage.over {
            return;
        }
        if stage.anew {
            kept = kept::switch_on(kept);
            let Some(next) = opening::next_recording(rt, held, ends) else {
                return;
            };
            ends = next;
        }
        let n = stage.count;
        let part = hear(kept, &mut frame, &mut last, &bytes[0..n], &mut out);
        kept = part.kept;
        if !passing::answer(&*held, ends, stage, &out, part.given) {
            return;
        }
    }
}

// A part of the line or of the recording; what it gives back stands in `out`. There is no display here: what is shown is not looked at.
fn hear(
    kept: Kept,
    frame: &mut [u8; FRAME_ROOM],
    last: &mut [u8; ANSWER_ROOM],
    bytes: &[u8],
    out: &mut [u8],
) -> Part {
    let mut buf = [0u8; ANSWER_ROOM];
    let mut display = [0u8; MOST_SHOWN];
    let mut none = [0u8; 1];
    recorder::hear_part(
        kept,
        frame,
        last,
        &mut buf,
        &mut display,
        bytes,
        out,
        &mut none[0..0],
    )
}

fn part_room() -> [u8; PART_ROOM]
    ensures { length result ≡ 16384 }
{
    [0u8; PART_ROOM]
}

fn out_room() -> [u8; OUT_ROOM]
    ensures { length result ≡ 3555328 }
{
    [0u8; OUT_ROOM]
}
