// Both ends on one table: a script on standard input (docs/SCRIPTS.md), a till end, a fresh device, and a line between them that does to
// tries and answers what the script says. It tells what each of them does.
#![tactic(auto)]

mod around;
mod tell;

use desk::{BACK_ROOM, Phase};
use display::MOST_SHOWN;
use reader::FRAME_ROOM;
use std::io::Stdin;
use system::Outlets;
use wire::ANSWER_ROOM;
use witness::see;

fn main(rt: HostRuntime) {
    let to = Outlets {
        output: rt.stdout(),
        errors: rt.stderr(),
    };
    if 1 < system::arg_count(&rt) {
        system::write(
            &to.errors,
            b"error: usage: bench <SCRIPT: the script comes on standard input, and there are no arguments\n",
        );
        return;
    }
    play(rt.stdin(), to);
}

// The device is held here alone. A turn is one call of it, where bytes that arrived are left to hear, or else one step of what stands around it.
fn play(input: Stdin, to: Outlets) {
    let mut kept = kept::fresh_kept();
    let mut frame = [0u8; FRAME_ROOM];
    let mut last = [0u8; ANSWER_ROOM];
    let mut arrived = [0u8; FRAME_ROOM];
    let mut back = [0u8; BACK_ROOM];
    let mut sent = [0u8; FRAME_ROOM];
    let mut answer = [0u8; FRAME_ROOM];
    let mut out = [0u8; FRAME_ROOM];
    let mut desk = desk::fresh();
    for _ in 0..u64::MAX {
        if matches!(desk.phase, Phase::Ended | Phase::Stopped) {
            tell::end(to, kept, desk.tally, desk.phase == Phase::Ended);
            return;
        }
        if desk.place < desk.got {
            let mut buf = [0u8; ANSWER_ROOM];
            let mut text = [0u8; MOST_SHOWN];
            let bytes = around::bytes_at(&arrived, desk.got);
            let at = desk.place;
            let seen = see(kept, &mut frame, &mut last, &mut buf, &mut text, bytes, at);
            let next = seen.next;
            kept = next.kept;
            tell::call(to, next.call, next.number, next.taken, seen.reason);
            tell::shows(to, next.shows, &text);
            desk = desk::heard(desk, next.call, next.taken, &buf, next.count, &mut back);
            continue;
        }
        desk = around::next(
            input,
            to,
            desk,
            &mut sent,
            &mut answer,
            &mut out,
            &mut arrived,
            &back,
        );
    }
}
