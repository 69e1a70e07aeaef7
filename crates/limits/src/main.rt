// As much as a receipt and a frame hold, and one more (PROTOCOL 8.1, 8.2).
#![tactic(auto)]

use display::MOST_SHOWN;
use kept::{Kept, Next};
use reader::FRAME_ROOM;
use system::Outlets;
use wire::{ANSWER_ROOM, COMMAND_ROOM, Unbuilt};

fn main(rt: HostRuntime) {
    let to = Outlets {
        output: rt.stdout(),
        errors: rt.stderr(),
    };
    word(to, b"999999.99: ");
    fill(to, b"\tB999999.99");
    word(to, b"0.01: ");
    fill(to, b"\tB0.01");
    sends(to, 200);
    sends(to, 201);
}

// Lines of this sale on one receipt of a fresh device, until one is refused.
fn fill(to: Outlets, sale: &[u8]) {
    let mut frame = [0u8; FRAME_ROOM];
    let mut last = [0u8; ANSWER_ROOM];
    let mut sent = send(
        kept::fresh_kept(),
        &mut frame,
        &mut last,
        0x20,
        48,
        b"1,0000,1",
    );
    for taken in 0..1000 {
        sent = send(sent.kept, &mut frame, &mut last, seq(taken), 49, sale);
        if sent.number != 0 {
            tell(to, taken, sent.number);
            return;
        }
    }
}

fn tell(to: Outlets, taken: u64, number: u64) {
    system::number(&to.output, taken);
    word(to, b" lines taken, one more: ");
    system::number(&to.output, number);
    word(to, b"\n");
}

// Neighbours have different ones.
fn seq(n: u64) -> u8 {
    if n % 2 == 0 { 0x21 } else { 0x22 }
}

// A command, as the device hears it: its whole frame. The bytes given back are not looked at.
fn send(
    kept: Kept,
    frame: &mut [u8; FRAME_ROOM],
    last: &mut [u8; ANSWER_ROOM],
    seq: u8,
    code: u8,
    content: &[u8],
) -> Next {
    let mut buf = [0u8; ANSWER_ROOM];
    let mut display = [0u8; MOST_SHOWN];
    let mut command = [0u8; COMMAND_ROOM];
    let built = wire::build::build_command(&mut command, seq, code, content);
    let n = built.unwrap_or(0).min(COMMAND_ROOM);
    kept::hear_next(kept, frame, last, &mut buf, &mut display, &command[0..n], 0)
}

// Command 42 with n data bytes.
fn sends(to: Outlets, n: usize) {
    let letters = [b'x'; COMMAND_ROOM];
    if COMMAND_ROOM < n {
        return;
    }
    let mut sent = [0u8; COMMAND_ROOM];
    let built = wire::build::build_command(&mut sent, 0x20, 42, &letters[0..n]);
    word(to, b"data of ");
    system::number(&to.output, n as u64);
    word(to, b" bytes: ");
    system::number(&to.output, reply(built));
    word(to, b"\n");
}

fn reply(built: Result<usize, Unbuilt>) -> u64 {
    match built {
        Ok(_) => 0,
        Err(Unbuilt::Short) => 7,
        Err(Unbuilt::Unsendable) => 8,
    }
}

fn word(to: Outlets, s: &[u8]) {
    system::put(to, s);
}
