// The protocol papers' own frames: each is built, read back, and broken by one byte.
#![tactic(auto)]

ghost use Rattle.std.specs.Prelude.{◌≤◌};

use system::Outlets;
use wire::{ANSWER_ROOM, Unbuilt, Way};

fn main(rt: HostRuntime) {
    let to = Outlets {
        output: rt.stdout(),
        errors: rt.stderr(),
    };
    papers(to);
    tell(
        to,
        b"01h inside a frame: ",
        reader::listen(
            Way::ToDevice,
            b"\x01\x24\x50\x01\x24\x50\x4A\x05\x30\x30\x3C\x33\x03",
        ),
    );
    tell(
        to,
        b"01h directly after 01h: ",
        reader::listen(
            Way::ToDevice,
            b"\x01\x01\x24\x50\x4A\x05\x30\x30\x3C\x33\x03",
        ),
    );
    word(to, b"BCC of 12ABh and 1AE3h\n");
    show(to, &wire::suit::bcc_bytes(0x12AB));
    show(to, &wire::suit::bcc_bytes(0x1AE3));
    refused(to);
}

// Theirs, byte for byte.
fn papers(to: Outlets) {
    command(to, b"74\n", 0x50, 0x4A, b"");
    let stopped = [0x88, 0x80, 0x80, 0x80, 0x80, 0xB8];
    answer(
        to,
        b"74, answer\n",
        0x50,
        0x4A,
        b"\x88\x80\x80\x80\x80\xB8",
        stopped,
    );
    command(to, b"153\n", 0xCB, 0x99, b"");
    let paper = [0x80, 0x80, 0xC0, 0x80, 0x80, 0xB8];
    answer(to, b"153, answer\n", 0xCB, 0x99, b"", paper);
    command(to, b"79\n", 0xCC, 0x4F, b"010118,311219");
}

fn refused(to: Outlets) {
    word(to, b"not to be sent: CMD 1Fh, data 1Fh, status 7Fh\n");
    command(to, b"", 0x20, 0x1F, b"");
    command(to, b"", 0x20, 0x4A, b"\x1F");
    let low = [0x80, 0x80, 0x80, 0x80, 0x7F, 0x80];
    answer(to, b"", 0x20, 0x4A, b"", low);
}

fn command(to: Outlets, name: &[u8], seq: u8, code: u8, content: &[u8]) {
    let mut buf = [0u8; ANSWER_ROOM];
    let built = wire::build::build_command(&mut buf, seq, code, content);
    report(to, name, Way::ToDevice, built, buf);
}

fn answer(to: Outlets, name: &[u8], seq: u8, code: u8, content: &[u8], status: [u8; 6]) {
    let mut buf = [0u8; ANSWER_ROOM];
    let built = wire::build::build_answer(&mut buf, seq, code, content, status);
    report(to, name, Way::ToTill, built, buf);
}

fn report(
    to: Outlets,
    name: &[u8],
    way: Way,
    built: Result<usize, Unbuilt>,
    buf: [u8; ANSWER_ROOM],
) {
    word(to, name);
    let Ok(n) = built else {
        word(to, b"  8\n");
        return;
    };
    if n < 10 {
        return;
    }
    if ANSWER_ROOM < n {
        return;
    }
    framed(to, way, buf, n);
}

// The frame, what it is read as, and what becomes of it when one byte is another.
fn framed(to: Outlets, way: Way, buf: [u8; ANSWER_ROOM], n: usize)
    requires le_n { 10 ≤ n }
    requires n_bound { n ≤ 217 }
{
    show(to, &buf[0..n]);
    tell(to, b"  read back: ", reader::listen(way, &buf[0..n]));
    let mut other = buf;
    let at = n - 2;
    other[at] = 0x40;
    tell(to, b"  last BCC byte 40h: ", reader::listen(way, &other));
    word(to, b"  whole with any one byte changed: ");
    count(to, changed(way, buf, n));
    word(to, b"\n");
}

// 1 where the frame is still heard as whole when one of its n bytes is the next value up, 0 where it never is.
fn changed(way: Way, buf: [u8; ANSWER_ROOM], n: usize) -> usize
    requires { n ≤ 217 }
{
    for i in 0..n {
        let mut other = buf;
        other[i] = other[i].wrapping_add(1);
        if 0 < reader::listen(way, &other).whole {
            return 1;
        }
    }
    0
}

fn tell(to: Outlets, what: &[u8], told: reader::Told) {
    word(to, what);
    word(to, b"whole ");
    count(to, told.whole);
    word(to, b", broken ");
    count(to, told.broken);
    word(to, b"\n");
}

fn count(to: Outlets, n: usize) {
    let mut digit = [0u8; 1];
    text::put_field(&mut digit, 0, 1, n as u64);
    word(to, &digit);
}

fn show(to: Outlets, bytes: &[u8]) {
    pairs(to, bytes);
    word(to, b"\n");
}

// A space and two hexadecimal digits for each byte.
fn pairs(to: Outlets, bytes: &[u8]) {
    for b in bytes {
        let pair = [b' ', hexadecimal(b / 16), hexadecimal(b % 16)];
        word(to, &pair);
    }
}

fn hexadecimal(n: u8) -> u8 {
    if n < 10 {
        return 48 + n;
    }
    if n < 16 {
        return 55 + n;
    }
    b'?'
}

fn word(to: Outlets, s: &[u8]) {
    system::put(to, s);
}
