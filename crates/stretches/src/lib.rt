// Reading a stretch of bytes at once (DECISIONS 54, 64).
#![tactic(auto)]

ghost use Rattle.std.specs.Prelude.{◌≡◌, true, IfSome};
ghost use Rattle.wire.specs.declared.Way.TheVariants.{ToDevice};
ghost use Rattle.stretches.specs.Stretches.{stretched};
ghost use Rattle.stretches.specs.Private.{Heads, Leads, closing};

use reader::{FRAME_ROOM, Heard, Reader};
use wire::{LEAST_LEN, MOST_DATA, Role, Way, build, suit};

// What a stretch of bytes brought, and how many they were: those of a lent part up to and including the first that brings something, or
// all of them.
#[derive(Clone, Copy)]
pub struct Stretch {
    pub reader: Reader,
    pub heard: Heard,
    pub taken: usize,
}

// A stretch of a device's bytes. Outside a frame, a whole command that comes next is taken at once; anything else goes byte by byte.
pub fn take_stretch(reader: Reader, array: &mut [u8; FRAME_ROOM], bytes: &[u8]) -> Stretch
    ensures { record { stretch = result; array = array.new } ≡ stretched ToDevice reader array.old bytes.now }
{
    if reader.inside {
        return take_each(Way::ToDevice, reader, array, bytes);
    }
    let start = text::find(bytes, 0x01);
    let rest = &bytes[start..];
    let Some(n) = leads(rest) else {
        return take_each(Way::ToDevice, reader, array, bytes);
    };
    text::put_bytes(array, 0, &rest[1..n + 9]);
    Stretch {
        reader: reader::fresh(),
        heard: Heard::Whole {
            seq: rest[2],
            code: rest[3],
            count: n,
        },
        taken: start + n + 10,
    }
}

// Byte by byte.
fn take_each(way: Way, reader: Reader, array: &mut [u8; FRAME_ROOM], bytes: &[u8]) -> Stretch
    ensures { record { stretch = result; array = array.new } ≡ stretched way reader array.old bytes.now }
{
    let mut at = reader;
    for (i, b) in bytes.iter().enumerate() {
        let step = reader::take_byte(way, at, array, *b);
        at = step.reader;
        if step.heard != Heard::Nothing {
            return Stretch {
                reader: at,
                heard: step.heard,
                taken: i + 1,
            };
        }
    }
    Stretch {
        reader: at,
        heard: Heard::Nothing,
        taken: bytes.len(),
    }
}

// How many data bytes the command has whose whole frame stands at the front.
fn leads(bytes: &[u8]) -> Option<usize>
    ensures { IfSome result (λ n. Leads n bytes.now) }
{
    let n = heads(bytes)?;
    if bytes.len() < n + 10 {
        return None;
    }
    let five = n + 4;
    let stands = suit::all_may_stand(Role::Data, &bytes[4..five])
        && closes(build::sum_of(&bytes[1..five + 1]), &bytes[five..five + 6]);
    stands.then_some(n)
}

// 01h, LEN, SEQ and CMD at the front: how many data bytes LEN announces.
fn heads(bytes: &[u8]) -> Option<usize>
    ensures { IfSome result (λ n. Heads n bytes.now) }
{
    let [0x01, len, seq, code, ..] = bytes else {
        return None;
    };
    let n = (*len as usize).checked_sub(LEAST_LEN)?;
    let suits = n <= MOST_DATA
        && suit::may_stand(Role::Name, *seq)
        && suit::may_stand(Role::Name, *code);
    suits.then_some(n)
}

// 05h, BCC and 03h.
fn closes(sum: u16, six: &[u8]) -> bool
    ensures { result ≡ true → six.now ≡ closing sum }
{
    let [a, b, c, d] = suit::bcc_bytes(sum);
    six == [0x05, a, b, c, d, 0x03].as_slice()
}
