// The data of a command as it is written in a line, with escapes (SCRIPTS 4).
ghost use Rattle.std.specs.Prelude.{◌≡◌, ◌+◌, ◌<◌, IfSome, length};
ghost use Rattle.std.proofs.lemmas.List.Edits.{sets};
ghost use Rattle.writing.specs.Content.{plain_step, escape_step, high_step, low_step, step_of, said_by, stand_after, said_in, end_of, is_plain};
ghost use Rattle.writing.specs.declared.Stand.TheVariants.{Plain};

use crate::words::digit;
use crate::{Stand, Step};

// Data that was read: where reading stands behind it, and how many bytes it says.
#[derive(Clone, Copy)]
pub struct Content {
    pub stand: Stand,
    pub count: usize,
}

// The bytes that data says go to the front of `buf`, as far as it reaches.
pub fn unescape(s: &[u8], buf: &mut [u8]) -> Content
    ensures value { result ≡ record { stand = end_of Plain s.now; count = length (said_in Plain s.now) } }
    ensures buf_after { buf.new ≡ sets buf.old 0 (said_in Plain s.now) }
{
    let mut stand = Stand::Plain;
    let mut count = 0;
    for &b in s {
        let step = step_of(stand, b);
        count = put_said(step, buf, count);
        stand = stand_after(step);
    }
    Content { stand, count }
}

// The byte that a step says, behind those before it.
fn put_said(step: Step, buf: &mut [u8], at: usize) -> usize
    requires { at < 18446744073709551615 }
    ensures value { result ≡ at + length (said_by step) }
    ensures buf_after { buf.new ≡ sets buf.old at (said_by step) }
{
    match step {
        Step::Says(b) => {
            text::put_byte(buf, at, b);
            at + 1
        }
        Step::GoesTo(_) => at,
    }
}

fn stand_after(step: Step) -> Stand
    ensures { result ≡ stand_after step }
{
    match step {
        Step::Says(_) => Stand::Plain,
        Step::GoesTo(stand) => stand,
    }
}

fn step_of(stand: Stand, b: u8) -> Step
    ensures { result ≡ step_of stand b }
{
    match stand {
        Stand::Plain => plain_step(b),
        Stand::Escape => escape_step(b),
        Stand::High => high_step(digit(b)),
        Stand::Low(high) => low_step(high, digit(b)),
        Stand::Spoilt => Step::GoesTo(Stand::Spoilt),
    }
}

fn plain_step(b: u8) -> Step
    ensures { result ≡ plain_step b }
{
    if b == b'\\' {
        return Step::GoesTo(Stand::Escape);
    }
    Step::Says(b)
}

fn escape_step(b: u8) -> Step
    ensures { result ≡ escape_step b }
{
    match b {
        b't' => Step::Says(0x09),
        b'n' => Step::Says(0x0A),
        b'\\' => Step::Says(b'\\'),
        b'x' => Step::GoesTo(Stand::High),
        _ => Step::GoesTo(Stand::Spoilt),
    }
}

fn high_step(digit: Option<u8>) -> Step
    ensures { result ≡ high_step digit }
{
    match digit {
        Some(high) => Step::GoesTo(Stand::Low(high)),
        None => Step::GoesTo(Stand::Spoilt),
    }
}

fn low_step(high: u8, digit: Option<u8>) -> Step
    requires { IfSome digit (λ low. low < 16) }
    ensures { result ≡ low_step high digit }
{
    match digit {
        Some(low) => Step::Says(high % 16 * 16 + low),
        None => Step::GoesTo(Stand::Spoilt),
    }
}

// Whether reading stands where data may end.
pub fn is_plain(stand: Stand) -> bool
    ensures { result ≡ is_plain stand }
{
    matches!(stand, Stand::Plain)
}
