// The line: what bytes ask of the device. A quiet byte moves a few scalars; the frame before and the books are not touched.
#![tactic(auto)]

ghost use Rattle.std.specs.Prelude.{◌≡◌};
ghost use Rattle.reader.specs.Reading.{outside};
ghost use Rattle.reader.specs.Fields.{reader_of};
ghost use Rattle.line.specs.Calls.{is_repeat, call_for};
ghost use Rattle.line.specs.Listening.{listened_to, frame_behind};
ghost use Rattle.line.specs.declared.Previous.TheVariants.{Nothing};

use reader::{FRAME_ROOM, Heard, Reader};

// The whole frame before. Its answer is the first `count` bytes of a lent array.
#[derive(Clone, Copy)]
pub enum Previous {
    Nothing,
    Frame { seq: u8, code: u8, count: usize },
}

// The device's end of the line: where reading stands, and the frame before.
#[derive(Clone, Copy)]
pub struct Port {
    pub reader: Reader,
    pub previous: Previous,
}

// How many bytes the lent frame has from its fourth on.
pub const MOST_HELD: usize = 253;

// An order's data stands in the lent frame from its fourth byte on.
#[derive(Clone, Copy)]
pub enum Call {
    Quiet,
    Nak,
    Again,
    Order { seq: u8, code: u8, count: usize },
}

// Bytes of a lent part, up to and including the first that asks for something: what it asks, and how many they were.
#[derive(Clone, Copy)]
pub struct Listened {
    pub line: Port,
    pub call: Call,
    pub taken: usize,
}

// A line on which nothing has come.
pub fn fresh() -> Port
    ensures { result ≡ record { reader = reader_of outside; previous = Nothing } }
{
    Port {
        reader: reader::fresh(),
        previous: Previous::Nothing,
    }
}

// Listening to a lent part: what the first byte that asks for something asks, and how many bytes were taken.
pub fn listen(line: Port, frame: &mut [u8; FRAME_ROOM], bytes: &[u8]) -> Listened
    ensures value { result ≡ listened_to line frame.old bytes.now }
    ensures frame_after { frame.new ≡ frame_behind line frame.old bytes.now }
{
    let stretch = stretches::take_stretch(line.reader, frame, bytes);
    Listened {
        line: Port {
            reader: stretch.reader,
            ..line
        },
        call: call_for(line.previous, stretch.heard),
        taken: stretch.taken,
    }
}

fn call_for(previous: Previous, heard: Heard) -> Call
    ensures { result ≡ call_for previous heard }
{
    match heard {
        Heard::Nothing => Call::Quiet,
        Heard::Broken => Call::Nak,
        Heard::Whole { seq, code, count } => {
            if is_repeat(previous, seq, code) {
                return Call::Again;
            }
            Call::Order { seq, code, count }
        }
    }
}

fn is_repeat(previous: Previous, seq: u8, code: u8) -> bool
    ensures { result ≡ is_repeat previous seq code }
{
    matches!(previous, Previous::Frame { seq: s, code: c, .. } if s == seq && c == code)
}
