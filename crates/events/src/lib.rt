// The events that the replay programs are told of: how many bytes one has, and what one lends to a device (README, *For the apprentice*).
#![tactic(auto)]

ghost use Rattle.std.specs.Prelude.{◌≡◌, cond, ◌+◌, ◌*◌, ◌<◌, eqb, get_or};
ghost use Rattle.events.specs.Events.{device_event, till_event, event_of, switches_on, lent_by};

// The longest event of a device: one thing lent at a length.
pub const DEVICE_ROOM: usize = 5;

// The longest event of a till end: a command with 255 data bytes.
pub const TILL_ROOM: usize = 259;

// Which end is told of events.
#[derive(Clone, Copy)]
pub enum End {
    Device,
    Till,
}

// What an event lends to a device: bytes of the buffer, lines of the sheet, bytes for the display; and its byte.
#[derive(Clone, Copy)]
pub struct Lent {
    pub room: usize,
    pub lines: usize,
    pub shown: usize,
    pub byte: u8,
}

// How many bytes an event has, as far as these first ones tell: as many as there are is a whole event. None is no event.
pub fn length_of(end: End, event: &[u8]) -> Option<usize>
    ensures { result ≡ event_of end event.now }
{
    match end {
        End::Device => of_device(event),
        End::Till => of_till(event),
    }
}

fn of_device(event: &[u8]) -> Option<usize>
    ensures { result ≡ device_event event.now }
{
    match event {
        [] | [b'O', ..] => Some(1),
        [_] | [b'B', ..] => Some(2),
        [b'S', 0..=2, ..] => Some(DEVICE_ROOM),
        _ => None,
    }
}

fn of_till(event: &[u8]) -> Option<usize>
    ensures { result ≡ till_event event.now }
{
    match event {
        [] => Some(1),
        [_] | [_, b'T', ..] => Some(2),
        [_, b'B', ..] | [_, b'C'] => Some(3),
        [_, b'C', n, ..] => Some(usize::from(*n) + 4),
        _ => None,
    }
}

// How much of the buffer a till end's event lends: its first byte says.
pub fn room_in(event: &[u8]) -> usize
    ensures value { result ≡ get_or event.now 0 0 }
    ensures upper_bound { result < 256 }
{
    event.first().map_or(0, |&lent| usize::from(lent))
}

// Whether a device's event is its switching on; any other has a byte.
pub fn switches_on(event: [u8; DEVICE_ROOM]) -> bool
    ensures { result ≡ switches_on event }
{
    event[0] == b'O'
}

// What a device's event lends, of all the bytes and lines that can be lent. Behind a short event the array holds anything.
pub fn lent_by(event: [u8; DEVICE_ROOM], room: usize, lines: usize, shown: usize) -> Lent
    ensures { result ≡ lent_by event room lines shown }
{
    if event[0] == b'B' {
        return Lent {
            room,
            lines,
            shown,
            byte: event[1],
        };
    }
    let size = size_of(event[2], event[3]);
    let which = event[1];
    Lent {
        room: lent_at(which, 0, size, room),
        lines: lent_at(which, 1, size, lines),
        shown: lent_at(which, 2, size, shown),
        byte: event[4],
    }
}

// The thing that is named has its length; all of every other is lent.
fn lent_at(which: u8, this: u8, size: usize, all: usize) -> usize
    ensures { result ≡ cond (eqb which this) size all }
{
    if which == this { size } else { all }
}

// A length of two bytes, the high one first.
fn size_of(high: u8, low: u8) -> usize
    ensures { result ≡ high * 256 + low }
{
    usize::from(high) * 256 + usize::from(low)
}
