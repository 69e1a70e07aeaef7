// Reading a frame, one byte at a time (PROTOCOL 1.7 to 1.9).
#![tactic(auto)]

ghost use Rattle.std.specs.Prelude.{◌≡◌, true, cond, ◌&&◌, [], ◌<◌, ◌≤◌, ◌+◌, ltb, length, get_or, take};
ghost use Rattle.wire.specs.Places.{front};
ghost use Rattle.reader.specs.Reading.{read, read_other, run, outside, inside, nothing, broken_frame};
ghost use Rattle.reader.specs.Private.{Behind};
ghost use Rattle.reader.specs.declared.Heard.TheVariants.{Nothing};
ghost use Rattle.reader.specs.Fields.{place_of, reader_of, kept_in, taken_of, told_of};

use wire::{LEAST_LEN, MOST_DATA, Way, suit};

// How many bytes are lent for those of a frame since 01h.
pub const FRAME_ROOM: usize = 256;

// Where reading stands. The bytes since 01h are the first `count` of a lent array, so that a byte moves three scalars only.
#[derive(Clone, Copy)]
pub struct Reader {
    pub inside: bool,
    pub count: u8,
    pub sum: u16,
}

// What one byte brings. A whole frame's data stands in the lent array from its fourth byte on.
#[derive(Clone, Copy, PartialEq, Eq)]
pub enum Heard {
    Nothing,
    Broken,
    Whole { seq: u8, code: u8, count: usize },
}

#[derive(Clone, Copy)]
pub struct Taken {
    pub reader: Reader,
    pub heard: Heard,
}

// What a whole run of bytes brought: where reading stands behind it, the broken frames and the whole ones.
#[derive(Clone, Copy)]
pub struct Told {
    pub reader: Reader,
    pub broken: usize,
    pub whole: usize,
}

// A reader that stands outside a frame.
pub fn fresh() -> Reader
    ensures { result ≡ reader_of outside }
{
    Reader {
        inside: false,
        count: 0,
        sum: 0,
    }
}

// One byte: what it brings, and where reading stands behind it.
pub fn take_byte(way: Way, reader: Reader, array: &mut [u8; FRAME_ROOM], b: u8) -> Taken
    ensures value { result ≡ taken_of (read way (place_of reader array.old) b) }
    ensures array_after { array.new ≡ kept_in array.old (read way (place_of reader array.old) b).place }
{
    if b == 0x01 {
        return started(reader.inside, reader.count);
    }
    if !reader.inside {
        return Taken {
            reader: fresh(),
            heard: Heard::Nothing,
        };
    }
    if reader.count == 0 {
        return take_len(way, array, b);
    }
    let n = suit::data_count(way, array[0]);
    reader.take_behind(way, n, array, b)
}

// A whole run of bytes, heard by a fresh reader.
pub fn listen(way: Way, bytes: &[u8]) -> Told
    ensures { result ≡ told_of (run way outside bytes.now) }
{
    let mut array = [0u8; FRAME_ROOM];
    let mut reader = fresh();
    let mut broken: usize = 0;
    let mut whole: usize = 0;
    for b in bytes {
        let taken = take_byte(way, reader, &mut array, *b);
        reader = taken.reader;
        match taken.heard {
            Heard::Nothing => {}
            Heard::Broken => broken += 1,
            Heard::Whole { .. } => whole += 1,
        }
    }
    Told {
        reader,
        broken,
        whole,
    }
}

// 01h: the place directly behind it, and a broken frame where bytes had followed an earlier one.
fn started(within: bool, count: u8) -> Taken
    ensures { result ≡ taken_of (record { place = inside 0 []; event = cond (within && ltb 0 count) broken_frame nothing }) }
{
    let heard = if within && count != 0 {
        Heard::Broken
    } else {
        Heard::Nothing
    };
    Taken {
        reader: Reader {
            inside: true,
            count: 0,
            sum: 0,
        },
        heard,
    }
}

fn broken() -> Taken
    ensures { result ≡ taken_of (record { place = outside; event = broken_frame }) }
{
    Taken {
        reader: fresh(),
        heard: Heard::Broken,
    }
}

// The byte directly behind 01h.
fn take_len(way: Way, array: &mut [u8; FRAME_ROOM], b: u8) -> Taken
    ensures value { result ≡ taken_of (read_other way (inside 0 []) b) }
    ensures array_after { array.new ≡ kept_in array.old (read_other way (inside 0 []) b).place }
{
    let least = LEAST_LEN + suit::behind_data(way);
    let len = b as usize;
    if len < least || least + MOST_DATA < len {
        return broken();
    }
    array[0] = b;
    Taken {
        reader: Reader {
            inside: true,
            count: 1,
            sum: b as u16,
        },
        heard: Heard::Nothing,
    }
}

impl Reader {
    // A byte behind LEN, which announces n data bytes.
    fn take_behind(self, way: Way, n: usize, array: &mut [u8; FRAME_ROOM], b: u8) -> Taken
        requires { Behind way n self.count array.old }
        ensures value { result ≡ taken_of (read_other way (inside self.sum (take self.count array.old)) b) }
        ensures array_after { array.new ≡ kept_in array.old (read_other way (inside self.sum (take self.count array.old)) b).place }
    {
        let edge = 3 + n + suit::behind_data(way);
        let at = self.count as usize - 1;
        if at < edge {
            return self.take_front(way, n, array, b);
        }
        self.take_ending(way, n, edge, array, b)
    }

    // A byte up to 05h: it is added.
    fn take_front(self, way: Way, n: usize, array: &mut [u8; FRAME_ROOM], b: u8) -> Taken
        requires behind { Behind way n self.count array.old }
        requires count_in_bounds { self.count ≤ length (front way n) }
        ensures value { result ≡ taken_of (read_other way (inside self.sum (take self.count array.old)) b) }
        ensures array_after { array.new ≡ kept_in array.old (read_other way (inside self.sum (take self.count array.old)) b).place }
    {
        let i = self.count as usize;
        if !suit::suits_front(way, n, i - 1, b) {
            return broken();
        }
        array[i] = b;
        self.goes_on(self.sum.wrapping_add(b as u16))
    }

    // A byte behind 05h; the fifth is the frame's last.
    fn take_ending(
        self,
        way: Way,
        n: usize,
        edge: usize,
        array: &mut [u8; FRAME_ROOM],
        b: u8,
    ) -> Taken
        requires behind { Behind way n self.count array.old }
        requires edge_value { edge ≡ length (front way n) }
        requires edge_lt_count { edge < self.count }
        ensures value { result ≡ taken_of (read_other way (inside self.sum (take self.count array.old)) b) }
        ensures array_after { array.new ≡ kept_in array.old (read_other way (inside self.sum (take self.count array.old)) b).place }
    {
        let i = self.count as usize;
        let at = i - 1 - edge;
        if !suit::suits_ending(self.sum, at, b) {
            return broken();
        }
        if at == 4 {
            return Taken {
                reader: fresh(),
                heard: Heard::Whole {
                    seq: array[1],
                    code: array[2],
                    count: n,
                },
            };
        }
        array[i] = b;
        self.goes_on(self.sum)
    }

    // One byte more, up to which the sum is this one.
    fn goes_on(self, sum: u16) -> Taken
        requires { self.count < 255 }
        ensures { result ≡ record { reader = record { inside = true; count = self.count + 1; sum = sum }; heard = Nothing } }
    {
        Taken {
            reader: Reader {
                inside: true,
                count: self.count + 1,
                sum,
            },
            heard: Heard::Nothing,
        }
    }
}
