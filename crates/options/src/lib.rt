// What the arguments of `printer` ask for: printer [-l LINE] [RECORDING].. (LINE 1).
#![tactic(auto)]

ghost use Rattle.std.specs.Prelude.{◌≡◌};
ghost use Rattle.options.specs.Options.{argument_of, none_asked, first_of, named_at, asked_with, asked_of};
ghost use Rattle.options.specs.Ends.{last_of, ends_of, replays, names_left, next_place, next_of};

// LINE 1.2: the sign before a LINE; a name; or neither.
#[derive(Clone, Copy, PartialEq, Eq)]
pub enum Argument {
    Sign,
    Name,
    Neither,
}

// The places of the first and the last RECORDING among the arguments: from the first to the last every argument is one.
#[derive(Clone, Copy, PartialEq, Eq)]
pub struct Recordings {
    pub first: usize,
    pub last: usize,
}

// What was asked for: the place of LINE among the arguments, and those of the recordings, where there are any.
#[derive(Clone, Copy, PartialEq, Eq)]
pub struct Asked {
    pub line: Option<usize>,
    pub recordings: Option<Recordings>,
}

// The numbers of what is open: where bytes come from, where answers go, the recording that is replayed, the last one to read and to append to, where
// there is one; the places of the recording that is replayed, or of the argument before the first, and of the last, where there is one; whether it
// is a LINE.
#[derive(Clone, Copy, PartialEq, Eq)]
pub struct Ends {
    pub input: i32,
    pub output: i32,
    pub old: Option<i32>,
    pub newest: Option<i32>,
    pub tape: Option<i32>,
    pub place: usize,
    pub last: Option<usize>,
    pub online: bool,
}

// What one argument is.
pub fn argument_of(s: &[u8]) -> Argument
    ensures { result ≡ argument_of s.now }
{
    match s {
        [b'-', b'l'] => Argument::Sign,
        [] | [b'-', ..] => Argument::Neither,
        _ => Argument::Name,
    }
}

// Before the first argument.
pub fn none_asked() -> Asked
    ensures { result ≡ none_asked }
{
    Asked {
        line: None,
        recordings: None,
    }
}

// With one argument more, at its place; the first has place 1. None is asked for by arguments that are of no form, whatever stands behind
// them: -l stands first, and LINE behind it.
pub fn asked_with(asked: Option<Asked>, place: usize, a: Argument) -> Option<Asked>
    ensures { result ≡ asked_with asked place a }
{
    let asked = asked?;
    match a {
        Argument::Sign if place == 1 => Some(Asked {
            line: Some(2),
            recordings: None,
        }),
        Argument::Name => Some(named(asked, place)),
        _ => None,
    }
}

// LINE, or one RECORDING more; the program's own name is none.
fn named(asked: Asked, place: usize) -> Asked
    ensures { result ≡ named_at asked place }
{
    if place == asked.line.unwrap_or(0) {
        return asked;
    }
    let first = first_of(asked.recordings, place);
    Asked {
        recordings: Some(Recordings { first, last: place }),
        ..asked
    }
}

// The place of the first recording, or where there is none yet this one.
fn first_of(recordings: Option<Recordings>, place: usize) -> usize
    ensures { result ≡ first_of recordings place }
{
    match recordings {
        Some(named) if named.first != 0 => named.first,
        _ => place,
    }
}

// Behind the last of them; `count` counts the program's own name too. A LINE that is asked for has to be there.
pub fn asked_of(asked: Option<Asked>, count: usize) -> Option<Asked>
    ensures { result ≡ asked_of asked count }
{
    let asked = asked?;
    (asked.line.unwrap_or(0) < count).then_some(asked)
}

// All that is asked for is open: a LINE, or standard input and output; the last recording, to read and to append to, or none. No recording is
// replayed yet: the first is the next one.
pub fn ends_of(asked: Asked, line: i32, newest: i32, tape: i32) -> Ends
    ensures { result ≡ ends_of asked line newest tape }
{
    let online = asked.line.is_some();
    let last = last_of(asked.recordings);
    Ends {
        input: if online { line } else { 0 },
        output: if online { line } else { 1 },
        old: None,
        newest: last.map(|_| newest),
        tape: last.map(|_| tape),
        place: asked
            .recordings
            .map_or(0, |named| named.first.saturating_sub(1)),
        last,
        online,
    }
}

// The place of the last recording: the program's own name, which has place 0, is none.
fn last_of(recordings: Option<Recordings>) -> Option<usize>
    ensures { result ≡ last_of recordings }
{
    match recordings {
        Some(named) if named.last != 0 => Some(named.last),
        _ => None,
    }
}

// Whether there is a recording to replay before the line is heard.
pub fn replays(ends: Ends) -> bool
    ensures { result ≡ replays ends }
{
    ends.last.is_some()
}

// Whether a recording is named behind the one that is replayed.
pub fn names_left(ends: Ends) -> bool
    ensures { result ≡ names_left ends }
{
    ends.last.is_some_and(|last| ends.place < last)
}

// The place of the next recording, where it has to be opened; none where none is named, or where it is the last, which is open.
pub fn next_place(ends: Ends) -> Option<usize>
    ensures { result ≡ next_place ends }
{
    let last = ends.last?;
    let place = ends.place.checked_add(1)?;
    (place < last).then_some(place)
}

// The next recording is replayed, where one is named; `old` reads it, unless it is the last.
pub fn next_of(ends: Ends, old: i32) -> Ends
    ensures { result ≡ next_of ends old }
{
    if !names_left(ends) {
        return ends;
    }
    let newest = next_place(ends).is_none();
    Ends {
        old: if newest { ends.newest } else { Some(old) },
        place: ends.place + 1,
        ..ends
    }
}
