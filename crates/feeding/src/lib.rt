// The events of a replay, read from standard input one by one. What the system reads no contract can say: what is promised holds for whatever it
// answers. What is decided is in `events`.
#![tactic(auto)]

ghost use Rattle.std.specs.Prelude.{◌<◌, length};
ghost use Rattle.feeding.specs.Feeding.{Event};

use events::End;
use std::io::{Error, Read, Stderr, Stdin};

// Why no event was read: the input's end, or what can't be read; what is cut short or none, or too long for the buffer.
#[derive(Clone, Copy, PartialEq, Eq)]
pub enum Unfed {
    Ended,
    Broken,
}

// How many bytes the next event has, at the front of the buffer.
pub fn next_event(
    mut input: Stdin,
    errors: Stderr,
    end: End,
    event: &mut [u8],
) -> Result<usize, Unfed>
    ensures { Event end event.new result }
{
    if event.is_empty() {
        return Err(Unfed::Broken);
    }
    if !begun(input, errors, event) {
        return Err(Unfed::Ended);
    }
    let mut n = 1;
    loop {
        let whole = events::length_of(end, &event[..n]).ok_or(Unfed::Broken)?;
        if whole == n {
            return Ok(n);
        }
        let more = event.get_mut(n..whole).ok_or(Unfed::Broken)?;
        input.read_exact(more).map_err(|_| Unfed::Broken)?;
        n = whole;
    }
}

// The first byte of an event, where one comes.
fn begun(mut input: Stdin, errors: Stderr, event: &mut [u8]) -> bool
    requires { 0 < length event.old }
{
    match input.read(&mut event[..1]) {
        Ok(got) => 0 < got,
        Err(why) => {
            unread(errors, why);
            false
        }
    }
}

fn unread(errors: Stderr, why: Error) {
    system::fail(&errors, b"error: standard input can't be read", &why);
}
