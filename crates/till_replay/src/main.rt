// A till end told of a list of events, and what it says of each. The crate `events` says what an event is.
#![tactic(auto)]

ghost use Rattle.std.specs.Prelude.{◌≡◌, ◌<◌, length};

use events::{End, TILL_ROOM};
use feeding::Unfed;
use reader::FRAME_ROOM;
use std::io::{Error, Result};
use system::Outlets;
use till::{Said, Till, Word};

// Events are read one by one to the end of the input.
fn main(rt: HostRuntime) {
    let to = Outlets {
        output: rt.stdout(),
        errors: rt.stderr(),
    };
    let mut frame = [0u8; FRAME_ROOM];
    let mut answer = [0u8; FRAME_ROOM];
    let mut event = [0u8; TILL_ROOM];
    let mut buf = [0u8; FRAME_ROOM];
    let mut till = till::fresh();
    for events in 0..u64::MAX {
        let fed = feeding::next_event(rt.stdin(), to.errors, End::Till, &mut event);
        let n = match fed {
            Ok(n) => n,
            Err(why) => {
                ended(to, why, events);
                return;
            }
        };
        let said = happen(till, &mut frame, &mut answer, &event, n, &mut buf);
        if let Err(why) = say(to, said.word, &buf) {
            unwritten(to, why);
            return;
        }
        till = said.till;
    }
}

// Why there are no more events: at the end of the input nothing is said.
fn ended(to: Outlets, why: Unfed, events: u64) {
    if why == Unfed::Ended {
        return;
    }
    system::write(&to.errors, b"error: after ");
    system::number(&to.errors, events);
    system::write(
        &to.errors,
        b" events comes one that is cut short or is none: a length, then 43h, 42h or 54h\n",
    );
}

fn unwritten(to: Outlets, why: Error) {
    system::fail(&to.errors, b"error: standard output can't be written", &why);
}

// One event, its first n bytes. What is lent is the front of the buffer.
fn happen(
    till: Till,
    frame: &mut [u8; FRAME_ROOM],
    answer: &mut [u8; FRAME_ROOM],
    event: &[u8],
    n: usize,
    buf: &mut [u8],
) -> Said
    requires event_len { length event.now ≡ 259 }
    requires n_bound { n < 260 }
    requires buf_len { length buf.old ≡ 256 }
{
    let lent = &mut buf[0..events::room_in(event)];
    if n < 3 {
        return till::timeout(till, &*frame, lent);
    }
    if n < 4 {
        return till::byte(till, &*frame, answer, event[2], lent);
    }
    till::command(till, frame, event[3], &event[4..n], lent)
}

// The reply number, the word, the count, and the bytes put in the buffer; of Unfinished the tries alone.
fn say(to: Outlets, word: Word, buf: &[u8]) -> Result<()> {
    let n = till::count(word);
    let number = till::number(word);
    let head = [number, place(word), (n % 256) as u8];
    to.output.write_all(&head)?;
    if number != 0 {
        return Ok(());
    }
    if buf.len() < n {
        return Ok(());
    }
    to.output.write_all(&buf[0..n])
}

// The word's place among the five words of PROTOCOL 7.1; 0 where there is none.
fn place(word: Word) -> u8 {
    match word {
        Word::TooShort | Word::NotSent => 0,
        Word::Idle => 1,
        Word::Waiting(_) => 2,
        Word::SendAgain(_) => 3,
        Word::Answered(_) => 4,
        Word::Unfinished(_) => 5,
    }
}
