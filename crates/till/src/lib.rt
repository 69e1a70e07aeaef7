// The till end: it hands out command frames, hears the device's bytes, and gives a command up after five tries (PROTOCOL chapter 7).
#![tactic(auto)]

ghost use Rattle.std.specs.Prelude.{◌≡◌, false, cond, List, ◌++◌, ℕ, ◌+◌, ◌≤◌, ◌<◌, eqb, length, take, drop};
ghost use Rattle.std.proofs.lemmas.List.Edits.{sets};
ghost use Rattle.till.specs.Words.{number_of, count_of};
ghost use Rattle.till.specs.Turns.{command, byte, timeout, fresh_ear, fresh_state, seq_after};
ghost use Rattle.till.specs.Fields.{ear_of, till_of, framed, held_in, said_of, turn_of};
ghost use Rattle.till.specs.Private.{spoken, failed_by, heard_by, judged, sent_by};
ghost use Rattle.till.specs.declared.Word.TheVariants.{Waiting, Answered, NotSent};

use reader::{FRAME_ROOM, Heard, Reader, Taken};
use wire::{COMMAND_ROOM, Way};

// PROTOCOL 7.6: as often as a frame is handed out at most.
pub const MOST_TRIES: u8 = 5;

// PROTOCOL 7.3: the SEQ of the first command.
const FIRST_SEQ: u8 = 0x20;

// PROTOCOL 7.3: the last SEQ; behind it the first comes again.
const LAST_SEQ: u8 = 0xFF;

// What the try under way has heard. The answer's bytes so far stand at the front of a lent array.
#[derive(Clone, Copy)]
pub struct Ear {
    pub reader: Reader,
}

// A command that waits. Its frame is the first `count` bytes of a lent array.
#[derive(Clone, Copy)]
pub struct Attempt {
    pub seq: u8,
    pub code: u8,
    pub tries: u8,
    pub count: u8,
    pub ear: Ear,
}

// `next` is the SEQ of the next command; `slot` holds the one that waits, if one does.
#[derive(Clone, Copy)]
pub struct Till {
    pub next: u8,
    pub slot: Option<Attempt>,
}

// What the till end says, with how many bytes it put in the lent buffer, or the number of tries.
#[derive(Clone, Copy)]
pub enum Word {
    Idle,
    Waiting(usize),
    SendAgain(usize),
    Answered(usize),
    Unfinished(usize),
    TooShort,
    NotSent,
}

// The till end after an event, and its word.
#[derive(Clone, Copy)]
pub struct Said {
    pub till: Till,
    pub word: Word,
}

// What a byte is to the command that waits (PROTOCOL 7.5); an answer with the number of its data bytes.
#[derive(Clone, Copy)]
enum Verdict {
    Fails,
    GoesOn,
    Answers(usize),
}

// A till end with no command waiting.
pub fn fresh() -> Till
    ensures { result ≡ till_of fresh_state }
{
    Till {
        next: FIRST_SEQ,
        slot: None,
    }
}

// The reply number of a word.
pub fn number(word: Word) -> u8
    ensures { result ≡ number_of word }
{
    match word {
        Word::Idle | Word::Waiting(_) | Word::SendAgain(_) | Word::Answered(_) => 0,
        Word::Unfinished(_) => 9,
        Word::TooShort => 7,
        Word::NotSent => 8,
    }
}

// What a word gives back: a count of bytes, or of tries.
pub fn count(word: Word) -> usize
    ensures { result ≡ count_of word }
{
    match word {
        Word::Idle | Word::TooShort | Word::NotSent => 0,
        Word::Waiting(n) | Word::SendAgain(n) | Word::Answered(n) | Word::Unfinished(n) => n,
    }
}

// A command to be sent. The answer's array is not lent: nothing that it holds plays a part.
pub fn command(
    till: Till,
    frame: &mut [u8; FRAME_ROOM],
    code: u8,
    content: &[u8],
    buf: &mut [u8],
) -> Said
    ensures by_index { (answer : List ℕ) → result ≡ said_of till (turn_of till frame.old answer buf.old (command code content.now)) }
    ensures by_index_2 { (answer : List ℕ) → frame.new ≡ framed frame.old (turn_of till frame.old answer buf.old (command code content.now)).state.pending }
    ensures by_index_3 { (answer : List ℕ) → buf.new ≡ sets buf.old 0 (turn_of till frame.old answer buf.old (command code content.now)).puts }
{
    if buf.len() < COMMAND_ROOM {
        return Said {
            till,
            word: Word::TooShort,
        };
    }
    let None = till.slot else {
        return Said {
            till,
            word: Word::NotSent,
        };
    };
    send(till.next, frame, code, content, buf)
}

// The frame is built in its own array, and handed out from there at every try.
fn send(next: u8, frame: &mut [u8; FRAME_ROOM], code: u8, content: &[u8], buf: &mut [u8]) -> Said
    ensures value { result ≡ spoken (sent_by next code content.now) }
    ensures frame_after { frame.new ≡ framed frame.old (sent_by next code content.now).state.pending }
    ensures buf_after { buf.new ≡ sets buf.old 0 (sent_by next code content.now).puts }
{
    let built = wire::build::build_command(frame, next, code, content);
    let Ok(n) = built else {
        return free(next, Word::NotSent);
    };
    put_part(&*frame, 0, n, buf, 0);
    let first = Attempt {
        seq: next,
        code,
        tries: 1,
        count: n as u8,
        ear: listen(),
    };
    held(seq_after(next), first, Word::Waiting(n))
}

// What is said where a command waits.
fn held(next: u8, a: Attempt, word: Word) -> Said
    ensures { result ≡ record { till = record { next = next; slot = Some a }; word = word } }
{
    Said {
        till: Till {
            next,
            slot: Some(a),
        },
        word,
    }
}

// What is said where no command waits.
fn free(next: u8, word: Word) -> Said
    ensures { result ≡ record { till = record { next = next; slot = None }; word = word } }
{
    Said {
        till: Till { next, slot: None },
        word,
    }
}

// A try that begins has heard nothing.
fn listen() -> Ear
    ensures { result ≡ ear_of fresh_ear }
{
    Ear {
        reader: reader::fresh(),
    }
}

// SEQ goes up by one and round.
fn seq_after(seq: u8) -> u8
    ensures { result ≡ seq_after seq }
{
    if seq == LAST_SEQ { FIRST_SEQ } else { seq + 1 }
}

// The n bytes from `start` on, put into the lent buffer.
fn put_part(from: &[u8], start: usize, n: usize, buf: &mut [u8], at: usize)
    requires { start + n ≤ length from.now }
    ensures { buf.new ≡ sets buf.old at (take n (drop start from.now)) }
{
    let end = start + n;
    text::put_bytes(buf, at, &from[start..end]);
}

// A byte from the line.
pub fn byte(
    till: Till,
    frame: &[u8; FRAME_ROOM],
    answer: &mut [u8; FRAME_ROOM],
    b: u8,
    buf: &mut [u8],
) -> Said
    ensures value { result ≡ said_of till (turn_of till frame.now answer.old buf.old (byte b)) }
    ensures answer_after { answer.new ≡ held_in answer.old (turn_of till frame.now answer.old buf.old (byte b)).state.pending }
    ensures buf_after { buf.new ≡ sets buf.old 0 (turn_of till frame.now answer.old buf.old (byte b)).puts }
{
    if buf.len() < COMMAND_ROOM {
        return Said {
            till,
            word: Word::TooShort,
        };
    }
    let Some(a) = till.slot else {
        return Said {
            till,
            word: Word::Idle,
        };
    };
    hear(till.next, a, frame, answer, b, buf)
}

// A byte to a command that waits. It is read first: NAK outside an answer leaves reading where it stands.
fn hear(
    next: u8,
    a: Attempt,
    frame: &[u8; FRAME_ROOM],
    answer: &mut [u8; FRAME_ROOM],
    b: u8,
    buf: &mut [u8],
) -> Said
    ensures value { result ≡ spoken (heard_by next a frame.now answer.old b) }
    ensures answer_after { answer.new ≡ held_in answer.old (heard_by next a frame.now answer.old b).state.pending }
    ensures buf_after { buf.new ≡ sets buf.old 0 (heard_by next a frame.now answer.old b).puts }
{
    let reader = a.ear.reader;
    let taken = reader::take_byte(Way::ToTill, reader, answer, b);
    let nak = nak_outside(reader.inside, b);
    match judge(nak, a.seq, a.code, b, taken.heard) {
        Verdict::Fails => failed_try(next, a, frame, buf),
        Verdict::GoesOn => goes_on(next, a, taken),
        Verdict::Answers(n) => answered(next, &*answer, n, buf),
    }
}

// What a byte is to the command that waits, by what the reader tells of it.
fn judge(nak: bool, seq: u8, code: u8, b: u8, heard: Heard) -> Verdict
    ensures { result ≡ judged nak seq code b heard }
{
    match heard {
        _ if nak => Verdict::Fails,
        Heard::Nothing => Verdict::GoesOn,
        Heard::Broken if b == 0x01 => Verdict::GoesOn,
        Heard::Whole {
            seq: s,
            code: c,
            count,
        } if s == seq && c == code => Verdict::Answers(count),
        _ => Verdict::Fails,
    }
}

// NAK, outside an answer.
fn nak_outside(within: bool, b: u8) -> bool
    ensures { result ≡ cond within false (eqb b 0x15) }
{
    !within && b == 0x15
}

// One byte more, of an answer or beside one. That the count is a byte is for its caller.
fn goes_on(next: u8, a: Attempt, taken: Taken) -> Said
    ensures count_bound { a.count < 256 }
    ensures value { result ≡ record { till = record { next = next; slot = Some (record { seq = a.seq; code = a.code; tries = a.tries; count = a.count; ear = record { reader = taken.reader } }) }; word = Waiting 0 } }
{
    let more = Attempt {
        ear: Ear {
            reader: taken.reader,
        },
        ..a
    };
    held(next, more, Word::Waiting(0))
}

// The answer's n data bytes, and behind them its six status bytes.
fn answered(next: u8, answer: &[u8], n: usize, buf: &mut [u8]) -> Said
    requires { n + 10 ≤ length answer.now }
    ensures value { result ≡ record { till = record { next = next; slot = None }; word = Answered (n + 6) } }
    ensures buf_after { buf.new ≡ sets buf.old 0 (take n (drop 3 answer.now) ++ take 6 (drop (4 + n) answer.now)) }
{
    put_part(answer, 3, n, buf, 0);
    put_part(answer, n + 4, 6, buf, n);
    free(next, Word::Answered(n + 6))
}

// The same frame again, up to the fifth try.
fn failed_try(next: u8, a: Attempt, frame: &[u8; FRAME_ROOM], buf: &mut [u8]) -> Said
    ensures value { result ≡ spoken (failed_by next a frame.now) }
    ensures buf_after { buf.new ≡ sets buf.old 0 (failed_by next a frame.now).puts }
{
    let tries = a.tries;
    let count = a.count;
    if tries < MOST_TRIES {
        put_part(frame, 0, count as usize, buf, 0);
        let again = Attempt {
            tries: tries + 1,
            ear: listen(),
            ..a
        };
        return held(next, again, Word::SendAgain(count as usize));
    }
    free(next, Word::Unfinished(tries as usize))
}

// No byte in time. The answer's array plays no part here either: a failed try leaves it.
pub fn timeout(till: Till, frame: &[u8; FRAME_ROOM], buf: &mut [u8]) -> Said
    ensures by_index { (answer : List ℕ) → result ≡ said_of till (turn_of till frame.now answer buf.old timeout) }
    ensures by_index_2 { (answer : List ℕ) → buf.new ≡ sets buf.old 0 (turn_of till frame.now answer buf.old timeout).puts }
{
    if buf.len() < COMMAND_ROOM {
        return Said {
            till,
            word: Word::TooShort,
        };
    }
    let Some(a) = till.slot else {
        return Said {
            till,
            word: Word::Idle,
        };
    };
    failed_try(till.next, a, frame, buf)
}
