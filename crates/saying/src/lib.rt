// What the till end says of a try, and what an answer tells (SCRIPTS 7, 8), put into a lent buffer.
#![tactic(auto)]

ghost use Rattle.std.specs.Prelude.{◌≡◌, ◌<◌, cond, [], ◌∷◌, ◌++◌, eqb};
ghost use Rattle.sentences.specs.Put.{Put};
ghost use Rattle.saying.specs.Answers.{says_text, answer_text, opening_text, named_text, flag_text, bits_text, status_text};
ghost use Rattle.saying.specs.Private.{long_row, say_row};

use phrases::{plain, sentence, worded};
use sentences::{front, put};
use till::Word;
use writing::words::is;

const LINE_END: usize = 15;

const ANSWERED: usize = 16;

const ANSWERED_BRIEF: usize = 17;

const CONTENT: usize = 18;

// What the till end says. An answer's data and its status stand at the front of `got`.
pub fn says(buf: &mut [u8], at: usize, brief: bool, word: Word, got: &[u8]) -> usize
    ensures { Put buf.old at (says_text brief word got.now) buf.new result }
{
    match word {
        Word::Answered(count) => answered(buf, at, brief, front(got, count)),
        _ => plain(buf, at, say_row(brief, word), b""),
    }
}

// The sentence for a word; behind each stands the brief one.
fn say_row(brief: bool, word: Word) -> usize
    ensures { result ≡ say_row brief word }
{
    long_row(word) + usize::from(brief)
}

fn long_row(word: Word) -> usize
    ensures { (result ≡ long_row word) × (result < 26) }
{
    match word {
        Word::SendAgain(_) => 19,
        Word::Unfinished(_) => 21,
        Word::NotSent => 23,
        _ => 25,
    }
}

// An answer: its number, its data, and behind that the six status bytes.
fn answered(buf: &mut [u8], at: usize, brief: bool, all: &[u8]) -> usize
    ensures { Put buf.old at (answer_text brief all.now) buf.new result }
{
    if all.len() < 6 {
        return put(buf, at, b"");
    }
    let end = all.len() - 6;
    let number = verdict::verdict_in(all[end], all[end + 1]) as u64;
    let next = opening(buf, at, brief, number, &all[..end]);
    let last = status(buf, next, &all[end..]);
    plain(buf, last, LINE_END, b"")
}

fn opening(buf: &mut [u8], at: usize, brief: bool, number: u64, content: &[u8]) -> usize
    ensures { Put buf.old at (opening_text brief number content.now) buf.new result }
{
    let figures = [number];
    if brief {
        let next = worded(buf, at, ANSWERED_BRIEF, words::reply_word(number), &figures);
        return plain(buf, next, CONTENT, content);
    }
    sentence(buf, at, ANSWERED, content, &figures)
}

// The status bytes, each by its bits.
fn status(buf: &mut [u8], at: usize, bytes: &[u8]) -> usize
    ensures { Put buf.old at (status_text 0 bytes.now) buf.new result }
{
    let mut end = at.min(buf.len());
    for (i, &b) in bytes.iter().enumerate() {
        end = bits(buf, end, i, b);
    }
    end
}

// The bits of a status byte that are set, the lowest first.
fn bits(buf: &mut [u8], at: usize, place: usize, byte: u8) -> usize
    ensures { Put buf.old at (bits_text 7 0 place byte) buf.new result }
{
    let mut end = at.min(buf.len());
    let mut above = byte;
    for bit in 0..7 {
        end = flag(buf, end, above % 2 == 1, place, bit);
        above /= 2;
    }
    end
}

// What a bit says where it is set, and where it says anything.
fn flag(buf: &mut [u8], at: usize, set: bool, place: usize, bit: usize) -> usize
    ensures { Put buf.old at (cond set (flag_text place bit) []) buf.new result }
{
    if set {
        let named = words::status_word(place, bit);
        return named_flag(buf, at, front(&named.bytes, named.count));
    }
    put(buf, at, b"")
}

fn named_flag(buf: &mut [u8], at: usize, word: &[u8]) -> usize
    ensures { Put buf.old at (named_text word.now) buf.new result }
{
    if (word.len() == 0) | is(word, b"always") {
        return put(buf, at, b"");
    }
    let next = put(buf, at, b", ");
    put(buf, next, word)
}
