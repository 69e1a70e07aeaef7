// A whole frame carried out (PROTOCOL 1.11): its command read, judged and done, and its answer built.
#![tactic(auto)]

ghost use Rattle.std.specs.Prelude.{◌≡◌, ◌≤◌, length};
ghost use Rattle.carrying.specs.Carrying.{search_in, deed_for};
ghost use Rattle.carrying.specs.Work.{worked, work_done};

use books::Books;
use deeds::Deed;
use kinds::{Command, Unread};
use rules::{searches, views};
use sheet::{Note, Search};
use wire::{ANSWER_ROOM, build};

// A command carried out: what is given back is the first `count` bytes of the lent buffer; the note is for the sheet.
#[derive(Clone, Copy)]
pub struct Work {
    pub number: u64,
    pub books: Books,
    pub count: usize,
    pub note: Note,
}

// What a command looks for in the sheet.
pub fn search_in(books: Books, parsed: Result<Command, Unread>) -> Search
    ensures { result ≡ search_in books parsed }
{
    match parsed {
        Ok(c) => searches::search_for(books, views::view_of(c)),
        Err(_) => searches::no_search(),
    }
}

// A command with its SEQ and CMD, its data as read, whether the guard lets it pass, and what the sheet says to it. The whole answer is
// built in the lent buffer; with less than 217 bytes it is 7.
pub fn carry_out(
    books: Books,
    m: Option<u64>,
    seq: u8,
    code: u8,
    passes: bool,
    parsed: Result<Command, Unread>,
    buf: &mut [u8],
) -> Work
    ensures buf_after { record { work = result; buffer = buf.new } ≡ worked books m seq code passes parsed buf.old }
    ensures count_bound { result.count ≤ 217 }
{
    if buf.len() < ANSWER_ROOM {
        return Work {
            number: 7,
            books,
            count: 0,
            note: Note::Nothing,
        };
    }
    answer(books, deed_for(books, m, passes, parsed), seq, code, buf)
}

fn answer(books: Books, deed: Deed, seq: u8, code: u8, buf: &mut [u8]) -> Work
    requires { 217 ≤ length buf.old }
    ensures buf_after { record { work = result; buffer = buf.new } ≡ work_done books seq code deed buf.old }
    ensures count_bound { result.count ≤ 217 }
{
    let day = books.day;
    let shown = deed.shown;
    let number = deed.number;
    let note = deed.note;
    let after = deed.books;
    let sums = after.day;
    let receipt = after.receipt;
    let groups = receipt.groups;
    sized(day, sums, groups);
    let n = answers::show(shown, day, after, buf);
    let status = answers::status(number, after);
    let built = build::seal_answer(buf, seq, code, n, status);
    Work {
        number,
        books: after,
        count: built.unwrap_or(0),
        note,
    }
}

// For the proof: what the types say. An answer's length rests on eight sums each.
fn sized(day: [u64; 8], sums: [u64; 8], groups: [u64; 8]) -> bool
    ensures { (length day ≡ 8) × (length sums ≡ 8) × (length groups ≡ 8) }
{
    true
}

fn deed_for(books: Books, m: Option<u64>, passes: bool, parsed: Result<Command, Unread>) -> Deed
    ensures { result ≡ deed_for books m passes parsed }
{
    match parsed {
        Ok(c) => {
            if passes {
                return acts::carry_out(books, m, c);
            }
            deeds::refuse(3, books)
        }
        Err(Unread::Syntax) => deeds::refuse(1, books),
        Err(Unread::Unknown) => deeds::refuse(2, books),
    }
}
