// What is told at the end of a script: the books, and how the commands ended (SCRIPTS 7), put into a lent buffer.
#![tactic(auto)]

ghost use Rattle.std.specs.Prelude.{◌≡◌};
ghost use Rattle.sentences.specs.Put.{Put};
ghost use Rattle.closing.specs.Closing.{figures_of, books_text, total_text};
ghost use Rattle.closing.specs.Private.{open_row};

use books::{Books, Opened};
use phrases::sentence;
use tally::Tally;

// Rows of the table of sentences.
const FIGURES: usize = 27;

const ENDED: usize = 31;

// The figures of the books, and the open receipt.
pub fn tell_books(buf: &mut [u8], at: usize, books: Books) -> usize
    ensures { Put buf.old at (books_text books) buf.new result }
{
    let receipt = books.receipt;
    let stands = [receipt.lines, receipt.total, receipt.paid];
    let next = sentence(buf, at, FIGURES, b"", &figures_of(books));
    sentence(buf, next, open_row(books.opened), b"", &stands)
}

fn figures_of(books: Books) -> [u64; 19]
    ensures { result ≡ figures_of books }
{
    let drawer = books.drawer;
    let counters = books.counters;
    let memory = books.memory;
    let day = books.day;
    let registers = books.registers;
    [
        drawer.cash,
        drawer.put,
        drawer.taken,
        day[0],
        day[1],
        day[2],
        day[3],
        day[4],
        day[5],
        day[6],
        day[7],
        registers[0],
        registers[1],
        registers[2],
        registers[3],
        counters.all,
        counters.fiscal,
        memory.closings,
        memory.total,
    ]
}

fn open_row(opened: Opened) -> usize
    ensures { result ≡ open_row opened }
{
    match opened {
        Opened::Nothing => 28,
        Opened::Fiscal => 30,
        Opened::Text => 29,
    }
}

// How the commands ended, and how often the device carried one out.
pub fn tell_total(buf: &mut [u8], at: usize, tally: Tally) -> usize
    ensures { Put buf.old at (total_text tally) buf.new result }
{
    let figures = [
        tally.answered,
        tally.unfinished,
        tally.unsent,
        tally.carried,
    ];
    sentence(buf, at, ENDED, b"", &figures)
}
