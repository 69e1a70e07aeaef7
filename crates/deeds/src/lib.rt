// What each command does to the books, judged alone (PROTOCOL chapter 5).
#![tactic(auto)]

pub mod drawer;
pub mod sales;
pub mod texts;

ghost use Rattle.std.specs.Prelude.{◌≡◌};
ghost use Rattle.rules.specs.declared.views.View.TheVariants.{Asks};
ghost use Rattle.sheet.specs.Sheet.{no_match};
ghost use Rattle.deeds.specs.Deeds.{refused_with, done, done_with, deed_of};

use books::{Books, Shown};
use rules::tests;
use rules::views::When;
use sheet::Note;

// The books afterwards, with the reply number, what the answer shows, and what is left in the sheet.
#[derive(Clone, Copy)]
pub struct Deed {
    pub number: u64,
    pub books: Books,
    pub shown: Shown,
    pub note: Note,
}

// Every command that changes nothing of the books: 42, 51 without Percent and Abs, 65, 69 with `2`, 70 without an amount, 74, 97, 100, 101, 102.
pub fn ask(books: Books, when: When, shown: Shown) -> Deed
    ensures { result ≡ deed_of books no_match (Asks when shown) }
{
    if tests::is_unmet(books, when) {
        return refuse(3, books);
    }
    finish(books, shown)
}

// A refusal: books and sheet stay.
pub fn refuse(number: u64, books: Books) -> Deed
    ensures { result ≡ refused_with number books }
{
    Deed {
        number,
        books,
        shown: Shown::Nothing,
        note: Note::Nothing,
    }
}

// A command done: number 0, and the sheet stays.
pub fn finish(books: Books, shown: Shown) -> Deed
    ensures { result ≡ done books shown }
{
    finish_with(books, shown, Note::Nothing)
}

// A command done that leaves something in the sheet.
pub fn finish_with(books: Books, shown: Shown, note: Note) -> Deed
    ensures { result ≡ done_with books shown note }
{
    Deed {
        number: 0,
        books,
        shown,
        note,
    }
}
