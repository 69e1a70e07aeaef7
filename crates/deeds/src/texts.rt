// The non-fiscal receipt opened and closed (38, 39).
ghost use Rattle.std.specs.Prelude.{◌≡◌};
ghost use Rattle.sheet.specs.Sheet.{no_match};
ghost use Rattle.rules.specs.declared.views.View.TheVariants.{OpensText, ClosesText};
ghost use Rattle.deeds.specs.Deeds.{deed_of};

use crate::{Deed, finish, refuse};
use books::{Books, Counters, Opened, Shown, parts};
use rules::tests::are_many;

// 38: a non-fiscal receipt is opened.
pub fn open_text(books: Books) -> Deed
    ensures { result ≡ deed_of books no_match OpensText }
{
    if parts::any_open(books.opened) | are_many(books) {
        return refuse(3, books);
    }
    let counters = Counters {
        all: books.counters.all + 1,
        ..books.counters
    };
    let next = Books {
        opened: Opened::Text,
        counters,
        ..books
    };
    finish(next, Shown::All)
}

// 39: the non-fiscal receipt is closed.
pub fn close_text(books: Books) -> Deed
    ensures { result ≡ deed_of books no_match ClosesText }
{
    if !parts::text_open(books.opened) {
        return refuse(3, books);
    }
    let next = Books {
        opened: Opened::Nothing,
        ..books
    };
    finish(next, Shown::All)
}
