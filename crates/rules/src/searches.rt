// What a command looks for in the sheet (PROTOCOL 5.4).
ghost use Rattle.std.specs.Prelude.{◌≡◌, cond};
ghost use Rattle.sheet.specs.Sheet.{line_of};
ghost use Rattle.sheet.specs.Searches.{no_search};
ghost use Rattle.rules.specs.Searches.{searched, search_for};

use crate::views::View;
use books::Books;
use kinds::Sale;
use sheet::{MOST_LINES, Search};

// Only a line taken off looks for one.
pub fn search_for(books: Books, view: View) -> Search
    ensures { result ≡ search_for books view }
{
    match view {
        View::Sells(s) => search_back(books, s),
        _ => no_search(),
    }
}

// Nothing is looked for.
pub fn no_search() -> Search
    ensures { result ≡ no_search }
{
    Search {
        lines: 0,
        wanted: sheet::blank_line(),
    }
}

// The line that a minus line takes back, among as many as the receipt has.
fn search_back(books: Books, s: Sale) -> Search
    ensures { result ≡ cond s.minus (record { lines = searched books; wanted = line_of s 0 }) no_search }
{
    if s.minus {
        return Search {
            lines: (books.receipt.lines as usize).min(MOST_LINES),
            wanted: sheet::line_of(s, 0),
        };
    }
    no_search()
}
