// Every command carried out, on any books (PROTOCOL chapter 5).
#![tactic(auto)]

pub mod fiscal;

ghost use Rattle.std.specs.Prelude.{◌≡◌};
ghost use Rattle.deeds.specs.Deeds.{deed_of, carried_out};

use books::Books;
use deeds::{Deed, ask, drawer, sales, texts};
use kinds::Command;
use rules::views;
use rules::views::View;

// Any command on any books, with what the sheet says to it.
pub fn carry_out(books: Books, m: Option<u64>, command: Command) -> Deed
    ensures { result ≡ carried_out books m command }
{
    act(books, m, views::view_of(command))
}

fn act(books: Books, m: Option<u64>, view: View) -> Deed
    ensures { result ≡ deed_of books m view }
{
    match view {
        View::Opens => fiscal::open_fiscal(books),
        View::Sells(s) => sales::sell(books, m, s),
        View::Adjusts(a) => sales::adjust(books, a),
        View::Pays(p) => sales::pay(books, p),
        View::Closes => fiscal::close(books),
        View::Cancels => sales::cancel(books),
        View::OpensText => texts::open_text(books),
        View::ClosesText => texts::close_text(books),
        View::Clears => fiscal::clear(books),
        View::Puts(n) => drawer::put_in(books, n),
        View::Takes(n) => drawer::take_out(books, n),
        View::Asks { when, shown } => ask(books, when, shown),
    }
}
