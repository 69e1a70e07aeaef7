// Money put into the drawer, or taken out (70).
ghost use Rattle.std.specs.Prelude.{◌≡◌};
ghost use Rattle.sheet.specs.Sheet.{no_match};
ghost use Rattle.rules.specs.declared.views.View.TheVariants.{Puts, Takes};
ghost use Rattle.deeds.specs.Deeds.{deed_of};

use crate::{Deed, finish, refuse};
use books::{Books, Drawer, Shown, parts};
use rules::tests::{is_price, passes};

// 70 with an amount: it is put into the drawer.
pub fn put_in(books: Books, n: u64) -> Deed
    ensures { result ≡ deed_of books no_match (Puts n) }
{
    let drawer = books.drawer;
    if !is_price(n) {
        return refuse(1, books);
    }
    if parts::any_open(books.opened) {
        return refuse(3, books);
    }
    if passes(drawer.cash, n) | passes(drawer.put, n) {
        return refuse(4, books);
    }
    let next = Drawer {
        cash: drawer.cash + n,
        put: drawer.put + n,
        ..drawer
    };
    finish(parts::with_drawer(books, next), Shown::InDrawer)
}

// 70 with `-` and an amount: it is taken out.
pub fn take_out(books: Books, n: u64) -> Deed
    ensures { result ≡ deed_of books no_match (Takes n) }
{
    let drawer = books.drawer;
    if !is_price(n) {
        return refuse(1, books);
    }
    if parts::any_open(books.opened) | (drawer.cash < n) {
        return refuse(3, books);
    }
    if passes(drawer.taken, n) {
        return refuse(4, books);
    }
    let next = Drawer {
        cash: drawer.cash - n,
        taken: drawer.taken + n,
        ..drawer
    };
    finish(parts::with_drawer(books, next), Shown::InDrawer)
}
