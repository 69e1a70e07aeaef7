// Cash and the four pay registers, by the mode of a payment (PROTOCOL 5.6).
ghost use Rattle.std.specs.Prelude.{◌≡◌};
ghost use Rattle.books.specs.Registers.{place, register_of, with_register};

use crate::Books;
use kinds::Mode;

fn place_of(mode: Mode) -> usize
    ensures { result ≡ place mode }
{
    match mode {
        Mode::N => 0,
        Mode::C => 1,
        Mode::D => 2,
        Mode::B => 3,
        Mode::Cash => 4,
    }
}

// What the mode's register has, or cash.
pub fn register_of(books: Books, mode: Mode) -> u64
    ensures { result ≡ register_of books mode }
{
    let i = place_of(mode);
    if i < 4 {
        return books.registers[i];
    }
    books.drawer.cash
}

// The books with this in the mode's register, or as cash.
pub fn with_register(books: Books, mode: Mode, sum: u64) -> Books
    ensures { result ≡ with_register books mode sum }
{
    let i = place_of(mode);
    let mut next = books;
    if i < 4 {
        next.registers[i] = sum;
    } else {
        next.drawer.cash = sum;
    }
    next
}
