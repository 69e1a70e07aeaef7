// Books with a part of them changed, and what is asked of a part.
ghost use Rattle.std.specs.Prelude.{◌≡◌};
ghost use Rattle.books.specs.Books.{fiscal_open, text_open, any_open, with_receipt, with_day, with_registers, with_drawer, with_counters};

use crate::{Books, Counters, Drawer, Opened};
use receipt::Receipt;

// Whether a fiscal receipt is open.
pub fn fiscal_open(o: Opened) -> bool
    ensures { result ≡ fiscal_open o }
{
    matches!(o, Opened::Fiscal)
}

// Whether a non-fiscal receipt is open.
pub fn text_open(o: Opened) -> bool
    ensures { result ≡ text_open o }
{
    matches!(o, Opened::Text)
}

// Whether a receipt of either kind is open.
pub fn any_open(o: Opened) -> bool
    ensures { result ≡ any_open o }
{
    matches!(o, Opened::Fiscal | Opened::Text)
}

// The books with this open, and this the fiscal receipt.
pub fn with_receipt(books: Books, opened: Opened, receipt: Receipt) -> Books
    ensures { result ≡ with_receipt books opened receipt }
{
    Books {
        opened,
        receipt,
        ..books
    }
}

// The books with these day sums.
pub fn with_day(books: Books, day: [u64; 8]) -> Books
    ensures { result ≡ with_day books day }
{
    Books { day, ..books }
}

// The books with these pay registers.
pub fn with_registers(books: Books, registers: [u64; 4]) -> Books
    ensures { result ≡ with_registers books registers }
{
    Books { registers, ..books }
}

// The books with this drawer.
pub fn with_drawer(books: Books, drawer: Drawer) -> Books
    ensures { result ≡ with_drawer books drawer }
{
    Books { drawer, ..books }
}

// The books with these counters.
pub fn with_counters(books: Books, counters: Counters) -> Books
    ensures { result ≡ with_counters books counters }
{
    Books { counters, ..books }
}
