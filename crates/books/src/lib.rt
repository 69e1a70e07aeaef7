// The books: what the device remembers of receipts, day and drawer (PROTOCOL 8.3).
#![tactic(auto)]

pub mod parts;
pub mod rates;
pub mod registers;
pub mod sound;

ghost use Rattle.std.specs.Prelude.{◌≡◌};
ghost use Rattle.books.specs.Books.{fresh_books};

use receipt::Receipt;

// Which receipt is open.
#[derive(Clone, Copy)]
pub enum Opened {
    Nothing,
    Fiscal,
    Text,
}

// Receipts of both kinds, and fiscal ones, opened since the last closing.
#[derive(Clone, Copy)]
pub struct Counters {
    pub all: u64,
    pub fiscal: u64,
}

// Cash, and the service sums of the day.
#[derive(Clone, Copy)]
pub struct Drawer {
    pub cash: u64,
    pub put: u64,
    pub taken: u64,
}

// The fiscal memory: closings made so far, and the total over them.
#[derive(Clone, Copy)]
pub struct Memory {
    pub closings: u64,
    pub total: u64,
}

#[derive(Clone, Copy)]
pub struct Books {
    pub opened: Opened,
    pub receipt: Receipt,
    pub day: [u64; 8],
    // The pay registers of the day, in the order N, C, D, B.
    pub registers: [u64; 4],
    pub drawer: Drawer,
    pub counters: Counters,
    pub memory: Memory,
}

// What an answer shows of the books.
#[derive(Clone, Copy)]
pub enum Shown {
    Nothing,
    All,
    AllAndFiscal,
    Subtotal,
    Tendered { full: bool, left: u64 },
    DaySums,
    Taxes,
    Closure,
    InDrawer,
    Status,
    Rates,
}

// The books of a device that has just been made.
pub fn fresh() -> Books
    ensures { result ≡ fresh_books }
{
    Books {
        opened: Opened::Nothing,
        receipt: Receipt::empty(),
        day: [0u64; 8],
        registers: [0u64; 4],
        drawer: Drawer {
            cash: 0,
            put: 0,
            taken: 0,
        },
        counters: Counters { all: 0, fiscal: 0 },
        memory: Memory {
            closings: 0,
            total: 0,
        },
    }
}
