// The six status bytes of an answer (PROTOCOL chapter 3).
#![tactic(auto)]

ghost use Rattle.std.specs.Prelude.{◌≡◌};
ghost use Rattle.status.specs.Status.{verdict0, verdict1, receipts, memories, status_of};

use books::{Books, Opened};

// The status after a command with this reply number, which left these books.
pub fn status(number: u64, books: Books) -> [u8; 6]
    ensures { result ≡ status_of number books }
{
    let opened = books.opened;
    let first = verdict_first(number);
    let second = verdict_second(number);
    let third = receipts_open(opened);
    let fifth = memory_left(books);
    [first, second, third, 0x80, fifth, 0x9A]
}

fn verdict_first(number: u64) -> u8
    ensures { result ≡ verdict0 number }
{
    match number {
        1 => 0xA1,
        2 => 0xA2,
        3 => 0xA0,
        4 => 0xA0,
        _ => 0x80,
    }
}

fn verdict_second(number: u64) -> u8
    ensures { result ≡ verdict1 number }
{
    match number {
        3 => 0x82,
        4 => 0x83,
        _ => 0x80,
    }
}

fn receipts_open(opened: Opened) -> u8
    ensures { result ≡ receipts opened }
{
    match opened {
        Opened::Nothing => 0x80,
        Opened::Fiscal => 0x88,
        Opened::Text => 0xA0,
    }
}

// All three bits where none is free; one where at most 50 are.
fn memory_left(books: Books) -> u8
    ensures { result ≡ memories books }
{
    let memory = books.memory;
    let closings = memory.closings;
    let most = books::rates::capacity(books);
    if most <= closings {
        return 0xBE;
    }
    if most - closings <= 50 {
        return 0x8E;
    }
    0x86
}
