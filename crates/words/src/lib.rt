// The words that all programs use for commands, replies, reasons, status bits and the fields of answers (PROTOCOL 5.1, 2.1, 3.1).
#![tactic(auto)]

pub mod fields;
pub mod rows;

ghost use Rattle.std.specs.Prelude.{◌≡◌};
ghost use Rattle.words.specs.Words.{words_of};
ghost use Rattle.words.specs.Names.{command_word, reply_word, reason_word, status_word};

use reasons::Reason;
use rows::{Words, row, words_of};

// PROTOCOL 5.1: what a command is called.
pub fn command_word(code: u8) -> Words
    ensures { result ≡ words_of (command_word code) }
{
    words_of(command_text(code))
}

fn command_text(code: u8) -> &'static [u8]
    ensures { result.now ≡ command_word code }
{
    match code {
        38 => b"open a non-fiscal receipt",
        39 => b"close the non-fiscal receipt",
        42 => b"a line of text",
        48 => b"open a fiscal receipt",
        49 => b"a sale",
        51 => b"subtotal",
        53 => b"total",
        56 => b"close the fiscal receipt",
        60 => b"cancel the fiscal receipt",
        65 => b"sums of the day",
        69 => b"the closing",
        70 => b"the drawer",
        74 => b"status",
        97 => b"rates",
        100 => b"a text for the display",
        101 => b"change a password",
        102 => b"change a name",
        _ => b"unknown command",
    }
}

// PROTOCOL 2.1: the ten numbers; nothing for any other.
pub fn reply_word(number: u64) -> Words
    ensures { result ≡ words_of (reply_word number) }
{
    words_of(reply_text(number))
}

fn reply_text(number: u64) -> &'static [u8]
    ensures { result.now ≡ reply_word number }
{
    match number {
        0 => b"done",
        1 => b"syntax",
        2 => b"unknown command",
        3 => b"not permitted now",
        4 => b"overflow of a sum",
        5 => b"broken frame",
        6 => b"repeat",
        7 => b"too little is lent",
        8 => b"cannot be sent",
        9 => b"Unfinished",
        _ => b"",
    }
}

// PROTOCOL chapter 5, *Refused*: each reason.
pub fn reason_word(reason: Reason) -> Words
    ensures { result ≡ words_of (reason_word reason) }
{
    words_of(reason_text(reason))
}

fn reason_text(reason: Reason) -> &'static [u8]
    ensures { result.now ≡ reason_word reason }
{
    match reason {
        Reason::Done => b"done",
        Reason::Syntax => b"the data is not of the command's form",
        Reason::OutOfRange => b"a number that no data gives",
        Reason::Unknown => b"there is no such command",
        Reason::WrongPassword => b"the password is wrong",
        Reason::Locked => b"three wrong passwords have locked the device",
        Reason::ReceiptOpen => b"a receipt is open",
        Reason::ManyReceipts => b"9999 receipts were opened since the last closing",
        Reason::MemoryFull => b"the memory is full: 1825 closings are made",
        Reason::NoFiscal => b"no fiscal receipt is open",
        Reason::PaymentDone => b"a 53 has been done on this receipt",
        Reason::ManyLines => b"the receipt has 512 lines already",
        Reason::GroupDisabled => b"the group is disabled",
        Reason::OffAboveLine => b"the amount taken off is above the line",
        Reason::NoLineBack => b"there is no such line to take back",
        Reason::OffAboveGroup => b"the line taken back is above what its group has",
        Reason::NoTotal => b"the receipt's total is zero",
        Reason::OffAboveTotal => b"the amount taken off is above the total",
        Reason::PaidInFull => b"the receipt is paid in full",
        Reason::AboveRest => b"it is not cash, and above the rest",
        Reason::NotPaid => b"the receipt is not paid in full",
        Reason::NoText => b"no non-fiscal receipt is open",
        Reason::LittleCash => b"there is less than that in the drawer",
        Reason::ManyFiscal => b"Fiscal would pass its four digits",
        Reason::LineOver => b"price times quantity is above 999999.99",
        Reason::FinishedOver => b"the finished line is above 999999.99",
        Reason::NotTheSum => b"the total is not the sum of its groups, or passes ten digits",
        Reason::TotalOver => b"the receipt's total would pass ten digits",
        Reason::GroupOver => b"the group's day sum would pass twelve digits",
        Reason::RegisterOver => b"cash, or the mode's register, would pass twelve digits",
        Reason::DayOver => b"a day sum would pass twelve digits",
        Reason::MemoryOver => b"FM would pass seventeen digits",
        Reason::CashOver => b"cash would pass twelve digits",
        Reason::InOver => b"In would pass twelve digits",
        Reason::OutOver => b"Out would pass twelve digits",
    }
}

// PROTOCOL 3.1: what a status bit says that is set, both counted from 0; nothing where it is always 0. A table of one text, a row to
// a line of it, and a byte to a line here: pairs of numbers are dear to prove.
pub fn status_word(byte: usize, bit: usize) -> Words
    ensures { result ≡ words_of (status_word byte bit) }
{
    if (8 <= bit) | (6 <= byte) {
        return words_of(b"");
    }
    row(
        b"this command: syntax\nthis command: unknown\n\n\n\nthis command was refused\n\nalways\n\
        this command: overflow of a sum\nthis command: not permitted, or overflow\n\n\n\n\n\nalways\n\
        \n\n\na fiscal receipt is open\n\na non-fiscal receipt is open\n\nalways\n\
        \n\n\n\n\n\n\nalways\n\
        \nalways\nalways\nat most 50 closings are free\nno closing is free\nno closing is free\n\nalways\n\
        \nalways\n\nalways\nalways\n\n\nalways\n",
        byte * 8 + bit,
    )
}
