// The words of the fields of an answer (PROTOCOL chapter 5, *Answers*).
ghost use Rattle.std.specs.Prelude.{◌≡◌, [], get_or};
ghost use Rattle.words.specs.Words.{words_of};
ghost use Rattle.words.specs.Fields.{field_word, paid_word, counters, subtotal, groups, closure, drawer};

use crate::rows::{Words, words_of};

// The i-th field of the answer to a command, from 0, where commas stand between them; nothing where there is none.
pub fn field_word(code: u8, i: usize) -> Words
    ensures { result ≡ words_of (field_word code i) }
{
    words_of(field_text(code, i))
}

fn field_text(code: u8, i: usize) -> &'static [u8]
    ensures { result.now ≡ field_word code i }
{
    match code {
        38 | 39 | 48 | 56 => counter_text(i),
        51 => subtotal_text(i),
        65 | 97 => group_text(i),
        69 => closure_text(i),
        70 => drawer_text(i),
        _ => b"",
    }
}

// 38, 39, 48 and 56.
fn counter_text(i: usize) -> &'static [u8]
    ensures { result.now ≡ get_or counters i [] }
{
    match i {
        0 => b"All: receipts opened since the last closing",
        1 => b"Fiscal: fiscal ones among them",
        _ => b"",
    }
}

// 51.
fn subtotal_text(i: usize) -> &'static [u8]
    ensures { result.now ≡ get_or subtotal i [] }
{
    match i {
        0 => b"total",
        _ => group_text(i - 1),
    }
}

// 65 and 97.
fn group_text(i: usize) -> &'static [u8]
    ensures { result.now ≡ get_or groups i [] }
{
    match i {
        0 => b"group A",
        1 => b"group B",
        2 => b"group C",
        3 => b"group D",
        4 => b"group E",
        5 => b"group F",
        6 => b"group G",
        7 => b"group H",
        _ => b"",
    }
}

// 69.
fn closure_text(i: usize) -> &'static [u8]
    ensures { result.now ≡ get_or closure i [] }
{
    match i {
        0 => b"closings made so far",
        1 => b"FM: the total over all of them",
        _ => group_text(i - 2),
    }
}

// 70.
fn drawer_text(i: usize) -> &'static [u8]
    ensures { result.now ≡ get_or drawer i [] }
{
    match i {
        0 => b"P",
        1 => b"cash in the drawer",
        2 => b"In: put in since the last closing",
        3 => b"Out: taken out since the last closing",
        _ => b"",
    }
}

// PROTOCOL 5.6: what the sum behind `D` or `R` is (53).
pub fn paid_word(mark: u8) -> Words
    ensures { result ≡ words_of (paid_word mark) }
{
    words_of(match mark {
        0x44 => b"left to pay",
        0x52 => b"paid in full; the change",
        _ => b"",
    })
}
