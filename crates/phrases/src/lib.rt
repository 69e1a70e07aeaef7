// The sentences in which programs tell of a script (SCRIPTS 6 to 8), put into a lent buffer. They are one table, a row to a line: strings of many
// branches are dear to prove.
#![tactic(auto)]

ghost use Rattle.std.specs.Prelude.{[], ◌∷◌, get_or, take};
ghost use Rattle.sentences.specs.Put.{Put};
ghost use Rattle.sentences.specs.Filled.{filled};
ghost use Rattle.phrases.specs.Sentences.{sentences, wrongs};

use sentences::{fill, front};
use words::rows::{Words, row_of};

// A sentence with a word and numbers.
pub fn sentence(buf: &mut [u8], at: usize, k: usize, word: &[u8], figures: &[u64]) -> usize
    ensures { Put buf.old at (filled (get_or sentences k []) word.now figures.now) buf.new result }
{
    let row = row_of(
        b" (~)|\n\x20(~): \n\
        \x20 try #, # byte: \n\x20 try #, # bytes: \n\
        \x20 answer #, # byte: \n\x20 answer #, # bytes: \n\
        arrives whole|\nbyte # becomes %|\nlost, nothing arrives|\n\
        \x20 device: hears nothing|\n\
        \x20 device: # bytes, nothing to say|\n\
        \x20 device: broken frame (5), NAK|\n\
        \x20 device: repeat (6), the last answer again|\n\
        \x20 device: carried out: ~ (#)\n\
        , ~|\n\
        |\n\
        \x20 till end: Answered # \"^\"\n\
        Answered, ~ (#)\n\
        \x20\"^\"\n\
        \x20 till end: Send again|\n\
        send again|\n\
        \x20 till end: UNFINISHED, no answer in five tries; it may be done all the same|\n\
        UNFINISHED: no answer in five tries; it may be done all the same, look before you send it anew|\n\
        \x20 till end: cannot be sent (8)|\n\
        cannot be sent (8)|\n\
        \x20 till end: nothing|\n\
        nothing|\n\
        books|  drawer: cash $, put in $, taken out $|\
        \x20 day: A $ B $ C $ D $ E $ F $ G $ H $|\
        \x20 registers: N $ C $ D $ B $|\
        \x20 counters: All #, Fiscal #, closings #, FM $|\n\
        \x20 no receipt is open|\n\
        \x20 a non-fiscal receipt is open|\n\
        \x20 a fiscal receipt is open: lines #, total $, paid $|\n\
        commands: # answered, # unfinished, # not sent; carried out by the device: #|\n\
        \x20 display: \"^\"|\n",
        k,
    );
    fill(buf, at, row, word, figures)
}

// A sentence with a word and no number.
pub fn plain(buf: &mut [u8], at: usize, k: usize, word: &[u8]) -> usize
    ensures { Put buf.old at (filled (get_or sentences k []) word.now []) buf.new result }
{
    sentence(buf, at, k, word, &[])
}

// A sentence with a text by value.
pub fn worded(buf: &mut [u8], at: usize, k: usize, words: Words, figures: &[u64]) -> usize
    ensures { Put buf.old at (filled (get_or sentences k []) (take words.count words.bytes) figures.now) buf.new result }
{
    sentence(buf, at, k, front(&words.bytes, words.count), figures)
}

// SCRIPTS 6: what is wrong with a line of a script, and 8: what stops a script on a real line.
pub fn wrong(buf: &mut [u8], at: usize, line: u64, why: u8) -> usize
    ensures { Put buf.old at (filled (get_or wrongs why []) [] (line ∷ [])) buf.new result }
{
    let row = row_of(
        b"error: line #: it is of no use|\n\
        error: line #: neither a command, which is a number 1 to 255 and its data, nor `try` nor `answer`|\n\
        error: line #: behind `\\` comes t, n, `\\`, or x and two hexadecimal digits|\n\
        error: line #: too long|\n\
        error: line #: a try has a number 1 to 5|\n\
        error: line #: what happens is `lost`, or `byte 7 becomes 00`|\n\
        error: line #: on a real line a script does not say what happens|\n\
        error: line #: UNFINISHED, and what follows is not sent; -k goes on|\n",
        why as usize,
    );
    fill(buf, at, row, b"", &[line])
}
