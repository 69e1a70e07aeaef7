// The lines of a telling, each a label and a value, put into a lent buffer one behind the other (EXPLAIN 2). Each function says the place behind
// its text, or the buffer's end.
#![tactic(auto)]

ghost use Rattle.std.specs.Prelude.{◌++◌};
ghost use Rattle.letters.specs.Letters.{bytes};
ghost use Rattle.sentences.specs.Put.{Put};
ghost use Rattle.captions.specs.Captions.{label_word};
ghost use Rattle.pages.specs.Pages.{shown_as, closed};
ghost use Rattle.entries.specs.Entries.{item_text, four_text, bytes_text, letters_text, some_text, said_text};

use items::{Four, Item, Label};
use pages::{put_close, put_hexes, put_labelled, put_open};
use sentences::put;

// A value with its label; nothing where there is no line.
pub fn put_item(buf: &mut [u8], at: usize, html: bool, item: Option<Item>) -> usize
    ensures { Put buf.old at (item_text html item) buf.new result }
{
    let Some(item) = item else {
        return put(buf, at, b"");
    };
    let told = put_labelled(buf, at, html, item.label);
    let next = put(buf, told, b" ");
    let end = pages::put_value(buf, next, Some(item.value));
    put_close(buf, end, html)
}

pub fn put_four(buf: &mut [u8], at: usize, html: bool, lines: Four) -> usize
    ensures { Put buf.old at (four_text html lines) buf.new result }
{
    let [first, second, third, fourth] = lines;
    let one = put_item(buf, at, html, first);
    let two = put_item(buf, one, html, second);
    let three = put_item(buf, two, html, third);
    put_item(buf, three, html, fourth)
}

// Bytes in hexadecimal: some, more of them, and the last.
pub fn put_bytes(
    buf: &mut [u8],
    at: usize,
    html: bool,
    label: Label,
    first: &[u8],
    some: &[u8],
    last: &[u8],
) -> usize
    ensures { Put buf.old at (bytes_text html label first.now some.now last.now) buf.new result }
{
    let told = put_labelled(buf, at, html, label);
    let one = put_hexes(buf, told, first);
    let two = put_hexes(buf, one, some);
    let end = put_hexes(buf, two, last);
    put_close(buf, end, html)
}

// Bytes as a text; nothing where there are none.
pub fn put_some(buf: &mut [u8], at: usize, html: bool, label: Label, letters: &[u8]) -> usize
    ensures { Put buf.old at (some_text html label letters.now) buf.new result }
{
    if letters.len() == 0 {
        return put(buf, at, b"");
    }
    put_text(buf, at, html, label, letters)
}

// The same also where there are none.
pub fn put_text(buf: &mut [u8], at: usize, html: bool, label: Label, letters: &[u8]) -> usize
    ensures { Put buf.old at (letters_text html (label_word label) letters.now) buf.new result }
{
    let told = put_labelled(buf, at, html, label);
    put_letters(buf, told, html, letters)
}

// The same of a field that a word names.
pub fn put_field(buf: &mut [u8], at: usize, html: bool, word: &[u8], letters: &[u8]) -> usize
    ensures { Put buf.old at (letters_text html word.now letters.now) buf.new result }
{
    let told = put_open(buf, at, html, word);
    put_letters(buf, told, html, letters)
}

// What stands behind the label.
fn put_letters(buf: &mut [u8], at: usize, html: bool, letters: &[u8]) -> usize
    ensures { Put buf.old at (bytes " " ++ shown_as html letters.now ++ closed html) buf.new result }
{
    let next = put(buf, at, b" ");
    let end = pages::put_letters(buf, next, html, letters);
    put_close(buf, end, html)
}

// A sentence with a word and numbers.
pub fn put_said(
    buf: &mut [u8],
    at: usize,
    html: bool,
    label: Label,
    sentence: &[u8],
    word: &[u8],
    figures: &[u64],
) -> usize
    ensures { Put buf.old at (said_text html label sentence.now word.now figures.now) buf.new result }
{
    let told = put_labelled(buf, at, html, label);
    let end = sentences::fill(buf, told, sentence, word, figures);
    put_close(buf, end, html)
}
