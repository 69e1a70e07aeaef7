// The lines of a telling, as a text or as one page (HTML), put into a lent buffer one behind the other (EXPLAIN 2).
#![tactic(auto)]

ghost use Rattle.std.specs.Prelude.{cond, [], ◌∷◌};
ghost use Rattle.sentences.specs.Put.{Put};
ghost use Rattle.captions.specs.Captions.{label_word};
ghost use Rattle.pages.specs.Pages.{each, hex_of, page_letter, shown_as, thousandths, bytes_from, value_text, opened, closed, sectioned, named_by, titled, headed, ended};

use captions::{put_kind, put_label, put_saying};
use items::{Kind, Label, Value};
use sentences::{put, put_data, put_digits, put_hex, put_leva, put_number};

// Bytes in hexadecimal, a space before each.
pub fn put_hexes(buf: &mut [u8], at: usize, bytes: &[u8]) -> usize
    ensures { Put buf.old at (each hex_of bytes.now) buf.new result }
{
    let mut place = at.min(buf.len());
    for &b in bytes {
        place = put_byte(buf, place, b);
    }
    place
}

fn put_byte(buf: &mut [u8], at: usize, b: u8) -> usize
    ensures { Put buf.old at (hex_of b) buf.new result }
{
    let next = put(buf, at, b" ");
    put_hex(buf, next, b as u64)
}

// Bytes as letters: as a script writes data, and in a page with its marks by their names.
pub fn put_letters(buf: &mut [u8], at: usize, html: bool, bytes: &[u8]) -> usize
    ensures { Put buf.old at (shown_as html bytes.now) buf.new result }
{
    if html {
        return put_page_letters(buf, at, bytes);
    }
    put_data(buf, at, bytes)
}

fn put_page_letters(buf: &mut [u8], at: usize, bytes: &[u8]) -> usize
    ensures { Put buf.old at (each page_letter bytes.now) buf.new result }
{
    let mut place = at.min(buf.len());
    for &b in bytes {
        place = put_letter(buf, place, b);
    }
    place
}

// One letter; three would be read as marks of the page itself.
fn put_letter(buf: &mut [u8], at: usize, b: u8) -> usize
    ensures { Put buf.old at (page_letter b) buf.new result }
{
    match b {
        b'&' => put(buf, at, b"&amp;"),
        b'<' => put(buf, at, b"&lt;"),
        b'>' => put(buf, at, b"&gt;"),
        _ => put_data(buf, at, &[b]),
    }
}

// One of two texts.
fn put_either(buf: &mut [u8], at: usize, html: bool, page: &[u8], plain: &[u8]) -> usize
    ensures { Put buf.old at (cond html page.now plain.now) buf.new result }
{
    put(buf, at, if html { page } else { plain })
}

// A line begins with its label; in a page it is a row of a table.
pub fn put_open(buf: &mut [u8], at: usize, html: bool, label: &[u8]) -> usize
    ensures { Put buf.old at (opened html label.now) buf.new result }
{
    let first = put_either(buf, at, html, b"<tr><th>", b"  ");
    let second = put(buf, first, label);
    put_either(buf, second, html, b"</th><td>", b":")
}

// The same by a label that the library has.
pub fn put_labelled(buf: &mut [u8], at: usize, html: bool, label: Label) -> usize
    ensures { Put buf.old at (opened html (label_word label)) buf.new result }
{
    let first = put_either(buf, at, html, b"<tr><th>", b"  ");
    let second = put_label(buf, first, label);
    put_either(buf, second, html, b"</th><td>", b":")
}

// The end of a line.
pub fn put_close(buf: &mut [u8], at: usize, html: bool) -> usize
    ensures { Put buf.old at (closed html) buf.new result }
{
    put_either(buf, at, html, b"</td></tr>\n", b"\n")
}

// A value; nothing where there is none.
pub fn put_value(buf: &mut [u8], at: usize, value: Option<Value>) -> usize
    ensures { Put buf.old at (value_text value) buf.new result }
{
    let Some(value) = value else {
        return put(buf, at, b"");
    };
    match value {
        Value::Number(n) => put_number(buf, at, n),
        Value::Sum(n) => put_leva(buf, at, n),
        Value::Thousandths(n) => put_thousandths(buf, at, n),
        Value::Digits { width, number } => put_digits(buf, at, width, number),
        Value::Letter(b) => put_one(buf, at, b),
        Value::Byte(b) => put_hex(buf, at, b as u64),
        Value::Bytes { least, most } => put_between(buf, at, least, most),
        Value::InData => put(buf, at, b"09, 0a, 10, 20 to ff"),
        Value::Said(saying) => put_saying(buf, at, saying),
    }
}

// A quantity.
fn put_thousandths(buf: &mut [u8], at: usize, n: u64) -> usize
    ensures { Put buf.old at (thousandths n) buf.new result }
{
    let whole = put_number(buf, at, n / 1000);
    let point = put(buf, whole, b".");
    put_digits(buf, point, 3, n)
}

fn put_one(buf: &mut [u8], at: usize, b: u8) -> usize
    ensures { Put buf.old at (b ∷ []) buf.new result }
{
    put(buf, at, &[b])
}

fn put_between(buf: &mut [u8], at: usize, least: u8, most: u8) -> usize
    ensures { Put buf.old at (bytes_from least most) buf.new result }
{
    let first = put_hex(buf, at, least as u64);
    let to = put(buf, first, b" to ");
    put_hex(buf, to, most as u64)
}

// A frame begins with its offset, its name and what became of it; in a page with a section and its table.
pub fn put_heading(
    buf: &mut [u8],
    at: usize,
    html: bool,
    kind: Kind,
    offset: u64,
    name: &[u8],
) -> usize
    ensures { Put buf.old at (headed html kind offset name.now) buf.new result }
{
    let section = put_section(buf, at, html, kind);
    let title = put_title(buf, section, kind, offset, name);
    put_either(buf, title, html, b"</h2><table>\n", b"\n")
}

fn put_section(buf: &mut [u8], at: usize, html: bool, kind: Kind) -> usize
    ensures { Put buf.old at (sectioned html kind) buf.new result }
{
    if !html {
        return put(buf, at, b"");
    }
    let begun = put(buf, at, b"<section class='");
    let named = put_kind(buf, begun, kind);
    put(buf, named, b"'><h2>")
}

fn put_title(buf: &mut [u8], at: usize, kind: Kind, offset: u64, name: &[u8]) -> usize
    ensures { Put buf.old at (titled kind offset name.now) buf.new result }
{
    let word = put(buf, at, b"byte ");
    let number = put_number(buf, word, offset);
    let colon = put(buf, number, b": ");
    let named = put_name(buf, colon, name);
    put_kind(buf, named, kind)
}

fn put_name(buf: &mut [u8], at: usize, name: &[u8]) -> usize
    ensures { Put buf.old at (named_by name.now) buf.new result }
{
    if name.is_empty() {
        return put(buf, at, b"");
    }
    let named = put(buf, at, name);
    put(buf, named, b": ")
}

// The end of a frame's lines.
pub fn put_end(buf: &mut [u8], at: usize, html: bool) -> usize
    ensures { Put buf.old at (ended html) buf.new result }
{
    put_either(buf, at, html, b"</table></section>\n", b"\n")
}
