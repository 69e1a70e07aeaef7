// An answer told: its bytes, its data field by field, and its status bits, put into a lent buffer (EXPLAIN 2). Each function says the place
// behind its text, or the buffer's end.
#![tactic(auto)]

ghost use Rattle.std.specs.Prelude.{◌≡◌, ◌≤◌, cond, [], length, drop};
ghost use Rattle.text.specs.Parts.{up_to};
ghost use Rattle.words.specs.Fields.{field_word};
ghost use Rattle.sentences.specs.Put.{Put};
ghost use Rattle.entries.specs.Entries.{letters_text};
ghost use Rattle.unfolding.specs.Answers.{given_text, fields_text, paid_text, content_text, named_text, flag_text, bits_text, flags_text, status_text, answer_text};

use entries::{put_bytes, put_field};
use items::Label;
use sentences::{front, put};
use words::fields;
use writing::words::is;

// The bytes of an answer.
pub fn put_given(buf: &mut [u8], at: usize, html: bool, given: &[u8]) -> usize
    ensures { Put buf.old at (given_text html given.now) buf.new result }
{
    put_bytes(buf, at, html, Label::Answer, b"", given, b"")
}

// The same, its data field by field, and its status; nothing of one that is too short to be an answer.
pub fn put_answer(buf: &mut [u8], at: usize, html: bool, code: u8, given: &[u8]) -> usize
    ensures { Put buf.old at (answer_text html code given.now) buf.new result }
{
    if given.len() < 17 {
        return put(buf, at, b"");
    }
    let end = given.len() - 13;
    let first = end + 1;
    let after = end + 7;
    let told = put_given(buf, at, html, given);
    let next = put_content(buf, told, html, code, &given[4..end]);
    put_status(buf, next, html, &given[first..after])
}

// The data, by the command's code.
fn put_content(buf: &mut [u8], at: usize, html: bool, code: u8, content: &[u8]) -> usize
    ensures { Put buf.old at (content_text html code content.now) buf.new result }
{
    match code {
        74 => put(buf, at, b""),
        53 => put_paid(buf, at, html, content),
        _ => put_fields(buf, at, html, code, content),
    }
}

// A letter and a sum.
fn put_paid(buf: &mut [u8], at: usize, html: bool, content: &[u8]) -> usize
    ensures { Put buf.old at (paid_text html content.now) buf.new result }
{
    if content.len() == 0 {
        return put(buf, at, b"");
    }
    let name = fields::paid_word(content[0]);
    let word = name.bytes;
    put_field(buf, at, html, front(&word, name.count), &content[1..])
}

// Each field up to its comma.
fn put_fields(buf: &mut [u8], at: usize, html: bool, code: u8, content: &[u8]) -> usize
    ensures { Put buf.old at (fields_text (length content.now) html code 0 content.now) buf.new result }
{
    let mut place = at.min(buf.len());
    let mut from = 0;
    let mut i = 0;
    while from < content.len() {
        let field = field_at(content, from);
        place = put_named(buf, place, html, code, i, field);
        from += field.len() + 1;
        i += 1;
    }
    place
}

// The field that begins at a place.
fn field_at(content: &[u8], from: usize) -> &[u8]
    requires { from ≤ length content.now }
    ensures { result.now ≡ up_to 0x2C (drop from content.now) }
{
    let rest = &content[from..];
    let n = text::find(rest, 0x2C);
    &rest[..n]
}

// A field by its name.
fn put_named(buf: &mut [u8], at: usize, html: bool, code: u8, i: usize, field: &[u8]) -> usize
    ensures { Put buf.old at (letters_text html (field_word code i) field.now) buf.new result }
{
    let name = fields::field_word(code, i);
    let word = name.bytes;
    put_field(buf, at, html, front(&word, name.count), field)
}

// The six bytes, then a line for each bit that says something.
fn put_status(buf: &mut [u8], at: usize, html: bool, six: &[u8]) -> usize
    ensures { Put buf.old at (status_text html six.now) buf.new result }
{
    let next = put_bytes(buf, at, html, Label::Status, b"", six, b"");
    put_flags(buf, next, html, six)
}

fn put_flags(buf: &mut [u8], at: usize, html: bool, six: &[u8]) -> usize
    ensures { Put buf.old at (flags_text html 0 six.now) buf.new result }
{
    let mut end = at.min(buf.len());
    for (i, &byte) in six.iter().enumerate() {
        end = put_bits(buf, end, html, i, byte);
    }
    end
}

// The bits of a status byte that are set, the lowest first, bit 7 left out.
fn put_bits(buf: &mut [u8], at: usize, html: bool, place: usize, byte: u8) -> usize
    ensures { Put buf.old at (bits_text html 7 0 place byte) buf.new result }
{
    let mut end = at.min(buf.len());
    let mut above = byte;
    for bit in 0..7 {
        end = put_flag(buf, end, html, above % 2 == 1, place, bit);
        above /= 2;
    }
    end
}

// What a bit says where it is set.
fn put_flag(buf: &mut [u8], at: usize, html: bool, set: bool, place: usize, bit: usize) -> usize
    ensures { Put buf.old at (cond set (flag_text html place bit) []) buf.new result }
{
    if set {
        let name = words::status_word(place, bit);
        let word = name.bytes;
        return put_word(buf, at, html, place, bit, front(&word, name.count));
    }
    put(buf, at, b"")
}

fn put_word(buf: &mut [u8], at: usize, html: bool, place: usize, bit: usize, word: &[u8]) -> usize
    ensures { Put buf.old at (named_text html place bit word.now) buf.new result }
{
    if is(word, b"always") {
        return put(buf, at, b"");
    }
    let figures = [place as u64, bit as u64];
    entries::put_said(buf, at, html, Label::Status, b" bit #.#: ~", word, &figures)
}
