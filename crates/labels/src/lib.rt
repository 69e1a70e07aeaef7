// The texts before a Tab, and the text of 42: each is handed on as a part of the lent data (PROTOCOL 4.7).
#![tactic(auto)]

ghost use Rattle.std.specs.Prelude.{◌≡◌};
ghost use Rattle.labels.specs.Texts.{text_within, is_text, is_name, are_texts, rest_of, only_line, first_line, second_line};

use text::find;

// PROTOCOL 4.7: as many bytes as a text has at most.
pub const MOST_TEXT: usize = 42;

// PROTOCOL 5.19: as many bytes as the name of an operator has at most.
pub const MOST_NAME: usize = 24;

// PROTOCOL 4.7: between L1 and L2.
const LF: u8 = 0x0A;

// PROTOCOL 4.7: behind the texts.
const TAB: u8 = 0x09;

// Up to 42 bytes, each 20h up.
pub fn is_text(s: &[u8]) -> bool
    ensures { result ≡ is_text s.now }
{
    is_within(s, MOST_TEXT)
}

// Up to 24 bytes, each 20h up.
pub fn is_name(s: &[u8]) -> bool
    ensures { result ≡ is_name s.now }
{
    is_within(s, MOST_NAME)
}

fn is_within(s: &[u8], most: usize) -> bool
    ensures { result ≡ text_within most s.now }
{
    s.len() <= most && s.iter().all(|&b| 0x20 <= b)
}

// L1, or L1 LF L2.
fn are_texts(s: &[u8]) -> bool
    ensures { result ≡ are_texts s.now }
{
    let at = find(s, LF);
    if !is_text(&s[..at]) {
        return false;
    }
    if at == s.len() {
        return true;
    }
    let next = at + 1;
    is_text(&s[next..])
}

// Where the rest begins, if well-formed texts and a Tab stand before it.
pub fn behind_tab(s: &[u8]) -> Option<usize>
    ensures { result ≡ rest_of s.now }
{
    let at = find(s, TAB);
    if at == s.len() {
        return None;
    }
    if !are_texts(&s[..at]) {
        return None;
    }
    Some(at + 1)
}

// 42's: all of it.
pub fn only_line(s: &[u8]) -> &[u8]
    ensures { result.now ≡ only_line s.now }
{
    if is_text(s) {
        return s;
    }
    &s[..0]
}

// L1: up to the line feed, or up to the Tab.
pub fn first_line(s: &[u8]) -> &[u8]
    ensures { result.now ≡ first_line s.now }
{
    let Some(next) = behind_tab(s) else {
        return &s[..0];
    };
    let tab = next - 1;
    let end = find(&s[..tab], LF);
    &s[..end]
}

// L2: from behind the line feed up to the Tab.
pub fn second_line(s: &[u8]) -> &[u8]
    ensures { result.now ≡ second_line s.now }
{
    let Some(next) = behind_tab(s) else {
        return &s[..0];
    };
    let tab = next - 1;
    let at = find(&s[..tab], LF);
    if at == tab {
        return &s[..0];
    }
    let start = at + 1;
    &s[start..tab]
}
