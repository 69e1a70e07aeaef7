// What the arguments ask for: explain [-html] [RECORDING] (EXPLAIN 1), cashier [-k] -l LINE (SCRIPTS 8). Arguments of no such form ask for
// nothing.
#![tactic(auto)]

ghost use Rattle.std.specs.Prelude.{◌≡◌};
ghost use Rattle.wishes.specs.Wishes.{is_page, is_option, wish_of, errand_of};

use writing::words::is;

// Whether a page is wanted; the place of RECORDING among the arguments, where there is one.
#[derive(Clone, Copy, PartialEq, Eq)]
pub struct Wish {
    pub html: bool,
    pub recording: Option<usize>,
}

// By how many there are, the program's own name among them, and the one behind that.
pub fn wish_of(count: usize, first: &[u8]) -> Option<Wish>
    ensures { result ≡ wish_of count first.now }
{
    let (html, recording) = match count {
        0..=1 => (false, None),
        2 if is_page(first) => (true, None),
        3 if is_page(first) => (true, Some(2)),
        2 if !is_option(first) => (false, Some(1)),
        _ => return None,
    };
    Some(Wish { html, recording })
}

// -html.
fn is_page(s: &[u8]) -> bool
    ensures { result ≡ is_page s.now }
{
    is(s, b"-html")
}

// A name does not begin with a sign.
fn is_option(s: &[u8]) -> bool
    ensures { result ≡ is_option s.now }
{
    text::begins_with(s, b'-')
}

// `cashier`: whether it goes on behind UNFINISHED; the place of LINE among the arguments.
#[derive(Clone, Copy, PartialEq, Eq)]
pub struct Errand {
    pub keeps: bool,
    pub line: usize,
}

// By how many there are, the program's own name among them, and the two behind that.
pub fn errand_of(count: usize, first: &[u8], second: &[u8]) -> Option<Errand>
    ensures { result ≡ errand_of count first.now second.now }
{
    let (keeps, line) = match count {
        3 if is(first, b"-l") => (false, 2),
        4 if is(first, b"-k") && is(second, b"-l") => (true, 3),
        _ => return None,
    };
    Some(Errand { keeps, line })
}
