// The words of a line, and hexadecimal digits (SCRIPTS 2, 4).
ghost use Rattle.std.specs.Prelude.{◌≡◌, ◌<◌, IfSome};
ghost use Rattle.writing.specs.Words.{same, word, behind, digit_of};

// Whether a word is this one.
pub fn is(s: &[u8], this: &[u8]) -> bool
    ensures { result ≡ same s.now this.now }
{
    s == this
}

// The first word.
pub fn word(s: &[u8]) -> &[u8]
    ensures { result.now ≡ word s.now }
{
    let end = text::find(s, b' ');
    &s[..end]
}

// What stands behind the first space.
pub fn behind(s: &[u8]) -> &[u8]
    ensures { result.now ≡ behind s.now }
{
    let end = text::find(s, b' ');
    if end == s.len() {
        return &s[end..];
    }
    let next = end + 1;
    &s[next..]
}

// The value of a hexadecimal digit, where it is one.
pub fn digit(b: u8) -> Option<u8>
    ensures value { result ≡ digit_of b }
    ensures small { IfSome result (λ value. value < 16) }
{
    match b {
        b'0'..=b'9' => Some(b - 0x30),
        b'A'..=b'F' => Some(b - 0x37),
        b'a'..=b'f' => Some(b - 0x57),
        _ => None,
    }
}
