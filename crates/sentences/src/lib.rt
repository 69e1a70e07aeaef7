// Texts put into a lent buffer, one behind the other. A sentence is a text with holes for numbers, sums, bytes and words. Each function says the
// place behind what it put, or the buffer's end, so that the next one goes on there and no place is wrong.
#![tactic(auto)]

ghost use Rattle.std.specs.Prelude.{◌≡◌, ◌+◌, ◌<◌, min, [], ◌∷◌, length, take, get_or};
ghost use Rattle.text.specs.Digits.{digits};
ghost use Rattle.sentences.specs.Put.{Put};
ghost use Rattle.sentences.specs.Figures.{width_of, decimal, leva, hex_digit, hex_two};
ghost use Rattle.sentences.specs.Filled.{shown, escaped, piece, takes, filled};

// The first n bytes, or all where there are fewer.
pub fn front(s: &[u8], n: usize) -> &[u8]
    ensures { result.now ≡ take n s.now }
{
    s.get(..n).unwrap_or(s)
}

// The place n bytes further, or the end.
fn further(at: usize, n: usize, end: usize) -> usize
    ensures { result ≡ min (at + n) end }
{
    at.saturating_add(n).min(end)
}

// Some bytes as they are.
pub fn put(buf: &mut [u8], at: usize, src: &[u8]) -> usize
    ensures { Put buf.old at src.now buf.new result }
{
    text::put_bytes(buf, at, src);
    further(at, src.len(), buf.len())
}

// How many decimal digits a number has. The largest has twenty.
fn width(n: u64) -> usize
    ensures { result ≡ width_of 19 n }
{
    let mut left = n;
    for count in 1..20 {
        if left < 10 {
            return count;
        }
        left /= 10;
    }
    20
}

// A field of so many digits.
pub fn put_digits(buf: &mut [u8], at: usize, width: usize, n: u64) -> usize
    ensures { Put buf.old at (digits width n) buf.new result }
{
    text::put_field(buf, at, width, n);
    further(at, width, buf.len())
}

// A number in decimal, without zeros before it.
pub fn put_number(buf: &mut [u8], at: usize, n: u64) -> usize
    ensures { Put buf.old at (decimal n) buf.new result }
{
    put_digits(buf, at, width(n), n)
}

// A sum of stotinki, in leva.
pub fn put_leva(buf: &mut [u8], at: usize, n: u64) -> usize
    ensures { Put buf.old at (leva n) buf.new result }
{
    let whole = put_number(buf, at, n / 100);
    let point = put(buf, whole, b".");
    put_digits(buf, point, 2, n)
}

fn hex_digit(n: u64) -> u8
    requires { n < 16 }
    ensures { result ≡ hex_digit n }
{
    if n < 10 {
        return 48 + n as u8;
    }
    87 + n as u8
}

// A byte as two hexadecimal digits; of a larger number its last two.
pub fn put_hex(buf: &mut [u8], at: usize, n: u64) -> usize
    ensures { Put buf.old at (hex_two n) buf.new result }
{
    put(buf, at, &[hex_digit(n / 16 % 16), hex_digit(n % 16)])
}

// A byte of data as a script writes it (SCRIPTS 4).
fn put_shown(buf: &mut [u8], at: usize, b: u8) -> usize
    ensures { Put buf.old at (shown b) buf.new result }
{
    if (0x20 <= b) & (b <= 0x5B) | (0x5D <= b) & (b <= 0x7E) {
        return put(buf, at, &[b]);
    }
    let next = put(buf, at, b"\\x");
    put_hex(buf, next, b as u64)
}

// Data as a script writes it.
pub fn put_data(buf: &mut [u8], at: usize, bytes: &[u8]) -> usize
    ensures { Put buf.old at (escaped bytes.now) buf.new result }
{
    let mut place = at.min(buf.len());
    for &b in bytes {
        place = put_shown(buf, place, b);
    }
    place
}

// A number of a list; zero past its end.
fn figure(figures: &[u64], k: usize) -> u64
    ensures { result ≡ get_or figures.now k 0 }
{
    figures.get(k).copied().unwrap_or(0)
}

// Whether a byte is a hole for a number: 1, or 0.
fn takes(b: u8) -> usize
    ensures { result ≡ takes b }
{
    usize::from(matches!(b, b'#' | b'$' | b'%'))
}

// What one byte of a sentence stands for.
fn put_piece(buf: &mut [u8], at: usize, b: u8, word: &[u8], n: u64) -> usize
    ensures { Put buf.old at (piece b word.now n) buf.new result }
{
    match b {
        b'#' => put_number(buf, at, n),
        b'$' => put_leva(buf, at, n),
        b'%' => put_hex(buf, at, n),
        b'~' => put(buf, at, word),
        b'^' => put_data(buf, at, word),
        b'|' => put(buf, at, b"\n"),
        _ => put(buf, at, &[b]),
    }
}

// A sentence with its holes filled: `#` is the next number in decimal, `$` the next in leva, `%` the next as two hexadecimal digits, `~` the
// word, `^` the word as a script writes data, and `|` a line feed.
pub fn fill(buf: &mut [u8], at: usize, sentence: &[u8], word: &[u8], figures: &[u64]) -> usize
    ensures { Put buf.old at (filled sentence.now word.now figures.now) buf.new result }
{
    let mut place = at.min(buf.len());
    let mut next = 0;
    for &b in sentence {
        place = put_piece(buf, place, b, word, figure(figures, next));
        next += takes(b);
    }
    place
}
