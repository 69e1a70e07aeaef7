// Looking for a byte in lent data, and putting bytes and digit fields into a lent buffer. A byte whose place lies past the buffer's end is
// not written, so no place is wrong and no function here asks anything of its caller.
#![tactic(auto)]

ghost use Rattle.std.specs.Prelude.{◌≡◌, ◌<◌, ◌≤◌, ◌+◌, ◌%◌, length, set};
ghost use Rattle.std.proofs.lemmas.List.Edits.{sets};
ghost use Rattle.text.specs.Digits.{digits};
ghost use Rattle.text.specs.Parts.{first_at, begins};

// The place of the first `b`, or the length where there is none.
pub fn find(s: &[u8], b: u8) -> usize
    ensures { result ≡ first_at b s.now }
{
    s.iter().position(|x| *x == b).unwrap_or(s.len())
}

// Whether the first byte is `b`.
pub fn begins_with(s: &[u8], b: u8) -> bool
    ensures { result ≡ begins b s.now }
{
    s.first() == Some(&b)
}

// One byte at a place of the buffer.
pub fn put_byte(buf: &mut [u8], at: usize, b: u8)
    ensures { buf.new ≡ set buf.old at b }
{
    if at < buf.len() {
        buf[at] = b;
    }
}

// A run of bytes from a place of the buffer on.
pub fn put_bytes(buf: &mut [u8], at: usize, src: &[u8])
    ensures { buf.new ≡ sets buf.old at src.now }
{
    if at <= buf.len() {
        copy(&mut buf[at..], src);
    }
}

// The bytes of `src` at the front of `part`.
fn copy(part: &mut [u8], src: &[u8])
    ensures { part.new ≡ sets part.old 0 src.now }
{
    let n = part.len().min(src.len());
    part[..n].copy_from_slice(&src[..n]);
}

// The digit writer: `part` begins at the field. The last digits first, so that one number shrinks as the field fills: four a division
// where the field has room, and the first ones, which four does not divide, one by one.
pub fn write_digits(part: &mut [u8], width: usize, n: u64)
    ensures { part.new ≡ sets part.old 0 (digits width n) }
{
    if part.len() < width {
        write_singly(part, width, n);
        return;
    }
    let left = write_fours(part, width, n);
    write_singly(part, width % 4, left);
}

// One digit a division. Those that have no room are not written.
fn write_singly(part: &mut [u8], width: usize, n: u64)
    ensures { part.new ≡ sets part.old 0 (digits width n) }
{
    let mut left = n;
    for i in (0..width).rev() {
        put_byte(part, i, 48 + (left % 10) as u8);
        left /= 10;
    }
}

// Four digits a division. The number that the digits before them say is handed back.
fn write_fours(part: &mut [u8], width: usize, n: u64) -> u64
    requires { width ≤ length part.old }
    ensures { sets part.new 0 (digits (width % 4) result) ≡ sets part.old 0 (digits width n) }
{
    let before = width % 4;
    let mut left = n;
    for i in (0..width / 4).rev() {
        put_four(part, before + i * 4, (left % 10000) as u32);
        left /= 10000;
    }
    left
}

// The digits of a number below 10,000, in one number, the first digit in its lowest byte, so that one store writes them all. `pairs` has
// both halves of the number side by side, `tens` the tens of both: below 10,000 a hundredth is 5243 / 524288, below 100 a tenth 103 / 1024.
fn put_four(part: &mut [u8], at: usize, four: u32)
    requires four_bound { four < 10000 }
    requires at_in_bounds { at + 3 < length part.old }
    ensures { part.new ≡ sets part.old at (digits 4 four) }
{
    let high = four * 5243 / 524288;
    let pairs = four * 65536 - high * 6553599;
    let scaled = pairs * 103;
    let tens = scaled % 65536 / 1024 + scaled / 67108864 * 65536;
    let all = 0x30303030 + pairs * 256 - tens * 2559;
    part[at..at + 4].copy_from_slice(&all.to_le_bytes());
}

// A field of `width` digits at a place of the buffer.
pub fn put_field(buf: &mut [u8], at: usize, width: usize, n: u64)
    ensures { buf.new ≡ sets buf.old at (digits width n) }
{
    if at <= buf.len() {
        write_digits(&mut buf[at..], width, n);
    }
}
