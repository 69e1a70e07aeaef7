// The text that 100 sends to the customer display (PROTOCOL 5.17).
#![tactic(auto)]

ghost use Rattle.std.specs.Prelude.{◌≡◌, cond, not, ◌&&◌, ◌-◌, eqb, length};
ghost use Rattle.std.proofs.lemmas.List.Edits.{sets};
ghost use Rattle.display.specs.Display.{plain_of, can_show, shown_by, display_of, displayed};

// The most bytes of a plain text: so many are to be lent.
pub const MOST_SHOWN: usize = 40;

// The command that sends a text: its data alone may hold 10h.
pub const SHOW: u8 = 100;

// Before a byte that stands for a control character.
pub const MARK: u8 = 0x10;

// A command's text into the display's buffer. Only 100 has one, and only where it can be shown; the buffer stays otherwise.
pub fn show(code: u8, s: &[u8], buf: &mut [u8]) -> Option<usize>
    ensures value { result ≡ display_of (shown_by code s.now) }
    ensures buf_after { buf.new ≡ displayed buf.old (shown_by code s.now) }
{
    if code != SHOW {
        return None;
    }
    if !can_show(s) {
        return None;
    }
    Some(put_plain(buf, s))
}

// Whether 40h to 5Fh is behind each 10h, and the plain bytes are 40 at most.
pub fn can_show(s: &[u8]) -> bool
    ensures { result ≡ can_show s.now }
{
    let mut marked = false;
    let mut count: usize = 0;
    for &b in s {
        if marked & !((0x40 <= b) & (b <= 0x5F)) {
            return false;
        }
        marked = is_mark(marked, b);
        if !marked {
            count += 1;
        }
    }
    !marked & (count <= MOST_SHOWN)
}

// The plain text at the front of the buffer, and how long it is.
fn put_plain(buf: &mut [u8], s: &[u8]) -> usize
    ensures value { result ≡ length (plain_of s.now) }
    ensures buf_after { buf.new ≡ sets buf.old 0 (plain_of s.now) }
{
    let mut marked = false;
    let mut count = 0;
    for &b in s {
        let mark = is_mark(marked, b);
        if !mark {
            text::put_byte(buf, count, plain_byte(marked, b));
            count += 1;
        }
        marked = mark;
    }
    count
}

// Whether the next byte stands for a control character; `marked` says that this one does.
fn is_mark(marked: bool, b: u8) -> bool
    ensures { result ≡ (not marked && eqb b 0x10) }
{
    !marked && b == MARK
}

// The byte that one stands for.
fn plain_byte(marked: bool, b: u8) -> u8
    ensures { result ≡ cond marked (b - 0x40) b }
{
    if marked { b.saturating_sub(0x40) } else { b }
}
