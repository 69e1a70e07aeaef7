// The lines of a script: read on standard input, and gathered from the parts in which they come (SCRIPTS 1).
#![tactic(auto)]

pub mod input;

ghost use Rattle.std.specs.Prelude.{◌≡◌};
ghost use Rattle.std.proofs.lemmas.List.Edits.{sets};
ghost use Rattle.text.specs.Parts.{up_to};
ghost use Rattle.lines.specs.Lines.{gathered};

// SCRIPTS 1: the longest line.
pub const LINE_ROOM: usize = 1200;

// What a part brings to the line that is gathered: how many bytes the line has now, how many of the part it took, and whether it is whole.
#[derive(Clone, Copy)]
pub struct Gathered {
    pub count: usize,
    pub taken: usize,
    pub whole: bool,
}

// The bytes of a part up to its first line feed go behind the `count` that were gathered, as far as `line` reaches.
pub fn gather(line: &mut [u8], count: usize, part: &[u8]) -> Gathered
    ensures value { result ≡ gathered count part.now }
    ensures line_after { line.new ≡ sets line.old count (up_to 10 part.now) }
{
    let end = text::find(part, 10);
    text::put_bytes(line, count, &part[..end]);
    let whole = end < part.len();
    Gathered {
        count: count.saturating_add(end),
        taken: if whole { end + 1 } else { end },
        whole,
    }
}
