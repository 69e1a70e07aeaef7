// A text by value, and the rows of a table.
ghost use Rattle.std.specs.Prelude.{◌≡◌};
ghost use Rattle.text.specs.Parts.{past};
ghost use Rattle.words.specs.Words.{words_of};
ghost use Rattle.words.specs.Rows.{row_at};

// The longest text.
pub const WORDS_ROOM: usize = 64;

// A text by value: the first `count` bytes; the others are zero.
#[derive(Clone, Copy)]
pub struct Words {
    pub bytes: [u8; WORDS_ROOM],
    pub count: usize,
}

// A text of 64 bytes at most: of a longer one the first 64.
pub fn words_of(src: &[u8]) -> Words
    ensures { result ≡ words_of src.now }
{
    let mut bytes = [0u8; WORDS_ROOM];
    text::put_bytes(&mut bytes, 0, src);
    Words {
        bytes,
        count: src.len().min(WORDS_ROOM),
    }
}

// The k-th row of a table, from 0, each ended by a line feed; past the last one nothing.
pub fn row(table: &[u8], k: usize) -> Words
    ensures { result ≡ words_of (row_at k table.now) }
{
    words_of(row_of(table, k))
}

// The same as a part of the table.
pub fn row_of(table: &[u8], k: usize) -> &[u8]
    ensures { result.now ≡ row_at k table.now }
{
    let mut rest = table;
    for _ in 0..k {
        if rest.is_empty() {
            break;
        }
        rest = behind_row(rest);
    }
    &rest[..text::find(rest, 10)]
}

// What stands behind the first row.
fn behind_row(table: &[u8]) -> &[u8]
    ensures { result.now ≡ past 10 table.now }
{
    let end = text::find(table, 10);
    let part = &table[end..];
    match part {
        [_, rest @ ..] => rest,
        [] => b"",
    }
}
