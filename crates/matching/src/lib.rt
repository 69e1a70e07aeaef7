// What the sheet says to a command, for callers that hold it by value (PROTOCOL 5.4).
#![tactic(auto)]

ghost use Rattle.std.specs.Prelude.{◌≡◌, get_or};
ghost use Rattle.sheet.specs.Sheet.{blank};
ghost use Rattle.sheet.specs.Searches.{place_of, match_of};

use sheet::{Line, MOST_LINES, Search};

// From the newest of the lines searched back: what the first that matches brings.
pub fn match_kept(sheet: [Line; MOST_LINES], search: Search) -> Option<u64>
    ensures { result ≡ match_of sheet search }
{
    let at = place_kept(sheet, search);
    sheet::match_at(at, search.lines, line_at(sheet, at))
}

// Where the search ends.
fn place_kept(sheet: [Line; MOST_LINES], search: Search) -> usize
    ensures { result ≡ place_of sheet search }
{
    let wanted = search.wanted;
    let n = search.lines;
    for i in (0..n).rev() {
        if sheet::matches_line(line_at(sheet, i), wanted) {
            return i;
        }
    }
    n
}

// A record: past the end a blank one.
fn line_at(sheet: [Line; MOST_LINES], i: usize) -> Line
    ensures { result ≡ get_or sheet i blank }
{
    if i < MOST_LINES {
        return sheet[i];
    }
    sheet::blank_line()
}
