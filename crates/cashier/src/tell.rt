// What is told: a line for each command on standard output, and what is wrong on standard error.
use clerk::Stop;
use sentences::front;
use system::Outlets;
use till::Word;

// More than any text that is told at once: a line of the script and a word; or an answer's data, four bytes for each, and its status.
const TEXT_ROOM: usize = 2048;

pub(crate) fn heading(to: Outlets, code: u8, line: &[u8]) {
    let mut text = [0u8; TEXT_ROOM];
    let n = telling::heading(&mut text, 0, true, code, line);
    system::write(&to.output, front(&text, n));
}

// What the till end says at last.
pub(crate) fn says(to: Outlets, word: Word, got: &[u8]) {
    let mut text = [0u8; TEXT_ROOM];
    let n = saying::says(&mut text, 0, true, word, got);
    system::write(&to.output, front(&text, n));
}

// What is wrong with a line of the script, or stops it.
pub(crate) fn stopped(to: Outlets, line: u64, why: Option<Stop>) {
    let mut text = [0u8; TEXT_ROOM];
    let n = phrases::wrong(&mut text, 0, line, why.map_or(0, clerk::number));
    system::write(&to.errors, front(&text, n));
}
