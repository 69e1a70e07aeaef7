// What is told, on standard output and on standard error.
use faults::Fault;
use kept::Kept;
use line::Call;
use reasons::Reason;
use script::Mistake;
use sentences::front;
use system::Outlets;
use tally::Tally;
use till::Word;

// More than any text that is told at once: a line of the script and a word; or an answer's data, four bytes for each, and its status.
const TEXT_ROOM: usize = 2048;

// What is put into the front of a buffer.
fn say<F: FnOnce(&mut [u8]) -> usize>(to: Outlets, put: F)
    requires { F.IsAlwaysCallable put }
{
    let mut text = [0u8; TEXT_ROOM];
    let n = put(&mut text);
    system::write(&to.output, front(&text, n));
}

// A command, and where it is not sent, what the till end says of it.
pub(crate) fn command(to: Outlets, code: u8, line: &[u8], word: Word, got: &[u8]) {
    say(to, |text| {
        let next = telling::heading(text, 0, false, code, line);
        if exchange::is_waiting(word) {
            return next;
        }
        saying::says(text, next, false, word, got)
    });
}

// A try on its way, and the device's silence where nothing arrives.
pub(crate) fn sent(to: Outlets, attempt: u8, count: usize, fault: Fault, got: usize) {
    say(to, |text| {
        let next = telling::way(text, 0, false, attempt, count, fault);
        if 0 < got {
            return next;
        }
        telling::silence(text, next)
    });
}

// An answer on its way back, where there is one, and what the till end says.
pub(crate) fn came(to: Outlets, attempt: u8, count: usize, fault: Fault, word: Word, got: &[u8]) {
    say(to, |text| {
        let mut next = 0;
        if 0 < count {
            next = telling::way(text, 0, true, attempt, count, fault);
        }
        saying::says(text, next, false, word, got)
    });
}

pub(crate) fn call(to: Outlets, call: Call, number: u64, taken: usize, reason: Reason) {
    say(
        to,
        |text| telling::call(text, 0, call, number, taken, reason),
    );
}

// The text that the display shows, where there is one.
pub(crate) fn shows(to: Outlets, told: Option<usize>, display: &[u8]) {
    say(to, |text| telling::shows(text, 0, told, display));
}

// What is wrong with a line of the script.
pub(crate) fn wrong(to: Outlets, line: u64, mistake: Mistake) {
    let mut text = [0u8; TEXT_ROOM];
    let n = phrases::wrong(&mut text, 0, line, script::number(mistake));
    system::write(&to.errors, front(&text, n));
}

// The books, and how the commands ended, where all of the script was played.
pub(crate) fn end(to: Outlets, kept: Kept, tally: Tally, all: bool) {
    if !all {
        return;
    }
    say(to, |text| {
        let next = closing::tell_books(text, 0, kept.device.books);
        closing::tell_total(text, next, tally)
    });
}
