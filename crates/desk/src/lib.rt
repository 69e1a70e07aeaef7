// What stands around the device on a bench: the script, the till end, and the line between them. Numbers alone are held here; arrays are lent.
#![tactic(auto)]

ghost use Rattle.std.specs.Prelude.{◌≡◌, [], length, take};
ghost use Rattle.std.proofs.lemmas.List.Edits.{sets};
ghost use Rattle.exchange.specs.Exchange.{heard_back};
ghost use Rattle.till.specs.Turns.{command};
ghost use Rattle.till.specs.Fields.{framed, said_of, turn_of};
ghost use Rattle.desk.specs.Desk.{fresh_desk, try_of, behind, told, line_of, end_of, on_way, arriving, heard_by, coming};

use faults::Faults;
use line::Call;
use reader::FRAME_ROOM;
use script::{Act, Mistake};
use sentences::front;
use tally::Tally;
use till::{Said, Till, Word};
use wire::ANSWER_ROOM;

// More than the device can give back on one try.
pub const BACK_ROOM: usize = 1024;

// What comes next: a line of the script, a try of its command, or what the till end makes of what came back; or the script is at its end, or a
// line of it is wrong. A step of the caller's own is carried along.
#[derive(Clone, Copy, PartialEq, Eq)]
pub enum Phase {
    Plays,
    Sends,
    Hears,
    Ended,
    Stopped,
    Other(u8),
}

#[derive(Clone, Copy)]
pub struct Desk {
    pub till: Till,
    pub faults: Faults,
    pub tally: Tally,
    pub phase: Phase,
    pub lines: u64,
    // The try under way, the bytes of its frame, how many arrived, how many of these the device heard, and how many it gave back.
    pub attempt: u8,
    pub count: usize,
    pub got: usize,
    pub place: usize,
    pub given: usize,
}

// The desk behind an event at the till end, and the till end's word.
#[derive(Clone, Copy)]
pub struct Told {
    pub desk: Desk,
    pub word: Word,
}

pub fn fresh() -> Desk
    ensures { result ≡ fresh_desk }
{
    Desk {
        till: till::fresh(),
        faults: faults::none(),
        tally: tally::none(),
        phase: Phase::Plays,
        lines: 0,
        attempt: 1,
        count: 0,
        got: 0,
        place: 0,
        given: 0,
    }
}

// The script has no line more.
pub fn ended(desk: Desk) -> Desk
    ensures { result ≡ end_of desk }
{
    Desk {
        phase: Phase::Ended,
        ..desk
    }
}

// A line of the script is counted. A wrong one stops the script, and a fault waits for the next command; a command is for `sent_to`.
pub fn read(desk: Desk, act: Result<Act, Mistake>) -> Desk
    ensures { result ≡ line_of desk act }
{
    let counted = Desk {
        lines: tally::one_more(desk.lines),
        ..desk
    };
    match act {
        Ok(Act::Nothing | Act::Command { .. }) => counted,
        Ok(
            Act::Happens {
                answer,
                attempt,
                fault,
            },
        ) => Desk {
            faults: faults::with_fault(desk.faults, answer, attempt, fault),
            ..counted
        },
        Err(_) => Desk {
            phase: Phase::Stopped,
            ..counted
        },
    }
}

// The till end is told of a command.
pub fn sent_to(
    desk: Desk,
    sent: &mut [u8; FRAME_ROOM],
    code: u8,
    content: &[u8],
    out: &mut [u8],
) -> Told
    ensures value { result ≡ told desk (said_of desk.till (turn_of desk.till sent.old [] out.old (command code content.now))) }
    ensures sent_after { sent.new ≡ framed sent.old (turn_of desk.till sent.old [] out.old (command code content.now)).state.pending }
    ensures out_after { out.new ≡ sets out.old 0 (turn_of desk.till sent.old [] out.old (command code content.now)).puts }
{
    let said = till::command(desk.till, sent, code, content, out);
    told_of(desk, said)
}

fn told_of(desk: Desk, said: Said) -> Told
    ensures { result ≡ told desk said }
{
    Told {
        desk: stands_behind(desk, said),
        word: said.word,
    }
}

// A word with a frame is a try more; any other ends the command: it is counted, and the line does nothing more to tries.
fn stands_behind(desk: Desk, said: Said) -> Desk
    ensures { result ≡ behind desk said.till said.word }
{
    let Some(attempt) = next_try(desk.attempt, said.word) else {
        return Desk {
            till: said.till,
            faults: faults::none(),
            tally: tally::ended(desk.tally, said.word),
            phase: Phase::Plays,
            ..desk
        };
    };
    Desk {
        till: said.till,
        phase: Phase::Sends,
        attempt,
        count: till::count(said.word),
        ..desk
    }
}

// The try that a word hands out, the first or the one behind this.
fn next_try(attempt: u8, word: Word) -> Option<u8>
    ensures { result ≡ try_of attempt word }
{
    match word {
        Word::Waiting(_) => Some(1),
        Word::SendAgain(_) => Some(attempt % till::MOST_TRIES + 1),
        _ => None,
    }
}

// A try on its way to the device.
pub fn on_its_way(desk: Desk, out: &[u8; FRAME_ROOM], arrived: &mut [u8; FRAME_ROOM]) -> Desk
    ensures value { result ≡ on_way desk (arriving desk out.now) }
    ensures arrived_after { arrived.new ≡ sets arrived.old 0 (arriving desk out.now) }
{
    let fault = faults::fault_of(desk.faults, false, desk.attempt);
    let got = faults::arrive(front(out, desk.count), fault, arrived);
    Desk {
        phase: Phase::Hears,
        got,
        place: 0,
        given: 0,
        ..desk
    }
}

// What one call of the device brought goes behind what the ones before gave back.
pub fn heard(
    desk: Desk,
    call: Call,
    taken: usize,
    given: &[u8; ANSWER_ROOM],
    count: usize,
    back: &mut [u8; BACK_ROOM],
) -> Desk
    ensures value { result ≡ heard_by desk call taken (take count given.now) }
    ensures back_after { back.new ≡ sets back.old desk.given (take count given.now) }
{
    Desk {
        tally: tally::called(desk.tally, call),
        place: desk.place.saturating_add(taken),
        given: sentences::put(back, desk.given, front(given, count)),
        ..desk
    }
}

// What came back on a try is heard by the till end.
pub fn brought_back(
    desk: Desk,
    sent: &[u8; FRAME_ROOM],
    answer: &mut [u8; FRAME_ROOM],
    back: &[u8; BACK_ROOM],
    out: &mut [u8],
) -> Told
    ensures value { result ≡ told desk (heard_back sent.now desk.till answer.old out.old (coming desk back.now)).said }
    ensures answer_after { answer.new ≡ (heard_back sent.now desk.till answer.old out.old (coming desk back.now)).answer }
    ensures out_after { out.new ≡ (heard_back sent.now desk.till answer.old out.old (coming desk back.now)).buffer }
{
    let mut came = [0u8; BACK_ROOM];
    let fault = faults::fault_of(desk.faults, true, desk.attempt);
    let got = faults::arrive(front(back, desk.given), fault, &mut came);
    let said = exchange::hear_back(desk.till, sent, answer, front(&came, got), out);
    told_of(desk, said)
}
