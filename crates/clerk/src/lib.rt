// A script sent over a real line (SCRIPTS 8, LINE 5): what a read means, when a frame is sent again, and when the script stops. Numbers alone are
// held here; arrays are lent.
#![tactic(auto)]

ghost use Rattle.std.specs.Prelude.{◌≡◌, cond};
ghost use Rattle.exchange.specs.Exchange.{heard_some, heard_back};
ghost use Rattle.clerk.specs.Clerk.{number_of, fresh_clerk, end_of, next_of, behind, begun, halted, line_of, written_by, read_by, heard_by, told_of};

use reader::FRAME_ROOM;
use script::{Act, Mistake};
use sentences::front;
use till::{Said, Till, Word};

// What comes next: a line of the script, a frame to write, bytes to read, or a word of the till end to tell; or the script is at its end, or
// something stops it. A step of the caller's own is carried along.
#[derive(Clone, Copy, PartialEq, Eq)]
pub enum Phase {
    Plays,
    Sends,
    Hears,
    Tells,
    Ended,
    Stopped,
    Other(u8),
}

// SCRIPTS 8: what stops a script: a wrong line, a fault in it, or a command that ended UNFINISHED.
#[derive(Clone, Copy, PartialEq, Eq)]
pub enum Stop {
    Wrong(Mistake),
    Fault,
    Unfinished,
}

// The number by which it is told: of a wrong line that of SCRIPTS 6.
pub fn number(stop: Stop) -> u8
    ensures { result ≡ number_of stop }
{
    match stop {
        Stop::Wrong(mistake) => script::number(mistake),
        Stop::Fault => 6,
        Stop::Unfinished => 7,
    }
}

// LINE 5.1: an answer has 217 bytes at most: where so many reads brought none, none comes.
pub const MOST_READS: u64 = 1000;

// The till end and its last word; the lines of the script so far; what stopped it, where something did; the reads that are left to the try
// under way.
#[derive(Clone, Copy)]
pub struct Clerk {
    pub till: Till,
    pub word: Word,
    pub phase: Phase,
    pub lines: u64,
    pub why: Option<Stop>,
    pub reads: u64,
}

// A fresh till end, and no line of the script read.
pub fn fresh() -> Clerk
    ensures { result ≡ fresh_clerk }
{
    Clerk {
        till: till::fresh(),
        word: Word::Idle,
        phase: Phase::Plays,
        lines: 0,
        why: None,
        reads: 0,
    }
}

// The script has no line more.
pub fn ended(clerk: Clerk) -> Clerk
    ensures { result ≡ end_of clerk }
{
    Clerk {
        phase: Phase::Ended,
        ..clerk
    }
}

// A line of the script is counted. A wrong one and a fault stop the script; the till end is told of a command, whose data is the front of `content`.
pub fn play(
    clerk: Clerk,
    act: Result<Act, Mistake>,
    content: &[u8],
    sent: &mut [u8; FRAME_ROOM],
    out: &mut [u8],
) -> Clerk
    ensures { record { clerk = result; frame = sent.new; buffer = out.new } ≡ line_of clerk act content.now sent.old out.old }
{
    let counted = Clerk {
        lines: tally::one_more(clerk.lines),
        ..clerk
    };
    match act {
        Ok(Act::Nothing) => counted,
        Ok(Act::Command { code, count }) => begin(counted, sent, code, front(content, count), out),
        Ok(Act::Happens { .. }) => stopped(counted, Stop::Fault),
        Err(mistake) => stopped(counted, Stop::Wrong(mistake)),
    }
}

// Nothing comes behind what stops the script.
fn stopped(clerk: Clerk, stop: Stop) -> Clerk
    ensures { result ≡ halted clerk stop }
{
    Clerk {
        phase: Phase::Stopped,
        why: Some(stop),
        ..clerk
    }
}

// A command: its frame is to be written, or that it cannot be sent is told.
fn begin(
    clerk: Clerk,
    sent: &mut [u8; FRAME_ROOM],
    code: u8,
    content: &[u8],
    out: &mut [u8],
) -> Clerk
    ensures { record { clerk = result; frame = sent.new; buffer = out.new } ≡ begun clerk code content.now sent.old out.old }
{
    let said = till::command(clerk.till, sent, code, content, out);
    stands_behind(clerk, Phase::Sends, said, clerk.reads)
}

// Behind a word of the till end.
fn stands_behind(clerk: Clerk, waiting: Phase, said: Said, reads: u64) -> Clerk
    ensures { result ≡ behind clerk waiting said reads }
{
    Clerk {
        till: said.till,
        word: said.word,
        phase: next(waiting, said.word),
        reads,
        ..clerk
    }
}

// Where the till end waits, it is the caller's own; Send again is a frame to write, and any other word is told.
fn next(waiting: Phase, word: Word) -> Phase
    ensures { result ≡ next_of waiting word }
{
    match word {
        Word::Waiting(_) => waiting,
        Word::SendAgain(_) => Phase::Sends,
        _ => Phase::Tells,
    }
}

// The frame is on the line, and what comes is heard.
pub fn written(clerk: Clerk) -> Clerk
    ensures { result ≡ written_by clerk }
{
    Clerk {
        phase: Phase::Hears,
        reads: MOST_READS,
        ..clerk
    }
}

// One read, and what it brought.
pub fn hear(
    clerk: Clerk,
    sent: &[u8; FRAME_ROOM],
    answer: &mut [u8; FRAME_ROOM],
    came: &[u8],
    out: &mut [u8],
) -> Clerk
    ensures value { result ≡ heard_by clerk (read_by clerk sent.now answer.old out.old came.now).said }
    ensures answer_after { answer.new ≡ (read_by clerk sent.now answer.old out.old came.now).answer }
    ensures out_after { out.new ≡ (read_by clerk sent.now answer.old out.old came.now).buffer }
{
    let left = clerk.reads.saturating_sub(1);
    let last = (left == 0) | (came.len() == 0);
    let said = listen(clerk.till, last, sent, answer, came, out);
    stands_behind(clerk, Phase::Hears, said, left)
}

// Where this is the last read of a try, and the till end waits still, no more comes in time.
fn listen(
    till: Till,
    last: bool,
    sent: &[u8; FRAME_ROOM],
    answer: &mut [u8; FRAME_ROOM],
    came: &[u8],
    out: &mut [u8],
) -> Said
    ensures { record { said = result; answer = answer.new; buffer = out.new } ≡ cond last (heard_back sent.now till answer.old out.old came.now) (heard_some sent.now till answer.old out.old came.now) }
{
    if last {
        return exchange::hear_back(till, sent, answer, came, out);
    }
    exchange::hear_some(till, sent, answer, came, out)
}

// The word with which a command ended is told. UNFINISHED stops all but what goes on all the same.
pub fn told(clerk: Clerk, keep: bool) -> Clerk
    ensures { result ≡ told_of keep clerk }
{
    if !keep & matches!(clerk.word, Word::Unfinished(_)) {
        return stopped(clerk, Stop::Unfinished);
    }
    Clerk {
        phase: Phase::Plays,
        ..clerk
    }
}
