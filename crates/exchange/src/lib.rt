// The till end hears what came back on a try (PROTOCOL 7.5).
#![tactic(auto)]

ghost use Rattle.std.specs.Prelude.{◌≡◌};
ghost use Rattle.exchange.specs.Exchange.{waits, heard_some, heard_back};

use reader::FRAME_ROOM;
use till::{Said, Till, Word};

// Whether the till end waits still.
pub fn is_waiting(word: Word) -> bool
    ensures { result ≡ waits word }
{
    matches!(word, Word::Waiting(_))
}

// Some bytes from the line, up to the first of which the till end says another word than Waiting.
pub fn hear_some(
    till: Till,
    frame: &[u8; FRAME_ROOM],
    answer: &mut [u8; FRAME_ROOM],
    bytes: &[u8],
    buf: &mut [u8],
) -> Said
    ensures { record { said = result; answer = answer.new; buffer = buf.new } ≡ heard_some frame.now till answer.old buf.old bytes.now }
{
    let mut listening = till;
    for b in bytes {
        let said = till::byte(listening, frame, answer, *b, buf);
        if !is_waiting(said.word) {
            return said;
        }
        listening = said.till;
    }
    Said {
        till: listening,
        word: Word::Waiting(0),
    }
}

// All bytes that come back on a try. Where the till end waits still behind the last, no more come in time.
pub fn hear_back(
    till: Till,
    frame: &[u8; FRAME_ROOM],
    answer: &mut [u8; FRAME_ROOM],
    bytes: &[u8],
    buf: &mut [u8],
) -> Said
    ensures { record { said = result; answer = answer.new; buffer = buf.new } ≡ heard_back frame.now till answer.old buf.old bytes.now }
{
    let said = hear_some(till, frame, answer, bytes, buf);
    if !is_waiting(said.word) {
        return said;
    }
    till::timeout(said.till, frame, buf)
}
