// How many commands were answered, ended unfinished or could not be sent, and how many the device carried out (SCRIPTS 7).
#![tactic(auto)]

ghost use Rattle.std.specs.Prelude.{◌≡◌, ◌+◌, min};
ghost use Rattle.tally.specs.Tally.{most, none_yet, ended_by, called_by};

use line::Call;
use till::Word;

#[derive(Clone, Copy)]
pub struct Tally {
    pub answered: u64,
    pub unfinished: u64,
    pub unsent: u64,
    pub carried: u64,
}

pub fn none() -> Tally
    ensures { result ≡ none_yet }
{
    Tally {
        answered: 0,
        unfinished: 0,
        unsent: 0,
        carried: 0,
    }
}

// One more, up to the largest number there is.
pub fn one_more(n: u64) -> u64
    ensures { result ≡ min (n + 1) most }
{
    n.saturating_add(1)
}

// A command that ended with a word of the till end: any other than Answered and Unfinished says that it was not sent.
pub fn ended(tally: Tally, word: Word) -> Tally
    ensures { result ≡ ended_by tally word }
{
    match word {
        Word::Answered(_) => Tally {
            answered: one_more(tally.answered),
            ..tally
        },
        Word::Unfinished(_) => Tally {
            unfinished: one_more(tally.unfinished),
            ..tally
        },
        _ => Tally {
            unsent: one_more(tally.unsent),
            ..tally
        },
    }
}

// What the device was asked for: an order is carried out.
pub fn called(tally: Tally, call: Call) -> Tally
    ensures { result ≡ called_by tally call }
{
    let Call::Order { .. } = call else {
        return tally;
    };
    Tally {
        carried: one_more(tally.carried),
        ..tally
    }
}
