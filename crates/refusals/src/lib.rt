// Why a command is refused: the first reason that the rule book names (PROTOCOL chapter 5, *Refused*).
#![tactic(auto)]

mod against;

ghost use Rattle.std.specs.Prelude.{◌≡◌};
ghost use Rattle.refusals.specs.Refusals.{against_command, reason_of};

use against::of_view;
use books::Books;
use guard::{Guard, Verdict};
use kinds::{Command, Unread};
use reasons::Reason;
use rules::views;

// The reason for the reply to a command, with what the guard and the sheet say to it.
pub fn reason_of(
    guard: Guard,
    books: Books,
    m: Option<u64>,
    parsed: Result<Command, Unread>,
) -> Reason
    ensures { result ≡ reason_of guard books m parsed }
{
    match parsed {
        Ok(command) => of_command(guard, books, m, command),
        Err(Unread::Syntax) => Reason::Syntax,
        Err(Unread::Unknown) => Reason::Unknown,
    }
}

// The guard's reason goes before those of the books.
fn of_command(guard: Guard, books: Books, m: Option<u64>, command: Command) -> Reason
    ensures { result ≡ against_command guard books m command }
{
    let verdict = guard::verdict_of(guard, guard::trial_of(command));
    match verdict {
        Verdict::Free => of_view(books, m, views::view_of(command)),
        Verdict::Right => of_view(books, m, views::view_of(command)),
        Verdict::Wrong => Reason::WrongPassword,
        Verdict::Locked => Reason::Locked,
    }
}
