// The guard of the eight operators: their passwords and names, and how many wrong passwords were given (PROTOCOL 5.18 to 5.20).
#![tactic(auto)]

mod changes;

ghost use Rattle.std.specs.Prelude.{◌≡◌};
ghost use Rattle.guard.specs.Guard.{fresh_guard, calmed, trial_of, is_right, tried, verdict_of, judged_of, judged_by};

use kinds::{Command, Password, Unread, operators};

// PROTOCOL 5.3: Op is from 1 to 8.
pub const OPERATORS: usize = 8;

// 24 bytes for the name of each.
pub const NAMES_ROOM: usize = 192;

// PROTOCOL 5.20: as many wrong passwords lock the device.
pub const MOST_WRONG: u64 = 3;

// Of each operator the password, the length of the name and its 24 bytes; and the wrong passwords with no right one between. Three of them are
// the lock.
#[derive(Clone, Copy)]
pub struct Guard {
    pub passwords: [Password; OPERATORS],
    pub sizes: [usize; OPERATORS],
    pub names: [u8; NAMES_ROOM],
    pub wrong: u64,
}

// The password that a command gives, whose it is, and what for: 48, 101 and 102. The name of a 102 stays in the data.
#[derive(Clone, Copy)]
pub enum Trial {
    Nothing,
    Open {
        op: u64,
        password: Password,
    },
    Change {
        op: u64,
        old: Password,
        new: Password,
    },
    Name {
        op: u64,
        password: Password,
    },
}

// What the guard says to it.
#[derive(Clone, Copy)]
pub enum Verdict {
    Free,
    Right,
    Wrong,
    Locked,
}

// The guard behind a command, and whether the command goes on.
#[derive(Clone, Copy)]
pub struct Judged {
    pub guard: Guard,
    pub passes: bool,
}

// Of a device switched on for the first time: all passwords 0000, all names empty.
pub fn fresh() -> Guard
    ensures { result ≡ fresh_guard }
{
    Guard {
        passwords: [Password {
            digits: 4,
            value: 0,
        }; OPERATORS],
        sizes: [0usize; OPERATORS],
        names: [0u8; NAMES_ROOM],
        wrong: 0,
    }
}

// Switched on anew: the wrong passwords are forgotten, and the lock with them.
pub fn calm(guard: Guard) -> Guard
    ensures { result ≡ calmed guard }
{
    changes::with_count(guard, 0)
}

// What a command is to the guard: the one table over the seventeen kinds.
pub fn trial_of(command: Command) -> Trial
    ensures { result ≡ trial_of command }
{
    match command {
        Command::Open { op, password, .. } => Trial::Open { op, password },
        Command::ChangePassword { op, old, new } => Trial::Change { op, old, new },
        Command::ChangeName { op, password } => Trial::Name { op, password },
        _ => Trial::Nothing,
    }
}

// Whether it is this operator's password, digit by digit.
fn is_right(guard: Guard, op: u64, password: Password) -> bool
    ensures { result ≡ is_right guard op password }
{
    if !operators::is_op(op) {
        return false;
    }
    let i = (op - 1) as usize;
    guard.passwords[i] == password
}

// What the guard says to a trial.
pub fn verdict_of(guard: Guard, trial: Trial) -> Verdict
    ensures { result ≡ verdict_of guard trial }
{
    match trial {
        Trial::Nothing => Verdict::Free,
        Trial::Open { op, password } => try_password(guard, op, password),
        Trial::Change { op, old, .. } => try_password(guard, op, old),
        Trial::Name { op, password } => try_password(guard, op, password),
    }
}

fn try_password(guard: Guard, op: u64, password: Password) -> Verdict
    ensures { result ≡ tried guard op password }
{
    if MOST_WRONG <= guard.wrong {
        return Verdict::Locked;
    }
    if is_right(guard, op, password) {
        return Verdict::Right;
    }
    Verdict::Wrong
}

// A command as it was read, with its data. A password counts as tried here, whatever else refuses the command; data that no command was read
// from tries none.
pub fn judge(guard: Guard, parsed: Result<Command, Unread>, content: &[u8]) -> Judged
    ensures { result ≡ judged_by guard parsed content.now }
{
    match parsed {
        Ok(command) => judge_trial(guard, trial_of(command), content),
        Err(_) => Judged {
            guard,
            passes: true,
        },
    }
}

fn judge_trial(guard: Guard, trial: Trial, content: &[u8]) -> Judged
    ensures { result ≡ judged_of guard trial content.now }
{
    let verdict = verdict_of(guard, trial);
    match verdict {
        Verdict::Free => Judged {
            guard,
            passes: true,
        },
        Verdict::Right => Judged {
            guard: changes::with_count(changes::change(guard, trial, content), 0),
            passes: true,
        },
        Verdict::Wrong => Judged {
            guard: changes::with_count(guard, guard.wrong + 1),
            passes: false,
        },
        Verdict::Locked => Judged {
            guard,
            passes: false,
        },
    }
}
