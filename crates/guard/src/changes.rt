// The guard with one thing of it changed (PROTOCOL 5.18 to 5.20).
ghost use Rattle.std.specs.Prelude.{◌≡◌};
ghost use Rattle.guard.specs.Guard.{with_count, with_password, with_name, changed_by};

use crate::{Guard, Trial};
use kinds::{Password, operators};
use labels::MOST_NAME;

// So many wrong passwords.
pub fn with_count(guard: Guard, wrong: u64) -> Guard
    ensures { result ≡ with_count guard wrong }
{
    Guard { wrong, ..guard }
}

// What a command does to the guard, its password being right.
pub fn change(guard: Guard, trial: Trial, content: &[u8]) -> Guard
    ensures { result ≡ changed_by guard trial content.now }
{
    match trial {
        Trial::Nothing => guard,
        Trial::Open { .. } => guard,
        Trial::Change { op, new, .. } => with_password(guard, op, new),
        Trial::Name { op, .. } => with_name(guard, op, operators::name_in(content)),
    }
}

// Another password for an operator; there are eight of them.
fn with_password(guard: Guard, op: u64, new: Password) -> Guard
    ensures { result ≡ with_password guard op new }
{
    if !operators::is_op(op) {
        return guard;
    }
    let i = (op - 1) as usize;
    let mut passwords = guard.passwords;
    passwords[i] = new;
    Guard { passwords, ..guard }
}

// Another name for an operator, of 24 bytes at most.
fn with_name(guard: Guard, op: u64, name: &[u8]) -> Guard
    ensures { result ≡ with_name guard op name.now }
{
    if !operators::is_op(op) {
        return guard;
    }
    let i = (op - 1) as usize;
    let n = MOST_NAME.min(name.len());
    let mut sizes = guard.sizes;
    let mut names = guard.names;
    sizes[i] = n;
    text::put_bytes(&mut names, MOST_NAME * i, &name[0..n]);
    Guard {
        sizes,
        names,
        ..guard
    }
}
