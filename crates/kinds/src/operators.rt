// The commands that an operator gives with a password: 48, 101 and 102 (PROTOCOL 5.3, 5.18, 5.19).
ghost use Rattle.std.specs.Prelude.{◌≡◌};
ghost use Rattle.kinds.specs.Operators.{is_op, secret_of, open_with, change_with, name_with, with_third, operators_of, name_in};

use crate::{Command, Password, Unread};

// What stands behind Op and Pwd: of 48 Till, of 101 the new password, of 102 the name.
#[derive(Clone, Copy)]
pub enum Third {
    Till,
    Password,
    Name,
}

// `Op,Pwd,` and the third field, which may hold commas.
pub fn read_fields(third: Third, s: &[u8]) -> Result<Command, Unread>
    ensures { result ≡ operators_of third s.now }
{
    let first = text::find(s, b',');
    if first == s.len() {
        return Err(Unread::Syntax);
    }
    let next = first + 1;
    let rest = &s[next..];
    let second = text::find(rest, b',');
    if second == rest.len() {
        return Err(Unread::Syntax);
    }
    let last = second + 1;
    read_third(third, &s[..first], &rest[..second], &rest[last..])
}

// Op and Pwd are read alike in all three.
fn read_third(third: Third, op: &[u8], password: &[u8], last: &[u8]) -> Result<Command, Unread>
    ensures { result ≡ with_third third op.now password.now last.now }
{
    let Some(o) = figures::digits(op, 1) else {
        return Err(Unread::Syntax);
    };
    let Some(p) = read_secret(password) else {
        return Err(Unread::Syntax);
    };
    if !is_op(o) {
        return Err(Unread::Syntax);
    }
    let given = Password {
        digits: password.len(),
        value: p,
    };
    match third {
        Third::Till => open_with(o, given, last),
        Third::Password => change_with(o, given, last),
        Third::Name => name_with(o, given, last),
    }
}

// There are eight operators.
pub fn is_op(op: u64) -> bool
    ensures { result ≡ is_op op }
{
    (1 <= op) & (op <= 8)
}

// A password has four to six digits.
fn read_secret(s: &[u8]) -> Option<u64>
    ensures { result ≡ secret_of s.now }
{
    if s.len() < 4 {
        return None;
    }
    figures::digits(s, 6)
}

// Till has 1 to 5 digits.
fn open_with(op: u64, password: Password, till: &[u8]) -> Result<Command, Unread>
    ensures { result ≡ open_with op password till.now }
{
    let Some(t) = figures::digits(till, 5) else {
        return Err(Unread::Syntax);
    };
    Ok(Command::Open {
        op,
        password,
        till: t,
    })
}

// The new password is one too.
fn change_with(op: u64, old: Password, new: &[u8]) -> Result<Command, Unread>
    ensures { result ≡ change_with op old new.now }
{
    let Some(p) = read_secret(new) else {
        return Err(Unread::Syntax);
    };
    Ok(Command::ChangePassword {
        op,
        old,
        new: Password {
            digits: new.len(),
            value: p,
        },
    })
}

// The name stays in the data.
fn name_with(op: u64, password: Password, name: &[u8]) -> Result<Command, Unread>
    ensures { result ≡ name_with op password name.now }
{
    if labels::is_name(name) {
        return Ok(Command::ChangeName { op, password });
    }
    Err(Unread::Syntax)
}

// The name of a 102: what stands behind the second comma.
pub fn name_in(s: &[u8]) -> &[u8]
    ensures { result.now ≡ name_in s.now }
{
    let first = text::find(s, b',');
    if first == s.len() {
        return &s[..0];
    }
    let next = first + 1;
    let rest = &s[next..];
    let second = text::find(rest, b',');
    if second == rest.len() {
        return &s[..0];
    }
    let last = second + 1;
    &rest[last..]
}
