// The commands whose data names no sum (PROTOCOL 5.1).
ghost use Rattle.std.specs.Prelude.{◌≡◌};
ghost use Rattle.kinds.specs.Plain.{bare_of, text_of, sums_of, closing_of, show_of};

use crate::{Command, Unread};

// 38, 39, 56, 60, 74 and 97: no data.
pub fn bare(command: Command, s: &[u8]) -> Result<Command, Unread>
    ensures { result ≡ bare_of command s.now }
{
    if s.len() == 0 {
        return Ok(command);
    }
    Err(Unread::Syntax)
}

// 42: its data is one text.
pub fn text(s: &[u8]) -> Result<Command, Unread>
    ensures { result ≡ text_of s.now }
{
    if labels::is_text(s) {
        return Ok(Command::PrintText);
    }
    Err(Unread::Syntax)
}

// 65: the day sums, or with `1` the taxes.
pub fn sums(s: &[u8]) -> Result<Command, Unread>
    ensures { result ≡ sums_of s.now }
{
    if s.len() == 0 {
        return Ok(Command::Sums { taxes: false });
    }
    if s.len() != 1 {
        return Err(Unread::Syntax);
    }
    let b = s[0];
    match b {
        b'0' => Ok(Command::Sums { taxes: false }),
        b'1' => Ok(Command::Sums { taxes: true }),
        _ => Err(Unread::Syntax),
    }
}

// 69: `0` closes the day, `2` reports.
pub fn closing(s: &[u8]) -> Result<Command, Unread>
    ensures { result ≡ closing_of s.now }
{
    if s.len() != 1 {
        return Err(Unread::Syntax);
    }
    let b = s[0];
    match b {
        b'0' => Ok(Command::Closing { clears: true }),
        b'2' => Ok(Command::Closing { clears: false }),
        _ => Err(Unread::Syntax),
    }
}

// 100: its data is a text for the display.
pub fn show_text(s: &[u8]) -> Result<Command, Unread>
    ensures { result ≡ show_of s.now }
{
    if display::can_show(s) {
        return Ok(Command::ShowText);
    }
    Err(Unread::Syntax)
}
