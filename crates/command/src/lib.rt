// What the data of a command means, and its texts (PROTOCOL 5.1, 4.7).
#![tactic(auto)]

ghost use Rattle.std.specs.Prelude.{◌≡◌};
ghost use Rattle.command.specs.Commands.{form_of, parsed_of, first_text, second_text};

use display::{MARK, SHOW};
use kinds::operators::Third;
use kinds::{Command, Unread, operators, plain};

// Any command: its kind with its fields; or 1, where the data is not of its form; or 2, where CMD is none of the seventeen. Only in data of some
// form is 10h looked for: long data of an unknown command costs nothing here.
pub fn parse(code: u8, bytes: &[u8]) -> Result<Command, Unread>
    ensures { result ≡ parsed_of code bytes.now }
{
    let command = form_of(code, bytes)?;
    if code == SHOW {
        return Ok(command);
    }
    if text::find(bytes, MARK) < bytes.len() {
        return Err(Unread::Syntax);
    }
    Ok(command)
}

fn form_of(code: u8, bytes: &[u8]) -> Result<Command, Unread>
    ensures { result ≡ form_of code bytes.now }
{
    match code {
        38 => plain::bare(Command::OpenText, bytes),
        39 => plain::bare(Command::CloseText, bytes),
        42 => plain::text(bytes),
        48 => operators::read_fields(Third::Till, bytes),
        49 => money::sell(bytes),
        51 => money::subtotals::subtotal(bytes),
        53 => money::pay(bytes),
        56 => plain::bare(Command::Close, bytes),
        60 => plain::bare(Command::Cancel, bytes),
        65 => plain::sums(bytes),
        69 => plain::closing(bytes),
        70 => money::drawer(bytes),
        74 => plain::bare(Command::Status, bytes),
        97 => plain::bare(Command::Rates, bytes),
        100 => plain::show_text(bytes),
        101 => operators::read_fields(Third::Password, bytes),
        102 => operators::read_fields(Third::Name, bytes),
        _ => Err(Unread::Unknown),
    }
}

// The text of 42, or L1 of 49 or 53: a part of the data.
pub fn first_text(code: u8, bytes: &[u8]) -> &[u8]
    ensures { result.now ≡ first_text code bytes.now }
{
    match code {
        42 => labels::only_line(bytes),
        49 | 53 => labels::first_line(bytes),
        _ => &bytes[..0],
    }
}

// L2 of 49 or 53.
pub fn second_text(code: u8, bytes: &[u8]) -> &[u8]
    ensures { result.now ≡ second_text code bytes.now }
{
    match code {
        49 | 53 => labels::second_line(bytes),
        _ => &bytes[..0],
    }
}
