// The fields of a command (PROTOCOL chapter 5).
ghost use Rattle.std.specs.Prelude.{◌≡◌, None, cond};
ghost use Rattle.items.specs.declared.Value.TheVariants.{Said};
ghost use Rattle.items.specs.Asked.{asked_of, fields_of, operator_fields, till_item, password_item, sale_fields, adjusted, flags, pay_fields, mode_saying, tendered, drawer_fields, asks_for, alone};

use crate::{Four, Item, Label, Saying, Value, labelled};
use kinds::{Adjust, Command, Mode, Password, Payment, Sale, Service, Tender, Unread};

// Those of a command that was read; none where its data is not of its form, or there is no such command.
pub fn asked_of(parsed: Result<Command, Unread>) -> Four
    ensures { result ≡ asked_of parsed }
{
    match parsed {
        Ok(c) => fields_of(c),
        Err(_) => no_fields(),
    }
}

fn fields_of(command: Command) -> Four
    ensures { result ≡ fields_of command }
{
    match command {
        Command::Open { op, password, till } => operator_fields(op, password, till_item(till)),
        Command::Sell(s) => sale_fields(s),
        Command::Subtotal {
            print,
            show,
            adjust,
        } => flags(print, show, adjusted(adjust)),
        Command::Pay(p) => pay_fields(p),
        Command::Sums { taxes } => asks_for(taxes, Saying::Taxes, Saying::DaySums),
        Command::Closing { clears } => asks_for(clears, Saying::Closing, Saying::Report),
        Command::Drawer(s) => drawer_fields(s),
        Command::ChangePassword { op, old, new } => {
            operator_fields(op, old, password_item(Label::NewPassword, new))
        }
        Command::ChangeName { op, password } => operator_fields(op, password, None),
        Command::OpenText
        | Command::CloseText
        | Command::PrintText
        | Command::Close
        | Command::Cancel
        | Command::Status
        | Command::Rates
        | Command::ShowText => no_fields(),
    }
}

fn no_fields() -> Four
    ensures { result ≡ alone None }
{
    alone(None)
}

// One line.
fn alone(first: Option<Item>) -> Four
    ensures { result ≡ alone first }
{
    [first, None, None, None]
}

// 48, 101 and 102: the third of 48 is the till, of 101 the new password.
fn operator_fields(op: u64, password: Password, third: Option<Item>) -> Four
    ensures { result ≡ operator_fields op password third }
{
    [
        labelled(Label::Operator, Value::Number(op)),
        password_item(Label::Password, password),
        third,
        None,
    ]
}

fn till_item(till: u64) -> Option<Item>
    ensures { result ≡ till_item till }
{
    labelled(Label::TillNumber, Value::Number(till))
}

// As many digits as were sent.
fn password_item(label: Label, password: Password) -> Option<Item>
    ensures { result ≡ password_item label password }
{
    let value = Value::Digits {
        width: password.digits,
        number: password.value,
    };
    labelled(label, value)
}

// 49: the group's letter, and whether the line is taken back.
fn sale_fields(s: Sale) -> Four
    ensures { result ≡ sale_fields s }
{
    let label = if s.minus {
        Label::TakenBack
    } else {
        Label::Group
    };
    [
        labelled(label, Value::Letter(65 + (s.group % 8) as u8)),
        labelled(Label::Price, Value::Sum(s.price)),
        labelled(Label::Quantity, Value::Thousandths(s.quantity)),
        adjusted(s.adjust),
    ]
}

// What is done to the line behind its product, or to the whole receipt.
fn adjusted(adjust: Adjust) -> Option<Item>
    ensures { result ≡ adjusted adjust }
{
    match adjust {
        Adjust::Nothing => None,
        Adjust::PercentMore(p) => labelled(Label::PercentMore, Value::Sum(p)),
        Adjust::PercentLess(p) => labelled(Label::PercentLess, Value::Sum(p)),
        Adjust::AmountMore(a) => labelled(Label::AmountMore, Value::Sum(a)),
        Adjust::AmountLess(a) => labelled(Label::AmountLess, Value::Sum(a)),
    }
}

// 51: the third is what is done to the receipt.
fn flags(print: bool, show: bool, third: Option<Item>) -> Four
    ensures { result ≡ flags print show third }
{
    [
        labelled(Label::Prints, answer_to(print, Saying::Yes, Saying::No)),
        labelled(Label::Shows, answer_to(show, Saying::Yes, Saying::No)),
        third,
        None,
    ]
}

// One of two.
fn answer_to(which: bool, this: Saying, that: Saying) -> Value
    ensures { result ≡ Said (cond which this that) }
{
    Value::Said(if which { this } else { that })
}

// 65 and 69: one of two things.
fn asks_for(which: bool, this: Saying, that: Saying) -> Four
    ensures { result ≡ asks_for which this that }
{
    alone(labelled(Label::AsksFor, answer_to(which, this, that)))
}

// 53.
fn pay_fields(p: Payment) -> Four
    ensures { result ≡ pay_fields p }
{
    [
        labelled(Label::PaidIn, Value::Said(mode_saying(p.mode))),
        tendered(p.tender),
        None,
        None,
    ]
}

fn mode_saying(mode: Mode) -> Saying
    ensures { result ≡ mode_saying mode }
{
    match mode {
        Mode::Cash => Saying::Cash,
        Mode::N => Saying::N,
        Mode::C => Saying::C,
        Mode::D => Saying::D,
        Mode::B => Saying::B,
    }
}

fn tendered(tender: Tender) -> Option<Item>
    ensures { result ≡ tendered tender }
{
    match tender {
        Tender::Rest => labelled(Label::Amount, Value::Said(Saying::WholeRest)),
        Tender::Amount(n) => labelled(Label::Amount, Value::Sum(n)),
    }
}

// 70.
fn drawer_fields(service: Service) -> Four
    ensures { result ≡ drawer_fields service }
{
    alone(match service {
        Service::Report => labelled(Label::AsksFor, Value::Said(Saying::Report)),
        Service::In(n) => labelled(Label::PutIn, Value::Sum(n)),
        Service::Out(n) => labelled(Label::TakenOut, Value::Sum(n)),
    })
}
