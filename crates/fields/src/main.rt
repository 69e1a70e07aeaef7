// What each of a list of commands is read as. A record is the command's number, the number of its data bytes, and the data.
#![tactic(auto)]

ghost use Rattle.std.specs.Prelude.{◌≤◌, ◌<◌, IfSome, length};

use kinds::{Adjust, Command, Mode, Password, Payment, Sale, Service, Tender, Unread};
use std::io::{Read, Stderr, Stdin};
use system::Outlets;

// The words that are written, each with a space before it.
const OPEN_TEXT: &[u8] = b" open text";

const CLOSE_TEXT: &[u8] = b" close text";

const TEXT: &[u8] = b" text";

const CLOSE: &[u8] = b" close";

const CANCEL: &[u8] = b" cancel";

const TAXES: &[u8] = b" taxes";

const SUMS: &[u8] = b" sums";

const CLOSE_DAY: &[u8] = b" close day";

const REPORT: &[u8] = b" report";

const STATUS: &[u8] = b" status";

const RATES: &[u8] = b" rates";

const SHOW_TEXT: &[u8] = b" show text";

const SUBTOTAL: &[u8] = b" subtotal";

const OPEN: &[u8] = b" open op";

const PASSWORD: &[u8] = b" password";

const CHANGE_PASSWORD: &[u8] = b" password op";

const NEW: &[u8] = b" new";

const CHANGE_NAME: &[u8] = b" name op";

const TILL: &[u8] = b" till";

const SELL: &[u8] = b" sell group";

const MINUS: &[u8] = b" minus";

const PRICE: &[u8] = b" price";

const QUANTITY: &[u8] = b" quantity";

const NOTHING: &[u8] = b" nothing";

const PERCENT_MORE: &[u8] = b" percent more";

const PERCENT_LESS: &[u8] = b" percent less";

const AMOUNT_MORE: &[u8] = b" amount more";

const AMOUNT_LESS: &[u8] = b" amount less";

const PAY: &[u8] = b" pay";

const CASH: &[u8] = b" cash";

const N: &[u8] = b" N";

const C: &[u8] = b" C";

const D: &[u8] = b" D";

const B: &[u8] = b" B";

const REST: &[u8] = b" rest";

const AMOUNT: &[u8] = b" amount";

const IN: &[u8] = b" in";

const OUT: &[u8] = b" out";

// As much of the input as is looked at.
const INPUT_ROOM: usize = 65536;

fn main(rt: HostRuntime) {
    let to = Outlets {
        output: rt.stdout(),
        errors: rt.stderr(),
    };
    let mut buf = [0u8; INPUT_ROOM];
    let n = all(rt.stdin(), to.errors, &mut buf);
    if !records(to, &buf[..n]).is_empty() {
        system::write(&to.errors, b"error: the last record is cut short\n");
    }
}

// The whole input, as far as the buffer reaches.
fn all(mut input: Stdin, errors: Stderr, buf: &mut [u8]) -> usize
    ensures { result ≤ length buf.new }
{
    let mut done = 0;
    while done < buf.len() {
        match input.read(&mut buf[done..]) {
            Ok(0) => {
                if done == 0 {
                    system::write(&errors, b"error: standard input has no record: Success\n");
                }
                return done;
            }
            Ok(n) => done += n,
            Err(why) => {
                if done == 0 {
                    system::fail(&errors, b"error: standard input has no record", &why);
                }
                return done;
            }
        }
    }
    done
}

// What stands behind the whole records.
fn records(to: Outlets, mut s: &[u8]) -> &[u8] {
    while let Some(behind) = record(to, s) {
        s = behind;
    }
    s
}

// What stands behind the first record, where that is whole.
fn record(to: Outlets, s: &[u8]) -> Option<&[u8]>
    ensures { IfSome result (λ behind. length behind.now < length s.now) }
{
    let [code, n, rest @ ..] = s else {
        return None;
    };
    let (content, behind) = rest.split_at_checked(usize::from(*n))?;
    say(to, *code, command::parse(*code, content));
    Some(behind)
}

fn say(to: Outlets, code: u8, read: Result<Command, Unread>) {
    system::number(&to.output, code as u64);
    outcome(to, read);
    put(to, b"\n");
}

fn outcome(to: Outlets, read: Result<Command, Unread>) {
    match read {
        Ok(c) => kind(to, c),
        Err(Unread::Syntax) => number(to, 1),
        Err(Unread::Unknown) => number(to, 2),
    }
}

fn kind(to: Outlets, c: Command) {
    match c {
        Command::OpenText => put(to, OPEN_TEXT),
        Command::CloseText => put(to, CLOSE_TEXT),
        Command::PrintText => put(to, TEXT),
        Command::Open { op, password, till } => open(to, op, password, till),
        Command::Sell(sale) => sell(to, sale),
        Command::Subtotal {
            print,
            show,
            adjust,
        } => subtotal(to, print, show, adjust),
        Command::Pay(payment) => pay(to, payment),
        Command::Close => put(to, CLOSE),
        Command::Cancel => put(to, CANCEL),
        Command::Sums { taxes } => either(to, taxes, TAXES, SUMS),
        Command::Closing { clears } => either(to, clears, CLOSE_DAY, REPORT),
        Command::Drawer(service) => drawer(to, service),
        Command::Status => put(to, STATUS),
        Command::Rates => put(to, RATES),
        Command::ShowText => put(to, SHOW_TEXT),
        Command::ChangePassword { op, old, new } => change_password(to, op, old, new),
        Command::ChangeName { op, password } => change_name(to, op, password),
    }
}

fn subtotal(to: Outlets, print: bool, show: bool, by: Adjust) {
    field(to, SUBTOTAL, print as u64);
    number(to, show as u64);
    adjust(to, by);
}

fn open(to: Outlets, op: u64, password: Password, till: u64) {
    field(to, OPEN, op);
    secret(to, PASSWORD, password);
    field(to, TILL, till);
}

fn change_password(to: Outlets, op: u64, old: Password, new: Password) {
    field(to, CHANGE_PASSWORD, op);
    secret(to, PASSWORD, old);
    secret(to, NEW, new);
}

fn change_name(to: Outlets, op: u64, password: Password) {
    field(to, CHANGE_NAME, op);
    secret(to, PASSWORD, password);
}

// How many digits, and their value.
fn secret(to: Outlets, name: &[u8], password: Password) {
    field(to, name, password.digits as u64);
    number(to, password.value);
}

fn sell(to: Outlets, sale: Sale) {
    field(to, SELL, sale.group);
    field(to, MINUS, sale.minus as u64);
    field(to, PRICE, sale.price);
    field(to, QUANTITY, sale.quantity);
    adjust(to, sale.adjust);
}

fn adjust(to: Outlets, by: Adjust) {
    match by {
        Adjust::Nothing => put(to, NOTHING),
        Adjust::PercentMore(n) => field(to, PERCENT_MORE, n),
        Adjust::PercentLess(n) => field(to, PERCENT_LESS, n),
        Adjust::AmountMore(n) => field(to, AMOUNT_MORE, n),
        Adjust::AmountLess(n) => field(to, AMOUNT_LESS, n),
    }
}

fn pay(to: Outlets, payment: Payment) {
    put(to, PAY);
    mode(to, payment.mode);
    tender(to, payment.tender);
}

fn mode(to: Outlets, by: Mode) {
    match by {
        Mode::Cash => put(to, CASH),
        Mode::N => put(to, N),
        Mode::C => put(to, C),
        Mode::D => put(to, D),
        Mode::B => put(to, B),
    }
}

fn tender(to: Outlets, given: Tender) {
    match given {
        Tender::Rest => put(to, REST),
        Tender::Amount(n) => field(to, AMOUNT, n),
    }
}

fn drawer(to: Outlets, service: Service) {
    match service {
        Service::Report => put(to, REPORT),
        Service::In(n) => field(to, IN, n),
        Service::Out(n) => field(to, OUT, n),
    }
}

fn either(to: Outlets, b: bool, yes: &[u8], no: &[u8]) {
    put(to, if b { yes } else { no });
}

fn field(to: Outlets, name: &[u8], n: u64) {
    put(to, name);
    number(to, n);
}

// A space and the number.
fn number(to: Outlets, n: u64) {
    put(to, b" ");
    system::number(&to.output, n);
}

fn put(to: Outlets, s: &[u8]) {
    system::put(to, s);
}
