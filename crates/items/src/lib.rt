// What is told of a frame, line by line: a label and a value each (EXPLAIN 2).
#![tactic(auto)]

pub mod asked;

ghost use Rattle.std.specs.Prelude.{◌≡◌, cond, eqb};
ghost use Rattle.items.specs.declared.Kind.TheVariants.{Done, Refused};
ghost use Rattle.items.specs.Items.{labelled, kind_of, place_items, broken_items, cut_items, came_item, part_saying, expected_item};

use expecting::{Expected, Part};
use line::Call;

// What a line is about.
#[derive(Clone, Copy)]
pub enum Label {
    Frame,
    Seq,
    Cmd,
    Data,
    Operator,
    Password,
    NewPassword,
    TillNumber,
    Group,
    TakenBack,
    Price,
    Quantity,
    PercentMore,
    PercentLess,
    AmountMore,
    AmountLess,
    Text,
    SecondText,
    PaidIn,
    Amount,
    AsksFor,
    Prints,
    Shows,
    PutIn,
    TakenOut,
    Reply,
    Reason,
    Answer,
    Status,
    Came,
    CameAnew,
    Place,
    Expected,
    Part,
    Skipped,
    OnDisplay,
}

// A value that is said in words.
#[derive(Clone, Copy)]
pub enum Saying {
    Yes,
    No,
    Cash,
    N,
    C,
    D,
    B,
    WholeRest,
    Taxes,
    DaySums,
    Closing,
    Report,
    Start,
    Len,
    Seq,
    Cmd,
    Data,
    Five,
    Bcc,
    End,
    Nothing,
}

// A value: sums in stotinki, percents in hundredths, quantities in thousandths; a number in so many digits; a letter; a byte, or the bytes from
// one to another; those that stand in data.
#[derive(Clone, Copy)]
pub enum Value {
    Number(u64),
    Sum(u64),
    Thousandths(u64),
    Digits { width: usize, number: u64 },
    Letter(u8),
    Byte(u8),
    Bytes { least: u8, most: u8 },
    InData,
    Said(Saying),
}

// A line.
#[derive(Clone, Copy)]
pub struct Item {
    pub label: Label,
    pub value: Value,
}

// Up to four lines.
pub type Four = [Option<Item>; 4];

// What became of a frame, or of bytes outside frames.
#[derive(Clone, Copy)]
pub enum Kind {
    Done,
    Refused,
    Broken,
    Repeat,
    Skipped,
    Cut,
}

// By what the bytes asked for, and the reply number.
pub fn kind_of(call: Call, number: u64) -> Kind
    ensures { result ≡ kind_of call number }
{
    match call {
        Call::Quiet => Kind::Skipped,
        Call::Nak => Kind::Broken,
        Call::Again => Kind::Repeat,
        Call::Order { .. } => done_or_refused(number),
    }
}

fn done_or_refused(number: u64) -> Kind
    ensures { result ≡ cond (eqb number 0) Done Refused }
{
    if number == 0 {
        Kind::Done
    } else {
        Kind::Refused
    }
}

// One line.
fn labelled(label: Label, value: Value) -> Option<Item>
    ensures { result ≡ labelled label value }
{
    Some(Item { label, value })
}

// The byte that broke a frame; 01h begins the next one.
fn came_item(byte: u8) -> Option<Item>
    ensures { result ≡ came_item byte }
{
    let label = if byte == 0x01 {
        Label::CameAnew
    } else {
        Label::Came
    };
    labelled(label, Value::Byte(byte))
}

// A frame that broke: the byte, its place behind 01h, counted from 1, what was expected there, and what that is called.
pub fn broken_items(count: u8, byte: u8, expected: Expected) -> Four
    ensures { result ≡ broken_items count byte expected }
{
    place_items(came_item(byte), count, expected)
}

// A frame that the recording ends in: the same of the byte that is missing.
pub fn cut_items(count: u8, expected: Expected) -> Four
    ensures { result ≡ cut_items count expected }
{
    place_items(None, count, expected)
}

fn place_items(first: Option<Item>, count: u8, expected: Expected) -> Four
    ensures { result ≡ place_items first count expected }
{
    [
        first,
        labelled(Label::Place, Value::Number(count as u64 + 1)),
        expected_item(expected),
        labelled(Label::Part, Value::Said(part_saying(expected.part))),
    ]
}

// The bytes that suit, where any do.
fn expected_item(expected: Expected) -> Option<Item>
    ensures { result ≡ expected_item expected }
{
    let Expected { part, least, most } = expected;
    let value = match part {
        Part::Start | Part::Five | Part::Bcc | Part::End => Value::Byte(least),
        Part::Len | Part::Seq | Part::Cmd => Value::Bytes { least, most },
        Part::Data => Value::InData,
        Part::Nothing => return None,
    };
    labelled(Label::Expected, value)
}

fn part_saying(part: Part) -> Saying
    ensures { result ≡ part_saying part }
{
    match part {
        Part::Start => Saying::Start,
        Part::Len => Saying::Len,
        Part::Seq => Saying::Seq,
        Part::Cmd => Saying::Cmd,
        Part::Data => Saying::Data,
        Part::Five => Saying::Five,
        Part::Bcc => Saying::Bcc,
        Part::End => Saying::End,
        Part::Nothing => Saying::Nothing,
    }
}
