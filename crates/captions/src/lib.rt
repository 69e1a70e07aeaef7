// What the lines of a telling are called (EXPLAIN 2).
#![tactic(auto)]

ghost use Rattle.std.specs.Prelude.{◌≡◌};
ghost use Rattle.sentences.specs.Put.{Put};
ghost use Rattle.captions.specs.Captions.{label_word, saying_word, kind_word};

use items::{Kind, Label, Saying};
use sentences::put;

// The label of a line.
pub fn put_label(buf: &mut [u8], at: usize, label: Label) -> usize
    ensures { Put buf.old at (label_word label) buf.new result }
{
    put(buf, at, label_word(label))
}

fn label_word(label: Label) -> &'static [u8]
    ensures { result.now ≡ label_word label }
{
    match label {
        Label::Frame => b"frame",
        Label::Seq => b"SEQ",
        Label::Cmd => b"CMD",
        Label::Data => b"data",
        Label::Operator => b"operator",
        Label::Password => b"password",
        Label::NewPassword => b"new password",
        Label::TillNumber => b"till number",
        Label::Group => b"group",
        Label::TakenBack => b"taken back, of group",
        Label::Price => b"price",
        Label::Quantity => b"quantity",
        Label::PercentMore => b"percent added",
        Label::PercentLess => b"percent taken off",
        Label::AmountMore => b"amount added",
        Label::AmountLess => b"amount taken off",
        Label::Text => b"text",
        Label::SecondText => b"second text",
        Label::PaidIn => b"paid in",
        Label::Amount => b"amount",
        Label::AsksFor => b"asks for",
        Label::Prints => b"asks to print",
        Label::Shows => b"asks to show",
        Label::PutIn => b"put in",
        Label::TakenOut => b"taken out",
        Label::Reply => b"reply",
        Label::Reason => b"reason",
        Label::Answer => b"answer",
        Label::Status => b"status",
        Label::Came => b"came",
        Label::CameAnew => b"came, and begins a frame anew",
        Label::Place => b"at byte behind 01",
        Label::Expected => b"expected",
        Label::Part => b"expected as",
        Label::Skipped => b"bytes skipped",
        Label::OnDisplay => b"on the display",
    }
}

// A value in words.
pub fn put_saying(buf: &mut [u8], at: usize, saying: Saying) -> usize
    ensures { Put buf.old at (saying_word saying) buf.new result }
{
    put(buf, at, saying_word(saying))
}

fn saying_word(saying: Saying) -> &'static [u8]
    ensures { result.now ≡ saying_word saying }
{
    match saying {
        Saying::Yes => b"yes",
        Saying::No => b"no",
        Saying::Cash => b"cash",
        Saying::N => b"register N",
        Saying::C => b"register C",
        Saying::D => b"register D",
        Saying::B => b"register B",
        Saying::WholeRest => b"the whole rest",
        Saying::Taxes => b"the taxes in the day sums",
        Saying::DaySums => b"the day sums",
        Saying::Closing => b"the closing of the day",
        Saying::Report => b"a report only",
        Saying::Start => b"the first byte of a frame",
        Saying::Len => b"LEN",
        Saying::Seq => b"SEQ",
        Saying::Cmd => b"CMD",
        Saying::Data => b"data, as LEN says",
        Saying::Five => b"the end of what is counted, where LEN puts it",
        Saying::Bcc => b"a digit of BCC, by the sum of LEN to 05",
        Saying::End => b"the end of the frame",
        Saying::Nothing => b"nothing",
    }
}

// What became of a frame.
pub fn put_kind(buf: &mut [u8], at: usize, kind: Kind) -> usize
    ensures { Put buf.old at (kind_word kind) buf.new result }
{
    put(buf, at, kind_word(kind))
}

fn kind_word(kind: Kind) -> &'static [u8]
    ensures { result.now ≡ kind_word kind }
{
    match kind {
        Kind::Done => b"done",
        Kind::Refused => b"refused",
        Kind::Broken => b"broken frame",
        Kind::Repeat => b"repeat",
        Kind::Skipped => b"bytes outside frames",
        Kind::Cut => b"a frame that the recording ends in",
    }
}
