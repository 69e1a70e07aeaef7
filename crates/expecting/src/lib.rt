// Which bytes suit the next place of a command's frame (PROTOCOL 1.2, 1.7): what was expected where a frame broke.
#![tactic(auto)]

ghost use Rattle.std.specs.Prelude.{◌≡◌, ◌++◌, get_or};
ghost use Rattle.reader.specs.Fields.{place_of};
ghost use Rattle.expecting.specs.Expecting.{expected_at, front_parts, ending_parts, behind_all};

use reader::Reader;
use wire::{Way, suit};

// The parts of a frame; Nothing stands behind its last byte.
#[derive(Clone, Copy)]
pub enum Part {
    Start,
    Len,
    Seq,
    Cmd,
    Data,
    Five,
    Bcc,
    End,
    Nothing,
}

// A part, and the bytes from the least to the most that suit it; as data Tab, line feed and 10h suit too.
#[derive(Clone, Copy)]
pub struct Expected {
    pub part: Part,
    pub least: u8,
    pub most: u8,
}

// What may come next, by where reading stands and the bytes since 01h.
pub fn expected_at(reader: Reader, array: &[u8]) -> Expected
    ensures { result ≡ expected_at (place_of reader array.now) }
{
    if !reader.inside {
        return only(Part::Start, 0x01);
    }
    let came = (reader.count as usize).min(array.len());
    if came == 0 {
        return Expected {
            part: Part::Len,
            least: 0x24,
            most: 0xEC,
        };
    }
    behind_len(
        suit::data_count(Way::ToDevice, array[0]),
        came - 1,
        reader.sum,
    )
}

// One byte alone.
fn only(part: Part, byte: u8) -> Expected
    ensures { result ≡ record { part = part; least = byte; most = byte } }
{
    Expected {
        part,
        least: byte,
        most: byte,
    }
}

// 20h and above.
fn above(part: Part) -> Expected
    ensures { result ≡ record { part = part; least = 0x20; most = 0xFF } }
{
    Expected {
        part,
        least: 0x20,
        most: 0xFF,
    }
}

// The places behind LEN, from 0, where n data bytes stand and the bytes up to 05h have this sum.
fn behind_len(n: usize, at: usize, sum: u16) -> Expected
    ensures { result ≡ get_or (front_parts n ++ ending_parts sum) at behind_all }
{
    if at == 0 {
        return above(Part::Seq);
    }
    if at == 1 {
        return above(Part::Cmd);
    }
    let i = at - 2;
    if i < n {
        return above(Part::Data);
    }
    if i == n {
        return only(Part::Five, 0x05);
    }
    ending(sum, i - n - 1)
}

// The places behind 05h, from 0.
fn ending(sum: u16, at: usize) -> Expected
    ensures { result ≡ get_or (ending_parts sum) at behind_all }
{
    let quad = suit::bcc_bytes(sum);
    if at < 4 {
        return only(Part::Bcc, quad[at]);
    }
    if at == 4 {
        return only(Part::End, 0x03);
    }
    Expected {
        part: Part::Nothing,
        least: 1,
        most: 0,
    }
}
