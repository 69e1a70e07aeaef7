// Which bytes suit which place, and the four bytes of a BCC.
ghost use Rattle.std.specs.Prelude.{◌≡◌, ◌+◌, ◌++◌, ◌∷◌, [], length, get_or};
ghost use Rattle.wire.specs.Bytes.{may_stand, may_stand_in_data, every};
ghost use Rattle.wire.specs.Frame.{bcc};
ghost use Rattle.wire.specs.Places.{front, ending, behind_data, data_count, is, none};

use crate::{LEAST_LEN, Role, Way};

// Tab, line feed, 10h, and 20h and above. These are looked at first: nearly every byte is one of them.
fn may_stand_in_data(b: u8) -> bool
    ensures { result ≡ may_stand_in_data b }
{
    0x20 <= b || matches!(b, 0x09 | 0x0A | 0x10)
}

// Whether a byte may stand where one of its sort stands.
pub fn may_stand(role: Role, b: u8) -> bool
    ensures { result ≡ may_stand role b }
{
    match role {
        Role::Name => 0x20 <= b,
        Role::Data => may_stand_in_data(b),
        Role::Status => 0x80 <= b,
    }
}

// Whether each byte of a part may.
pub fn all_may_stand(role: Role, part: &[u8]) -> bool
    ensures { result ≡ every (may_stand role) part.now }
{
    part.iter().all(|b| may_stand(role, *b))
}

// The four bytes of a BCC, the highest digit first.
pub fn bcc_bytes(sum: u16) -> [u8; 4]
    ensures { result ≡ bcc sum }
{
    [
        0x30 + (sum / 4096 % 16) as u8,
        0x30 + (sum / 256 % 16) as u8,
        0x30 + (sum / 16 % 16) as u8,
        0x30 + (sum % 16) as u8,
    ]
}

// How many places stand between the data and 05h.
pub fn behind_data(way: Way) -> usize
    ensures { result ≡ length (behind_data way) }
{
    match way {
        Way::ToDevice => 0,
        Way::ToTill => 7,
    }
}

// How many data bytes LEN announces; 0 where it announces none or is no LEN.
pub fn data_count(way: Way, len: u8) -> usize
    ensures { result ≡ data_count way len }
{
    usize::from(len).saturating_sub(LEAST_LEN + behind_data(way))
}

// The places behind the data up to 05h, from 0.
pub fn suits_behind(way: Way, at: usize, b: u8) -> bool
    ensures { result ≡ get_or (behind_data way ++ is 0x05 ∷ []) at none b }
{
    let n = behind_data(way);
    if n < at {
        return false;
    }
    if at == n {
        return b == 0x05;
    }
    if at == 0 {
        return b == 0x04;
    }
    may_stand(Role::Status, b)
}

// The places from SEQ to 05h, from 0, where n data bytes stand.
pub fn suits_front(way: Way, n: usize, at: usize, b: u8) -> bool
    ensures { result ≡ get_or (front way n) at none b }
{
    if at < 2 {
        return may_stand(Role::Name, b);
    }
    let i = at - 2;
    if i < n {
        return may_stand(Role::Data, b);
    }
    suits_behind(way, i - n, b)
}

// The places behind 05h, from 0: BCC and 03h.
pub fn suits_ending(sum: u16, at: usize, b: u8) -> bool
    ensures { result ≡ get_or (ending sum) at none b }
{
    let quad = bcc_bytes(sum);
    if at < 4 {
        return b == quad[at];
    }
    if at == 4 {
        return b == 0x03;
    }
    false
}
