// Building frames into a lent buffer.
ghost use Rattle.std.specs.Prelude.{◌≡◌, ◌∷◌, ◌++◌, ◌+◌, ◌%◌, ◌≤◌, length, take, drop};
ghost use Rattle.std.proofs.lemmas.List.Edits.{sets};
ghost use Rattle.wire.specs.Frame.{command_of, answer_of, carriable, enclosed, total};
ghost use Rattle.wire.specs.Replies.{reply_of, building, sealing};
ghost use Rattle.wire.specs.declared.Way.TheVariants.{ToDevice, ToTill};

use crate::{ANSWER_ROOM, COMMAND_ROOM, MOST_DATA, Role, Unbuilt, suit};

// A command frame at the front of the buffer: its length.
pub fn build_command(buf: &mut [u8], seq: u8, code: u8, content: &[u8]) -> Result<usize, Unbuilt>
    ensures { reply_of result buf.new ≡ building ToDevice buf.old (command_of seq code content.now) }
{
    if buf.len() < COMMAND_ROOM {
        return Err(Unbuilt::Short);
    }
    if !can_carry(seq, code, content) {
        return Err(Unbuilt::Unsendable);
    }
    text::put_bytes(buf, 4, content);
    Ok(enclose(buf, seq, code, content.len()))
}

// An answer frame at the front of the buffer: its length.
pub fn build_answer(
    buf: &mut [u8],
    seq: u8,
    code: u8,
    content: &[u8],
    status: [u8; 6],
) -> Result<usize, Unbuilt>
    ensures { reply_of result buf.new ≡ building ToTill buf.old (answer_of seq code content.now status) }
{
    if buf.len() < ANSWER_ROOM {
        return Err(Unbuilt::Short);
    }
    if !can_carry(seq, code, content) || !suit::all_may_stand(Role::Status, &status) {
        return Err(Unbuilt::Unsendable);
    }
    text::put_bytes(buf, 4, content);
    Ok(finish(buf, seq, code, content.len(), status))
}

// An answer frame around its n data bytes, which stand in their place already: from the buffer's fifth byte on.
pub fn seal_answer(
    buf: &mut [u8],
    seq: u8,
    code: u8,
    n: usize,
    status: [u8; 6],
) -> Result<usize, Unbuilt>
    ensures { reply_of result buf.new ≡ sealing buf.old seq code n status }
{
    if buf.len() < ANSWER_ROOM {
        return Err(Unbuilt::Short);
    }
    if MOST_DATA < n {
        return Err(Unbuilt::Unsendable);
    }
    Ok(finish(buf, seq, code, n, status))
}

// 04h and the status behind the n data bytes, and the frame around all.
fn finish(buf: &mut [u8], seq: u8, code: u8, n: usize, status: [u8; 6]) -> usize
    requires n_bound { n ≤ 200 }
    requires n_in_bounds { n + 17 ≤ length buf.old }
    ensures value { result ≡ n + 17 }
    ensures buf_after { buf.new ≡ sets buf.old 0 (enclosed seq code (take n (drop 4 buf.old) ++ 0x04 ∷ status)) }
{
    text::put_byte(buf, n + 4, 0x04);
    text::put_bytes(buf, n + 5, &status);
    enclose(buf, seq, code, n + 7)
}

// Whether SEQ, CMD and data are in their ranges.
fn can_carry(seq: u8, code: u8, content: &[u8]) -> bool
    ensures { result ≡ carriable seq code content.now }
{
    suit::may_stand(Role::Name, seq)
        && suit::may_stand(Role::Name, code)
        && content.len() <= MOST_DATA
        && suit::all_may_stand(Role::Data, content)
}

// The n bytes from the buffer's fifth on stand between CMD and 05h already; the rest is put around them.
fn enclose(buf: &mut [u8], seq: u8, code: u8, n: usize) -> usize
    requires n_bound { n ≤ 207 }
    requires n_in_bounds { n + 10 ≤ length buf.old }
    ensures value { result ≡ n + 10 }
    ensures buf_after { buf.new ≡ sets buf.old 0 (enclosed seq code (take n (drop 4 buf.old))) }
{
    let head = [0x01, (n + 4 + 0x20) as u8, seq, code];
    let end = n + 5;
    text::put_bytes(buf, 0, &head);
    text::put_byte(buf, n + 4, 0x05);
    let quad = suit::bcc_bytes(sum_of(&buf[1..end]));
    text::put_bytes(buf, end, &quad);
    text::put_byte(buf, n + 9, 0x03);
    n + 10
}

// The sum that BCC writes, of the bytes from LEN to 05h.
pub fn sum_of(part: &[u8]) -> u16
    ensures { result ≡ total part.now % 65536 }
{
    let mut sum: u16 = 0;
    for b in part {
        sum = sum.wrapping_add(u16::from(*b));
    }
    sum
}
