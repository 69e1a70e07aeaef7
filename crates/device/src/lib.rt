// The device: bytes in; nothing, NAK or a whole answer out (PROTOCOL 1.1).
#![tactic(auto)]

ghost use Rattle.std.specs.Prelude.{◌≡◌, ◌≤◌, length, drop};
ghost use Rattle.machine.specs.Hearing.{part_of, after_part};

use machine::{Device, Hearing};
use reader::FRAME_ROOM;
use sheet::Line;
use wire::ANSWER_ROOM;

// Bytes of a lent part from a place on, up to and including the first that asks for something; what it gives back stands in `buf`, the
// text that it shows in `display`. The bytes since 01h stand in `frame`, the last answer in `last`, the lines of the newest fiscal
// receipt in `sheet`: all three are the device's own, as it left them. Only here is the sheet touched: asked once, told once.
pub fn hear(
    device: Device,
    frame: &mut [u8; FRAME_ROOM],
    last: &mut [u8; ANSWER_ROOM],
    buf: &mut [u8],
    display: &mut [u8],
    sheet: &mut [Line],
    bytes: &[u8],
    from: usize,
) -> Hearing
    ensures { (part_of result frame.new last.new buf.new display.new sheet.new (length sheet.old) ≡ after_part (record { device = device; frame = frame.old; last = last.old; sheet = sheet.old }) (record { buffer = buf.old; lines = length sheet.old; display = display.old }) (drop from bytes.now)) × (result.given.count ≤ 217) }
{
    let lines = sheet::length_of(sheet);
    let begun = machine::begin(device, frame, display, buf.len(), lines, bytes, from);
    let at = sheet::find(sheet, begun.lines, begun.wanted);
    let found = sheet::get(sheet, at);
    let ended = giving::finish(begun, at, found, last, buf);
    sheet::tell(sheet, ended.writes);
    ended.hearing
}
