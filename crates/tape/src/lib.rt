// What the calls of a device bring, noted down: what is given back into one lent buffer, the commands carried out into another, as far
// as each reaches (DECISIONS 32).
#![tactic(auto)]

ghost use Rattle.std.specs.Prelude.{◌≡◌, ◌+◌, min, length};
ghost use Rattle.std.proofs.lemmas.List.Edits.{sets};
ghost use Rattle.machine.specs.Hearing.{carried_by};
ghost use Rattle.tape.specs.Noting.{listing, place_after, noted_down, start_of};

use line::{Call, MOST_HELD};
use machine::{Device, Hearing};
use reader::FRAME_ROOM;

// A part heard so far: the device, the place of the next byte, how many bytes stand in the two lent buffers, and whether there is more.
#[derive(Clone, Copy)]
pub struct Run {
    pub device: Device,
    pub place: usize,
    pub given: usize,
    pub listed: usize,
    pub more: bool,
}

// The first byte of a part comes next.
pub fn start(device: Device, total: usize) -> Run
    ensures { result ≡ start_of device total }
{
    Run {
        device,
        place: 0,
        given: 0,
        listed: 0,
        more: 0 < total,
    }
}

// What one call brought: its bytes behind those that stand already, its command behind the others, and the next byte's place.
pub fn note_down(
    run: Run,
    heard: Hearing,
    frame: &[u8; FRAME_ROOM],
    buf: &[u8],
    total: usize,
    out: &mut [u8],
    orders: &mut [u8],
) -> Run
    ensures { record { run = result; out = out.new; orders = orders.new } ≡ noted_down run heard frame.now buf.now total out.old orders.old }
{
    let given = heard.given;
    let call = heard.call;
    let device = given.device;
    let count = given.count.min(buf.len());
    let listed = list_call(call, frame, orders, run.listed);
    let written = append(out, run.given, &buf[0..count]);
    let place = place_after(run.place, heard.taken, total);
    Run {
        device,
        place,
        given: written,
        listed,
        more: (0 < heard.taken) & (place < total),
    }
}

fn place_after(place: usize, taken: usize, total: usize) -> usize
    ensures { result ≡ place_after place taken total }
{
    if total < place {
        if taken == 0 {
            return place;
        }
        return total;
    }
    if taken <= total - place {
        return place + taken;
    }
    total
}

// The bytes behind those that stand already; past the end nothing is written.
fn append(out: &mut [u8], at: usize, src: &[u8]) -> usize
    ensures value { result ≡ min (at + length src.now) (length out.old) }
    ensures out_after { out.new ≡ sets out.old at src.now }
{
    let size = out.len();
    text::put_bytes(out, at, src);
    if size <= at {
        return size;
    }
    if size - at < src.len() {
        return size;
    }
    at + src.len()
}

// A command carried out, listed behind the others.
fn list_call(call: Call, frame: &[u8; FRAME_ROOM], orders: &mut [u8], at: usize) -> usize
    ensures value { result ≡ min (at + length (listing (carried_by call frame.now))) (length orders.old) }
    ensures orders_after { orders.new ≡ sets orders.old at (listing (carried_by call frame.now)) }
{
    let Call::Order { seq, code, count } = call else {
        return at.min(orders.len());
    };
    let n = count.min(MOST_HELD);
    let end = n + 3;
    let head = [seq, code, (n % 256) as u8];
    let behind = append(orders, at, &head);
    append(orders, behind, &frame[3..end])
}
