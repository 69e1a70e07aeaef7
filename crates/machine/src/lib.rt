// The device as it stands between two bytes, and the first half of a call of it, which does not touch the sheet (PROTOCOL 1.1, 8.3).
#![tactic(auto)]

ghost use Rattle.std.specs.Prelude.{◌≡◌, drop};
ghost use Rattle.display.specs.Display.{displayed};
ghost use Rattle.machine.specs.Device.{fresh_fields, fields_anew};
ghost use Rattle.machine.specs.Beginning.{long_enough, asks_nothing, texts_by, asked_of, not_begun, beginning};

use books::Books;
use display::MOST_SHOWN;
use guard::Guard;
use kinds::{Command, Unread};
use line::{Call, MOST_HELD, Port};
use reader::FRAME_ROOM;
use sheet::{Line, MOST_LINES, Search};
use wire::ANSWER_ROOM;

// What a device holds by value; its two arrays and the sheet are lent with every call, as it left them.
#[derive(Clone, Copy)]
pub struct Device {
    pub line: Port,
    pub books: Books,
    pub guard: Guard,
}

// What a byte brought: the device afterwards, the reply number, how many bytes of the lent buffer are given back, and what the display shows.
#[derive(Clone, Copy)]
pub struct Given {
    pub device: Device,
    pub number: u64,
    pub count: usize,
    pub shows: Option<usize>,
}

// What a part of the line's bytes brought: what the last byte taken asked for and what it was given, and how many bytes were taken.
#[derive(Clone, Copy)]
pub struct Hearing {
    pub given: Given,
    pub call: Call,
    pub taken: usize,
}

// A command's data as read, what it looks for in the sheet, what it shows, the guard behind it, and whether that lets it pass.
#[derive(Clone, Copy)]
pub struct Asked {
    pub parsed: Result<Command, Unread>,
    pub search: Search,
    pub shows: Option<usize>,
    pub guard: Guard,
    pub passes: bool,
}

// The first half of a call: the bytes heard, what the last of them asks for, and which line is wanted, in how many. The device's guard is
// that behind the command.
#[derive(Clone, Copy)]
pub struct Begun {
    pub device: Device,
    pub call: Call,
    pub taken: usize,
    pub parsed: Result<Command, Unread>,
    pub lines: usize,
    pub wanted: Line,
    pub shows: Option<usize>,
    pub passes: bool,
    pub enough: bool,
}

// A device switched on for the first time.
pub fn fresh() -> Device
    ensures { result ≡ fresh_fields }
{
    let line = line::fresh();
    let books = books::fresh();
    let guard = guard::fresh();
    Device { line, books, guard }
}

// A device switched on anew: reading place, frame before, wrong passwords and lock are forgotten. All else stays, an open receipt too;
// what its arrays and the sheet hold is left there.
pub fn switch_on(device: Device) -> Device
    ensures { result ≡ fields_anew device }
{
    let line = line::fresh();
    let books = device.books;
    let guard = guard::calm(device.guard);
    Device { line, books, guard }
}

// The first half: bytes of a lent part from a place on are heard, up to and including the first that asks for something. `room` and
// `lines` are how long the buffer and the sheet are: with too little of these or of the display's buffer no byte is. What a command
// shows rests on its data alone, so that it is written here.
pub fn begin(
    device: Device,
    frame: &mut [u8; FRAME_ROOM],
    display: &mut [u8],
    room: usize,
    lines: usize,
    bytes: &[u8],
    from: usize,
) -> Begun
    ensures { record { begun = result; frame = frame.new; display = display.new } ≡ beginning device frame.old display.old room lines (drop from bytes.now) }
{
    if !is_enough(room, lines, display.len()) {
        return not_begun(device);
    }
    let start = from.min(bytes.len());
    let listened = line::listen(device.line, frame, &bytes[start..bytes.len()]);
    let asked = ask(device.books, device.guard, listened.call, &*frame, display);
    Begun {
        device: Device {
            line: listened.line,
            guard: asked.guard,
            ..device
        },
        call: listened.call,
        taken: listened.taken,
        parsed: asked.parsed,
        lines: asked.search.lines,
        wanted: asked.search.wanted,
        shows: asked.shows,
        passes: asked.passes,
        enough: true,
    }
}

fn not_begun(device: Device) -> Begun
    ensures { result ≡ not_begun device }
{
    Begun {
        device,
        call: Call::Quiet,
        taken: 0,
        parsed: Err(Unread::Unknown),
        lines: 0,
        wanted: sheet::blank_line(),
        shows: None,
        passes: true,
        enough: false,
    }
}

// Whether all that is lent is long enough.
fn is_enough(room: usize, lines: usize, shown: usize) -> bool
    ensures { result ≡ long_enough room lines shown }
{
    (ANSWER_ROOM <= room) & (MOST_LINES <= lines) & (MOST_SHOWN <= shown)
}

// An order's data stands in the frame from its fourth byte on.
fn ask(
    books: Books,
    guard: Guard,
    call: Call,
    frame: &[u8; FRAME_ROOM],
    display: &mut [u8],
) -> Asked
    ensures value { result ≡ asked_of books guard call frame.now }
    ensures display_after { display.new ≡ displayed display.old (texts_by call frame.now) }
{
    let Call::Order { code, count, .. } = call else {
        return ask_nothing(guard);
    };
    let end = count.min(MOST_HELD) + 3;
    let parsed = command::parse(code, &frame[3..end]);
    let search = carrying::search_in(books, parsed);
    let judged = guard::judge(guard, parsed, &frame[3..end]);
    let shows = display::show(code, &frame[3..end], display);
    Asked {
        parsed,
        search,
        shows,
        guard: judged.guard,
        passes: judged.passes,
    }
}

fn ask_nothing(guard: Guard) -> Asked
    ensures { result ≡ asks_nothing guard }
{
    Asked {
        parsed: Err(Unread::Unknown),
        search: rules::searches::no_search(),
        shows: None,
        guard,
        passes: true,
    }
}
