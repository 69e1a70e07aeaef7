// The parts that a line or a recording brings: read, kept, and what they gave back passed on (LINE 2 and 3). What the system reads and writes
// no contract can say: what is promised holds for whatever it answers. What is decided is in `keeping`.
#![tactic(auto)]

ghost use Rattle.std.specs.Prelude.{◌≤◌, length};
ghost use Rattle.std.specs.Io.{ReadsAtMost};
ghost use Rattle.options.specs.Ends.{names_left};
ghost use Rattle.passing.specs.Passing.{PartRead, Answered};

use keeping::{Next, Source, Stage};
use opening::{Held, INPUT, OUTPUT, TAPE};
use options::Ends;
use std::fs::File;
use std::io::{Error, IsTerminal, Read, Result, Seek, SeekFrom, Stderr, Write};

// The next part, in the first bytes; over where there is none, and then a message says why.
pub fn read_part(held: &Held, ends: Ends, stage: Stage, bytes: &mut [u8]) -> Stage
    ensures part_read { PartRead stage.replays ends.online (names_left ends) stage.heard (length bytes.new) result }
    ensures count_in_bounds { result.count ≤ length bytes.new }
{
    let source = keeping::source_of(stage.replays, ends.online);
    let left = options::names_left(ends);
    let number = number_of(ends, stage);
    let got = read(held, number, bytes);
    let n = got.unwrap_or(0);
    let failed = got.is_err();
    let terminal = is_terminal(held, number, got);
    let next = keeping::taken_for(source, failed, terminal, left, n);
    told(held.errors, source, got);
    let kept = act(held, ends, next, stage.heard, &bytes[0..n]);
    keeping::stage_after(next, stage.heard, n, kept)
}

fn number_of(ends: Ends, stage: Stage) -> Option<i32> {
    if stage.replays {
        ends.old
    } else {
        Some(ends.input)
    }
}

// What is there is read, once.
fn read(held: &Held, number: Option<i32>, bytes: &mut [u8]) -> Result<usize>
    ensures { ReadsAtMost result bytes.new }
{
    if number == Some(INPUT) {
        let mut input = held.input;
        return input.read(bytes);
    }
    let mut file = file_at(held, number)?;
    file.read(bytes)
}

// Asked only where no byte came.
fn is_terminal(held: &Held, number: Option<i32>, got: Result<usize>) -> bool {
    let Ok(0) = got else {
        return false;
    };
    if number == Some(INPUT) {
        return held.input.is_terminal();
    }
    file_at(held, number).is_ok_and(|file| file.is_terminal())
}

// The file that has this number. Where there is no number it is the one that is kept, as for every number that has no file of its own.
fn file_at(held: &Held, number: Option<i32>) -> Result<&File> {
    opening::file_at(held, number.unwrap_or(TAPE))
}

// A read that failed says why.
fn told(errors: Stderr, source: Source, got: Result<usize>) {
    let Err(why) = got else {
        return;
    };
    let what: &[u8] = match source {
        Source::Recording => b"error: the recording can't be read",
        Source::Input => b"error: standard input can't be read",
        Source::Line => b"error: the line can't be read",
    };
    system::fail(&errors, what, &why);
}

// What a read is taken for is done: bytes of the line are kept, a long replay says how far it is, a closed line is told. Whether bytes that have to
// be kept are.
fn act(held: &Held, ends: Ends, next: Next, heard: u64, bytes: &[u8]) -> bool {
    match next {
        Next::Silent => replayed(held, ends, heard, bytes.len()),
        Next::Answer => keep(held, kept_in(ends), bytes),
        Next::Closed => system::write(&held.errors, b"error: the line is closed\n"),
        Next::Anew | Next::Begin | Next::Wait | Next::End => true,
        Next::Broken => false,
    }
}

// Bytes of the recording: a long one says how far it is.
fn replayed(held: &Held, ends: Ends, before: u64, n: usize) -> bool {
    let heard = keeping::grown(before, n);
    if keeping::reports(before, heard) {
        report(held, ends, heard);
    }
    true
}

// Of the last one also how long it is: its end is looked for where nothing is read.
fn report(held: &Held, ends: Ends, heard: u64) {
    system::number(&held.errors, heard);
    if !options::names_left(ends) {
        let size = keeping::size_of(end_of(held, ends.tape));
        system::write(&held.errors, b" of ");
        system::number(&held.errors, size);
    }
    system::write(&held.errors, b" bytes of the recording are heard\n");
}

// The place of a file's end, where that can be told.
fn end_of(held: &Held, number: Option<i32>) -> Option<u64> {
    let mut file = file_at(held, number).ok()?;
    file.seek(SeekFrom::End(0)).ok()
}

// The number of the recording that is kept, where there is one: a number below 0 is none.
fn kept_in(ends: Ends) -> Option<i32> {
    ends.tape.filter(|number| 0 <= *number)
}

// Bytes of the line go into the recording before they are heard.
fn keep(held: &Held, tape: Option<i32>, bytes: &[u8]) -> bool {
    let Some(tape) = tape else {
        return true;
    };
    is_done(
        held.errors,
        b"error: the recording can't be written",
        written(held, tape, bytes),
    )
}

// All of the bytes, at once.
fn written(held: &Held, number: i32, bytes: &[u8]) -> Result<()> {
    if number == OUTPUT {
        let mut output = held.output;
        return Write::write_all(&mut output, bytes);
    }
    let mut file = opening::file_at(held, number)?;
    file.write_all(bytes)
}

// Whether it was done, or a message.
fn is_done(errors: Stderr, what: &[u8], done: Result<()>) -> bool {
    if let Err(why) = done {
        system::fail(&errors, what, &why);
    }
    done.is_ok()
}

// What is given back goes out once all that was heard is safe.
pub fn answer(held: &Held, ends: Ends, stage: Stage, out: &[u8], given: usize) -> bool
    ensures { Answered stage.replays given (length out.now) result }
{
    if !keeping::goes_out(stage.replays, given) {
        return true;
    }
    let Some(out) = out.get(..given) else {
        return false;
    };
    is_safe(held, kept_in(ends), stage.heard) && write(held, ends, out)
}

// On its device, and with nothing else in it.
fn is_safe(held: &Held, tape: Option<i32>, heard: u64) -> bool {
    if tape.is_none() {
        return true;
    }
    let safe = is_done(
        held.errors,
        b"error: the recording can't be made safe",
        synced(held, tape),
    );
    if !safe {
        return false;
    }
    let whole = keeping::is_whole(end_of(held, tape), heard);
    if !whole {
        system::write(
            &held.errors,
            b"error: the recording was changed by another hand\n",
        );
    }
    whole
}

fn synced(held: &Held, number: Option<i32>) -> Result<()> {
    file_at(held, number)?.sync_all()
}

fn write(held: &Held, ends: Ends, given: &[u8]) -> bool {
    let what: &[u8] = if ends.online {
        b"error: the line can't be written"
    } else {
        b"error: standard output can't be written"
    };
    is_done(held.errors, what, written(held, ends.output, given))
}
