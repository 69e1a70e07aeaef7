// What `printer` stands between: the line and the recordings, as its arguments name them, opened before any byte is heard (LINE 1 and 2). What
// the system opens no contract can say: what is promised holds for whatever it answers. What is decided is in `options` and `keeping`.
#![tactic(auto)]

ghost use Rattle.std.specs.Prelude.{◌≡◌, ◌≤◌, length};
ghost use Rattle.opening.specs.Opening.{Arguments, Opened, Followed};

use options::{Argument, Asked, Ends, Recordings};
use std::env::{Env, FillError};
use std::fs::{File, OpenOptions};
use std::io::{Error, ErrorKind, Result, Stderr, Stdin, Stdout};
use std::rt::Files;
use system::NAME_ROOM;

// The numbers of what is open: standard input, standard output, and the files.
pub const INPUT: i32 = 0;

pub const OUTPUT: i32 = 1;

pub const LINE: i32 = 3;

pub const OLD: i32 = 4;

pub const NEWEST: i32 = 5;

pub const TAPE: i32 = 6;

// What is open: the standard streams; the line; the recording that is replayed, unless it is the last one; the last one, to read and to append to.
#[derive(Drop)]
pub struct Held {
    pub input: Stdin,
    pub output: Stdout,
    pub errors: Stderr,
    pub line: Option<File>,
    pub old: Option<File>,
    pub newest: Option<File>,
    pub tape: Option<File>,
}

// A recording to read and to append to.
#[derive(Drop)]
struct Tape {
    old: File,
    tape: File,
}

// Before any file is opened.
pub fn none_held(input: Stdin, output: Stdout, errors: Stderr) -> Held
    ensures { result ≡ record { input = input; output = output; errors = errors; line = None; old = None; newest = None; tape = None } }
{
    Held {
        input,
        output,
        errors,
        line: None,
        old: None,
        newest: None,
        tape: None,
    }
}

// The file that has this number.
pub fn file_at(held: &Held, number: i32) -> Result<&File> {
    let file = match number {
        LINE => &held.line,
        OLD => &held.old,
        NEWEST => &held.newest,
        _ => &held.tape,
    };
    file.as_ref()
        .ok_or_else(|| Error::other("nothing is open there"))
}

// All that the arguments ask for, or a message.
pub fn open_ends<R: Env + Files<File = File>>(rt: &R, held: &mut Held) -> Option<Ends>
    ensures { Opened result }
{
    let Some(asked) = arguments(rt) else {
        refuse(held.errors);
        return None;
    };
    if let Some(named) = asked.recordings {
        hold_recordings(rt, held, named)?;
    }
    if let Some(place) = asked.line {
        held.line = Some(line_at(rt, held.errors, place)?);
    }
    next_recording(rt, held, options::ends_of(asked, LINE, NEWEST, TAPE))
}

// The next recording, where one is named, instead of the one that was replayed; or a message.
pub fn next_recording<R: Env + Files<File = File>>(
    rt: &R,
    held: &mut Held,
    ends: Ends,
) -> Option<Ends>
    ensures { Followed ends result }
{
    held.old = match options::next_place(ends) {
        Some(place) => Some(earlier_at(rt, held.errors, place)?),
        None => None,
    };
    Some(options::next_of(ends, OLD))
}

// The last recording, where those before it can be opened: that is looked at before anything is made.
fn hold_recordings<R: Env + Files<File = File>>(
    rt: &R,
    held: &mut Held,
    named: Recordings,
) -> Option<()> {
    for place in named.first..named.last {
        let _ = earlier_at(rt, held.errors, place)?;
    }
    let recording = recording_at(rt, held.errors, named.last)?;
    held.newest = Some(recording.old);
    held.tape = Some(recording.tape);
    Some(())
}

// The argument's name, as a recording that is only read.
fn earlier_at<R: Env + Files<File = File>>(rt: &R, errors: Stderr, place: usize) -> Option<File> {
    opened_at(
        rt,
        errors,
        place,
        b"error: the recording can't be opened: ",
        |name| system::open_read(rt, name),
    )
}

// The argument's name, as a recording.
fn recording_at<R: Env + Files<File = File>>(rt: &R, errors: Stderr, place: usize) -> Option<Tape> {
    opened_at(
        rt,
        errors,
        place,
        b"error: the recording can't be kept: ",
        |name| open_recording(rt, name),
    )
}

// The argument's name, as a line.
fn line_at<R: Env + Files<File = File>>(rt: &R, errors: Stderr, place: usize) -> Option<File> {
    opened_at(
        rt,
        errors,
        place,
        b"error: the line can't be opened: ",
        |name| system::open_update(rt, name),
    )
}

// What is opened by the argument's name, or a message.
fn opened_at<R: Env, T, F: FnOnce(&[u8]) -> Result<T>>(
    rt: &R,
    errors: Stderr,
    place: usize,
    what: &[u8],
    opens: F,
) -> Option<T>
    requires { F.IsAlwaysCallable opens }
{
    let mut room = [0u8; NAME_ROOM];
    let n = system::arg(rt, place, &mut room);
    let name = &room[..n];
    match opens(name) {
        Ok(opened) => Some(opened),
        Err(why) => {
            system::write(&errors, what);
            system::fail(&errors, name, &why);
            None
        }
    }
}

fn refuse(errors: Stderr) {
    system::write(
        &errors,
        b"usage: printer [-l LINE] [RECORDING]..\nerror: these arguments are of no such form\n",
    );
}

fn arguments<R: Env>(rt: &R) -> Option<Asked>
    ensures { Arguments result }
{
    let mut asked = Some(options::none_asked());
    for place in 1..usize::MAX {
        let Some(word) = argument(rt, place) else {
            return options::asked_of(asked, place);
        };
        asked = options::asked_with(asked, place, word);
    }
    options::asked_of(asked, usize::MAX)
}

// The argument at this place, where there is one.
fn argument<R: Env>(rt: &R, place: usize) -> Option<Argument> {
    let mut word = [0u8; NAME_ROOM];
    match rt.arg(place, &mut word) {
        Ok(n) => Some(options::argument_of(&word[..n])),
        Err(FillError::TooLong) => Some(Argument::Neither),
        Err(FillError::NotPresent) => None,
    }
}

fn open_append<R: Files<File = File>>(rt: &R, name: &[u8]) -> Result<File> {
    OpenOptions::new()
        .append(true)
        .open(rt, system::text_of(name)?)
}

fn make<R: Files<File = File>>(rt: &R, name: &[u8]) -> Result<File> {
    OpenOptions::new()
        .append(true)
        .create_new(true)
        .open(rt, system::text_of(name)?)
}

// Opened or made; it and its folder are safe.
fn open_recording<R: Files<File = File>>(rt: &R, name: &[u8]) -> Result<Tape> {
    let tape = open_or_make(rt, name)?;
    let old = system::open_read(rt, name)?;
    tape.sync_all()?;
    make_folder_safe(rt, name)?;
    Ok(Tape { old, tape })
}

// A file that is there or new: either is written at its end.
fn open_or_make<R: Files<File = File>>(rt: &R, name: &[u8]) -> Result<File> {
    match open_append(rt, name) {
        Err(why) if why.kind() == ErrorKind::NotFound => make(rt, name),
        opened => opened,
    }
}

// A new name is safe only when its folder is.
fn make_folder_safe<R: Files<File = File>>(rt: &R, name: &[u8]) -> Result<()> {
    let end = keeping::folder_end(name);
    if end == 0 {
        return sync(rt, b".");
    }
    let Some(folder) = name.get(..end) else {
        return Err(Error::new(ErrorKind::InvalidInput, "the name has no folder"));
    };
    sync(rt, folder)
}

fn sync<R: Files<File = File>>(rt: &R, folder: &[u8]) -> Result<()> {
    system::open_read(rt, folder)?.sync_all()
}
