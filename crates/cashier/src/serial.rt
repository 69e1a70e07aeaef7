// One step of a script on a real line: something is read or written, and the clerk is told of it.
use crate::tell;
use clerk::{Clerk, Phase};
use lines::LINE_ROOM;
use reader::FRAME_ROOM;
use script::{Act, MOST_CONTENT};
use sentences::front;
use std::fs::File;
use std::io::{Read, Stdin, Write};
use system::Outlets;

pub(crate) fn next(
    input: Stdin,
    to: Outlets,
    clerk: Clerk,
    line: &File,
    keep: bool,
    sent: &mut [u8; FRAME_ROOM],
    answer: &mut [u8; FRAME_ROOM],
    out: &mut [u8; FRAME_ROOM],
) -> Clerk {
    match clerk.phase {
        Phase::Plays => play(input, to, clerk, sent, out),
        Phase::Hears => hear(clerk, line, &*sent, answer, out),
        Phase::Sends => {
            write(to, line, &*out, till::count(clerk.word));
            clerk::written(clerk)
        }
        _ => {
            tell::says(to, clerk.word, &*out);
            clerk::told(clerk, keep)
        }
    }
}

// One line of the script.
fn play(
    input: Stdin,
    to: Outlets,
    clerk: Clerk,
    sent: &mut [u8; FRAME_ROOM],
    out: &mut [u8],
) -> Clerk {
    let mut line = [0u8; LINE_ROOM];
    let mut content = [0u8; MOST_CONTENT];
    let Ok(next) = lines::input::what_came(input, to.errors, &mut line, &mut content) else {
        return clerk::ended(clerk);
    };
    if let Ok(Act::Command { code, .. }) = next.act {
        tell::heading(to, code, front(&line, next.count));
    }
    clerk::play(clerk, next.act, &content, sent, out)
}

// A frame that can't be written is one that nobody hears.
fn write(to: Outlets, mut line: &File, out: &[u8; FRAME_ROOM], count: usize) {
    if let Err(why) = line.write_all(front(out, count)) {
        system::fail(&to.errors, b"error: the line can't be written", &why);
    }
}

// One read. Where it fails, it brings nothing.
fn hear(
    clerk: Clerk,
    mut line: &File,
    sent: &[u8; FRAME_ROOM],
    answer: &mut [u8; FRAME_ROOM],
    out: &mut [u8],
) -> Clerk {
    let mut came = [0u8; FRAME_ROOM];
    let n = line.read(&mut came).unwrap_or(0);
    clerk::hear(clerk, sent, answer, front(&came, n), out)
}
