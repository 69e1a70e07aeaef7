// A script (docs/SCRIPTS.md) sent over a real line: cashier [-k] -l LINE. One line a command; it stops at one that ends UNFINISHED, unless
// told -k.
#![tactic(auto)]

mod serial;
mod tell;

use clerk::Phase;
use reader::FRAME_ROOM;
use std::env::Env;
use std::fs::File;
use std::io::Stdin;
use system::{NAME_ROOM, Outlets};
use wishes::Errand;

fn main(rt: HostRuntime) {
    let to = Outlets {
        output: rt.stdout(),
        errors: rt.stderr(),
    };
    let Some(errand) = arguments(&rt) else {
        system::write(&to.errors, b"error: usage: cashier [-k] -l LINE <SCRIPT\n");
        return;
    };
    let mut path = [0u8; NAME_ROOM];
    let n = system::arg(&rt, errand.line, &mut path);
    match system::open_update(&rt, &path[..n]) {
        Ok(line) => play(rt.stdin(), to, &line, errand.keeps),
        Err(why) => {
            system::fail(
                &to.errors,
                b"error: the line can't be opened for reading and writing",
                &why,
            );
        }
    }
}

// An option has two letters: of a longer argument as much is looked at as shows that it is none.
fn arguments(rt: &impl Env) -> Option<Errand> {
    let mut first = [0u8; 8];
    let mut second = [0u8; 8];
    let n = system::arg(rt, 1, &mut first);
    let m = system::arg(rt, 2, &mut second);
    wishes::errand_of(system::arg_count(rt), &first[..n], &second[..m])
}

// Step after step, until the script ends or something stops it.
fn play(input: Stdin, to: Outlets, line: &File, keep: bool) {
    let mut sent = [0u8; FRAME_ROOM];
    let mut answer = [0u8; FRAME_ROOM];
    let mut out = [0u8; FRAME_ROOM];
    let mut clerk = clerk::fresh();
    for _ in 0..u64::MAX {
        match clerk.phase {
            Phase::Ended => return,
            Phase::Stopped => {
                tell::stopped(to, clerk.lines, clerk.why);
                return;
            }
            _ => {}
        }
        clerk = serial::next(
            input,
            to,
            clerk,
            line,
            keep,
            &mut sent,
            &mut answer,
            &mut out,
        );
    }
}
