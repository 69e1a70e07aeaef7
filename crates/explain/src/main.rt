// A recording told for a class: each frame with its command and fields in words, what the device replied and why, its answer and status.
// explain [-html] [RECORDING]; without a name the recording is standard input.
#![tactic(auto)]

mod recital;

use recital::Recording;
use std::env::Env;
use std::fs::File;
use std::io::{Result, Stdin};
use std::rt::Files;
use system::{NAME_ROOM, Outlets};
use wishes::Wish;

fn main(rt: HostRuntime) {
    let to = Outlets {
        output: rt.stdout(),
        errors: rt.stderr(),
    };
    let Some(wish) = arguments(&rt) else {
        system::write(
            &to.errors,
            b"usage: explain [-html] [RECORDING]\nerror: these arguments are of no such form: name one recording, or give it on standard input\n",
        );
        return;
    };
    match opened(&rt, rt.stdin(), wish.recording) {
        Ok(mut recording) => {
            begin(to, wish.html);
            recital::tell(to, &mut recording, wish.html);
            end(to, wish.html);
        }
        Err(why) => {
            system::fail(
                &to.errors,
                b"error: the recording can't be opened: name a file that is there and can be read",
                &why,
            );
        }
    }
}

fn arguments(rt: &impl Env) -> Option<Wish> {
    let mut first = [0u8; NAME_ROOM];
    let n = system::arg(rt, 1, &mut first);
    wishes::wish_of(system::arg_count(rt), &first[..n])
}

// The recording that an argument names, open for reading; without one standard input.
fn opened<R: Env + Files<File = File>>(
    rt: &R,
    input: Stdin,
    place: Option<usize>,
) -> Result<Recording> {
    let Some(place) = place else {
        return Ok(Recording::Input(input));
    };
    let mut name = [0u8; NAME_ROOM];
    let n = system::arg(rt, place, &mut name);
    let file = system::open_read(rt, &name[..n])?;
    Ok(Recording::Named(file))
}

// What stands before and behind all frames of a page.
fn begin(to: Outlets, html: bool) {
    if html {
        system::write(
            &to.output,
            b"<!DOCTYPE html>\n<html lang=\"en\"><head><meta charset=\"utf-8\"><title>A recording explained</title>\n<style>\n\
            body { font: 20px/1.45 sans-serif; max-width: 60em; margin: 1em auto; padding: 0 1em; color: #111; background: #fff }\n\
            section { border-left: .5em solid #1b6e3c; padding-left: .8em; margin: 1.4em 0 }\n\
            .refused { border-color: #b25400 }\n.broken { border-color: #b00020 }\n.repeat { border-color: #1f4e9e }\n\
            .outside, .ends { border-color: #666; border-left-style: dashed }\n\
            h2 { font-size: 1.15em; margin: 0 0 .3em; break-after: avoid }\n\
            tr { break-inside: avoid }\n\
            table { border-collapse: collapse; width: 100% }\n\
            th, td { text-align: left; vertical-align: top; padding: .1em .6em .1em 0; border-bottom: 1px solid #ccc }\n\
            th { width: 30%; font-weight: normal; color: #333 }\n\
            td { font-family: monospace; overflow-wrap: anywhere }\n\
            @media print { body { font-size: 10pt; margin: 0; padding: 0; max-width: none } section { margin: .8em 0 } }\n\
            </style></head><body>\n<h1>A recording explained</h1>\n",
        );
    }
}

fn end(to: Outlets, html: bool) {
    if html {
        system::write(&to.output, b"</body></html>\n");
    }
}
