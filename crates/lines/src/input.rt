// Lines on standard input, one by one, so that they may be typed.
ghost use Rattle.std.specs.Prelude.{◌≡◌};
ghost use Rattle.lines.specs.Lines.{act_in, content_in, ActRead, told, BytesCame, ActCame};

use crate::{LINE_ROOM, gather};
use script::{Act, Mistake};
use sentences::front;
use std::io::{Error, Read, Stderr, Stdin};

// What the next line says, and how many bytes it has.
#[derive(Clone, Copy)]
pub struct Next {
    pub act: Result<Act, Mistake>,
    pub count: usize,
}

// The next line goes to the front of `line`, the data of its command to that of `content`. Behind the last line, and where the input can't be
// read, there is none, and `content` stays.
pub fn next_act(input: Stdin, errors: Stderr, line: &mut [u8], content: &mut [u8]) -> Option<Next>
    ensures { ActRead line.old line.new content.old content.new result }
{
    let count = next_line(input, errors, line).ok()?;
    Some(said(&*line, count, content))
}

// The same, but where there is no line what came of it is told all the same, and its data go to `content`.
pub fn what_came(
    input: Stdin,
    errors: Stderr,
    line: &mut [u8],
    content: &mut [u8],
) -> Result<Next, Next>
    ensures { ActCame line.old line.new content.old content.new (told result) }
{
    match next_line(input, errors, line) {
        Ok(count) => Ok(said(&*line, count, content)),
        Err(count) => Err(said(&*line, count, content)),
    }
}

// What the bytes of a line say.
fn said(line: &[u8], count: usize, content: &mut [u8]) -> Next
    ensures value { result ≡ record { act = act_in count line.now content.old; count = count } }
    ensures content_after { content.new ≡ content_in count line.now content.old }
{
    if LINE_ROOM < count {
        return Next {
            act: Err(Mistake::TooLong),
            count,
        };
    }
    let act = script::read_line(front(line, count), content);
    Next { act, count }
}

// How many bytes the next line has, or came of one that is not there. Of a line that is too long no more than one byte too many is read. What
// stands before the end of the input is a line too.
fn next_line(mut input: Stdin, errors: Stderr, line: &mut [u8]) -> Result<usize, usize>
    ensures { BytesCame line.old line.new (told result) }
{
    let mut count: usize = 0;
    for _ in 0..=LINE_ROOM {
        let mut byte = [0u8; 1];
        match input.read(&mut byte) {
            Ok(0) if count == 0 => return Err(count),
            Ok(0) => return Ok(count),
            Ok(_) => {}
            Err(why) => {
                unread(errors, why);
                return Err(count);
            }
        }
        let gathered = gather(line, count, &byte);
        count = gathered.count;
        if gathered.whole {
            break;
        }
    }
    Ok(count)
}

fn unread(errors: Stderr, why: Error) {
    system::fail(&errors, b"error: standard input can't be read", &why);
}

#[cfg(test)]
mod tests {
    use super::*;

    // Standard input is at its end: there is no line, and what was lent stays.
    #[test]
    fn none_at_the_end(rt: HostRuntime) {
        let mut line = *b"70 +5";
        let mut content = *b"+5";
        let next = next_act(rt.stdin(), rt.stderr(), &mut line, &mut content);
        assert!(rt; next.is_none());
        assert_eq!(rt; line, *b"70 +5");
        assert_eq!(rt; content, *b"+5");
    }
}
