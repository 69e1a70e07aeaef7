// One step of what stands around the device: it is taken by the desk, and told.
use crate::tell;
use desk::{BACK_ROOM, Desk, Phase};
use lines::LINE_ROOM;
use reader::FRAME_ROOM;
use script::{Act, MOST_CONTENT};
use sentences::front;
use std::io::Stdin;
use system::Outlets;

pub(crate) fn next(
    input: Stdin,
    to: Outlets,
    desk: Desk,
    sent: &mut [u8; FRAME_ROOM],
    answer: &mut [u8; FRAME_ROOM],
    out: &mut [u8; FRAME_ROOM],
    arrived: &mut [u8; FRAME_ROOM],
    back: &[u8; BACK_ROOM],
) -> Desk {
    if desk.phase == Phase::Plays {
        return play(input, to, desk, sent, out);
    }
    let answers = desk.phase != Phase::Sends;
    let fault = faults::fault_of(desk.faults, answers, desk.attempt);
    if answers {
        let told = desk::brought_back(desk, &*sent, answer, back, out);
        tell::came(to, desk.attempt, desk.given, fault, told.word, &*out);
        return told.desk;
    }
    let after = desk::on_its_way(desk, &*out, arrived);
    tell::sent(to, desk.attempt, desk.count, fault, after.got);
    after
}

// The bytes that arrived at the device.
pub(crate) fn bytes_at(arrived: &[u8; FRAME_ROOM], got: usize) -> &[u8] {
    front(arrived, got)
}

// One line of the script.
fn play(
    input: Stdin,
    to: Outlets,
    desk: Desk,
    sent: &mut [u8; FRAME_ROOM],
    out: &mut [u8],
) -> Desk {
    let mut line = [0u8; LINE_ROOM];
    let mut content = [0u8; MOST_CONTENT];
    let Ok(next) = lines::input::what_came(input, to.errors, &mut line, &mut content) else {
        return desk::ended(desk);
    };
    let after = desk::read(desk, next.act);
    match next.act {
        Ok(Act::Command { code, count }) => {
            let told = desk::sent_to(after, sent, code, front(&content, count), out);
            tell::command(to, code, front(&line, next.count), told.word, &*out);
            told.desk
        }
        Ok(_) => after,
        Err(mistake) => {
            tell::wrong(to, after.lines, mistake);
            after
        }
    }
}
