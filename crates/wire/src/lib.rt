// Command and answer frames (PROTOCOL 1.2 to 1.7), built and read.
#![tactic(auto)]

pub mod build;
pub mod suit;

// The most data bytes of a frame, and the LEN of a frame with none between CMD and 05h.
pub const MOST_DATA: usize = 200;

pub const LEAST_LEN: usize = 0x24;

// How many bytes the longest command and the longest answer have: so many are to be lent.
pub const COMMAND_ROOM: usize = 210;

pub const ANSWER_ROOM: usize = 217;

// Which way a frame goes: a command to the device, an answer to the till end. The differing parts of both stand beside each other in
// `specs/`.
#[derive(Clone, Copy)]
pub enum Way {
    ToDevice,
    ToTill,
}

// What a byte of a frame is: one of the two that name it (SEQ and CMD), data, or status.
#[derive(Clone, Copy)]
pub enum Role {
    Name,
    Data,
    Status,
}

// Why no frame was built: number 7, too short a buffer, or number 8.
#[derive(Clone, Copy, PartialEq, Eq)]
pub enum Unbuilt {
    Short,
    Unsendable,
}
