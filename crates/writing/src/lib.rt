// A line of a script as it is written: its words, hexadecimal digits, and data with escapes (docs/SCRIPTS.md).
#![tactic(auto)]

pub mod content;
pub mod words;

// Where reading of data stands: at a byte for itself, behind `\`, behind `\x`, behind `\x` and a digit; or what came is no data.
#[derive(Clone, Copy)]
pub enum Stand {
    Plain,
    Escape,
    High,
    Low(u8),
    Spoilt,
}

// What a byte of data, as it is written, says: a byte, or none yet.
#[derive(Clone, Copy)]
pub enum Step {
    Says(u8),
    GoesTo(Stand),
}
