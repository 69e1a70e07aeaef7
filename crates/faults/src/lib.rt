// What the line does to the tries of a command and to their answers: a byte becomes another one, or nothing arrives (PROTOCOL 9.1).
#![tactic(auto)]

ghost use Rattle.std.specs.Prelude.{◌≡◌, ℕ, ◌<◌, min, List, length};
ghost use Rattle.std.proofs.lemmas.List.Edits.{sets};
ghost use Rattle.faults.specs.Faults.{no_faults, spot_of, with_fault, fault_of, arrived_of, replaced};

// PROTOCOL 7.6: as often as a frame is handed out at most.
const TRIES: usize = 5;

// Of each try, and of each answer to one.
const SPOTS: usize = 10;

// What happens to some bytes on their way. Places count from 1.
#[derive(Clone, Copy)]
pub enum Fault {
    Nothing,
    Becomes { place: usize, byte: u8 },
    Lost,
}

// What happens to the tries of a command, and behind them to the answers.
#[derive(Clone, Copy)]
pub struct Faults {
    pub spots: [Fault; SPOTS],
}

// A line that carries everything as it is.
pub fn none() -> Faults
    ensures { result ≡ no_faults }
{
    Faults {
        spots: [Fault::Nothing; SPOTS],
    }
}

// The same with one fault more, of a try or of its answer.
pub fn with_fault(mut faults: Faults, answer: bool, attempt: u8, fault: Fault) -> Faults
    ensures { result ≡ with_fault faults answer attempt fault }
{
    faults.spots[spot_of(answer, attempt)] = fault;
    faults
}

// What happens to a try, or to its answer.
pub fn fault_of(faults: Faults, answer: bool, attempt: u8) -> Fault
    ensures { result ≡ fault_of faults answer attempt }
{
    faults.spots[spot_of(answer, attempt)]
}

fn spot_of(answer: bool, attempt: u8) -> usize
    ensures { (result ≡ spot_of answer attempt) × (result < 10) }
{
    let at = (attempt as usize + 4) % TRIES;
    if answer {
        return at + TRIES;
    }
    at
}

// What arrives of some bytes, at the front of `out` as far as it reaches.
pub fn arrive(bytes: &[u8], fault: Fault, out: &mut [u8]) -> usize
    ensures value { result ≡ min (length (arrived_of fault bytes.now)) (length out.old) }
    ensures out_after { out.new ≡ sets out.old 0 (arrived_of fault bytes.now) }
{
    match fault {
        Fault::Nothing => {
            text::put_bytes(out, 0, bytes);
            bytes.len().min(out.len())
        }
        Fault::Lost => 0,
        Fault::Becomes { place, byte } => {
            text::put_bytes(out, 0, bytes);
            replace(bytes.len(), place, byte, out);
            bytes.len().min(out.len())
        }
    }
}

// The byte at a place, counted from 1, of the n bytes at the front of `out`.
fn replace(n: usize, place: usize, byte: u8, out: &mut [u8])
    ensures { (l bytes : List ℕ) → length bytes ≡ n → out.old ≡ sets l 0 bytes → out.new ≡ sets l 0 (replaced place byte bytes) }
{
    if (0 < place) & (place <= n) {
        text::put_byte(out, place - 1, byte);
    }
}
