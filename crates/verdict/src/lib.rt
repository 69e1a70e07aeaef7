// What the status bytes of an answer tell the till end of its command (PROTOCOL 3.2).
#![tactic(auto)]

ghost use Rattle.std.specs.Prelude.{◌≡◌, ◌<◌};
ghost use Rattle.verdict.specs.Verdict.{has_bit, verdict_in};

// The reply number, 0 to 4, by bytes 0 and 1.
pub fn verdict_in(first: u8, second: u8) -> u8
    ensures { result ≡ verdict_in first second }
{
    if has_bit(1, first) {
        return 1;
    }
    if has_bit(2, first) {
        return 2;
    }
    if has_bit(1, second) {
        return 4;
    }
    if has_bit(2, second) {
        return 3;
    }
    0
}

fn has_bit(value: u8, b: u8) -> bool
    requires { 0 < value }
    ensures { result ≡ has_bit value b }
{
    b / value % 2 == 1
}
