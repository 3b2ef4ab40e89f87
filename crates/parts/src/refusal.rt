// Why a call is refused.
ghost use Rattle.std.specs.Prelude.{◌≡◌, not, [], ◌∷◌};
ghost use Rattle.rules.specs.Choice.{test, first_hit};
ghost use Rattle.rules.specs.Speed.{is_speed};
ghost use Rattle.rules.specs.Refusals.{wrong_port};
ghost use Rattle.parts.specs.Numbers.{reason_number, refusal_number};

use crate::speed;

// The refusals, and the number that C has for each. The lowest that applies is the one that is answered.
#[derive(Clone, Copy, Debug, PartialEq, Eq)]
pub enum Refusal {
    // The device is not valid.
    InvalidDevice = 1,
    // The port is not one of the device's.
    WrongPort = 2,
    // The device holds the bus.
    BusHeld = 3,
    // The memory lent has a wrong length.
    MemoryLength = 4,
    // The latches lent have a wrong length.
    LatchesLength = 5,
    // The sum of the clock counts and the grant does not fit 64 bits.
    TooManyClocks = 6,
    // The code is no speed's.
    NoSpeed = 7,
}

impl From<Refusal> for u8 {
    ghost from_gives = { λ refusal number. number ≡ reason_number refusal };

    fn from(refusal: Refusal) -> u8 {
        refusal as u8
    }
}

// The low byte of the port that stands for zxn mode.
const ZXN_PORT: u16 = 0x6B;

// The low byte of the port that stands for Zilog mode.
pub const ZILOG_PORT: u16 = 0x0B;

// The port is not one of the device's.
#[tactic(auto, unfolding(rules::specs::Choice::every, rules::specs::Choice::pick))]
fn is_wrong_port(port: u16) -> bool
    ensures { result ≡ wrong_port port }
{
    !matches!(port % 256, ZXN_PORT | ZILOG_PORT)
}

// Whether a port write or a port read is accepted, by whether the device is valid and holds the bus. Both are flags and not the core
// itself: a call that took the core would be too large for a compiler to put it into each access.
#[tactic(auto, unfolding(rules::specs::Choice::first_hit, rules::specs::Choice::pick))]
pub fn access(valid: bool, held: bool, port: u16) -> Result<(), Refusal>
    ensures { refusal_number result ≡ first_hit (test 1 (not valid) ∷ test 2 (wrong_port port) ∷ test 3 held ∷ []) }
{
    if !valid {
        return Err(Refusal::InvalidDevice);
    }
    if is_wrong_port(port) {
        return Err(Refusal::WrongPort);
    }
    if held {
        return Err(Refusal::BusHeld);
    }
    Ok(())
}

// Whether a speed call is accepted, by whether the device is valid.
#[tactic(auto, unfolding(rules::specs::Choice::first_hit, rules::specs::Choice::pick))]
pub fn speed(valid: bool, code: u8) -> Result<(), Refusal>
    ensures { refusal_number result ≡ first_hit (test 1 (not valid) ∷ test 7 (not (is_speed code)) ∷ []) }
{
    if !valid {
        return Err(Refusal::InvalidDevice);
    }
    if !speed::is_speed(code) {
        return Err(Refusal::NoSpeed);
    }
    Ok(())
}
