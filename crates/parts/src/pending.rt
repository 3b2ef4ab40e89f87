// The pending parameters: one number, a field that C has, with a bit for each, the lowest set bit the next one. No other module
// looks into the number: what is next, what is pending after a byte, and whether the number is valid, is all that they ask.
ghost use Rattle.std.specs.Prelude.{◌≡◌};
ghost use Rattle.rules.specs.Pending.{next, wr0_asks, timing_asks, wr4_asks, asked, pending_after_as, valid_pending};
ghost use Rattle.parts.specs.Numbers.{bit_of, parameter_number};

use crate::selection::{self, Register};

// A parameter, and its bit, in the order of the register table.
#[derive(Clone, Copy, Debug, PartialEq, Eq)]
pub enum Parameter {
    ALow = 1,
    AHigh = 2,
    LengthLow = 4,
    LengthHigh = 8,
    ATiming = 16,
    BTiming = 32,
    Prescaler = 64,
    BLow = 128,
    BHigh = 256,
    ReadMask = 512,
}

impl From<Parameter> for u16 {
    ghost from_gives = { λ parameter bit. bit ≡ bit_of parameter };

    fn from(parameter: Parameter) -> u16 {
        parameter as u16
    }
}

// Nothing is pending.
pub const NOTHING: u16 = 0;

// WR4's two together. A const takes no `From`, hence the casts.
const B_BOTH: u16 = Parameter::BLow as u16 + Parameter::BHigh as u16;

// The next one, the lowest set bit.
#[tactic(auto, using(crate::proofs::Lowest::lowest), unfolding(rules::specs::Choice::pick))]
pub fn next_of(p: u16) -> Option<Parameter>
    ensures { parameter_number result ≡ next p }
{
    match p.trailing_zeros() {
        0 => Some(Parameter::ALow),
        1 => Some(Parameter::AHigh),
        2 => Some(Parameter::LengthLow),
        3 => Some(Parameter::LengthHigh),
        4 => Some(Parameter::ATiming),
        5 => Some(Parameter::BTiming),
        6 => Some(Parameter::Prescaler),
        7 => Some(Parameter::BLow),
        8 => Some(Parameter::BHigh),
        9 => Some(Parameter::ReadMask),
        _ => None,
    }
}

// What WR0 asks for: bits 3 to 6 are bits 0 to 3 of the number.
#[tactic(auto, unfolding(rules::specs::Pending::ask, rules::specs::Choice::pick))]
fn wr0_asks(byte: u8) -> u16
    ensures { result ≡ wr0_asks byte }
{
    u16::from(byte / 8 % 16)
}

// What WR1 or WR2 asks for, by the timing of its port.
#[tactic(auto, unfolding(rules::specs::Pending::ask, rules::specs::Choice::pick))]
fn timing_asks(timing: Parameter, byte: u8) -> u16
    ensures { result ≡ timing_asks (bit_of timing) byte }
{
    if byte / 64 % 2 == 1 {
        timing.into()
    } else {
        NOTHING
    }
}

// What WR4 asks for: bits 2 and 3 are bits 7 and 8 of the number.
#[tactic(auto, unfolding(rules::specs::Pending::ask, rules::specs::Choice::pick))]
fn wr4_asks(byte: u8) -> u16
    ensures { result ≡ wr4_asks byte }
{
    u16::from(byte / 4 % 4) * u16::from(Parameter::BLow)
}

// After a byte that selects a register: what it asks for. BB, the one command that asks for a parameter, stands here alone.
#[tactic(auto, using(crate::proofs::Mask::no_mask), unfolding(rules::specs::Pending::asked, rules::specs::Choice::first_of, rules::specs::Choice::pick))]
fn after_register(byte: u8, p: u16) -> u16
    ensures { result ≡ asked byte p }
{
    match selection::register_of(byte) {
        Some(Register::Wr0) => wr0_asks(byte),
        Some(Register::Wr1) => timing_asks(Parameter::ATiming, byte),
        Some(Register::Wr2) => timing_asks(Parameter::BTiming, byte),
        Some(Register::Wr4) => wr4_asks(byte),
        Some(Register::Wr6) if byte == 0xBB => Parameter::ReadMask.into(),
        Some(Register::Wr3 | Register::Wr5 | Register::Wr6) | None => p,
    }
}

// What is pending after a byte, by what is next: a parameter is used up, and B timing may ask for the prescaler. One above the
// number leaves nothing.
#[tactic(auto, unfolding(rules::specs::Pending::pending_after_as, rules::specs::Pending::used_up, rules::specs::Choice::every, rules::specs::Choice::pick))]
pub fn after(parameter: Option<Parameter>, byte: u8, p: u16) -> u16
    ensures { result ≡ pending_after_as (parameter_number parameter) byte p }
{
    match parameter {
        None => after_register(byte, p),
        Some(Parameter::BTiming) if byte / 32 % 2 == 1 => Parameter::Prescaler.into(),
        Some(parameter) => p.saturating_sub(parameter.into()),
    }
}

// The same for who has what is next by its number, as the definitions have it: 0 for none, and else the parameter's bit. It takes
// every number, and one that is no parameter's is taken off like a parameter's.
#[tactic(auto, unfolding(rules::specs::Pending::pending_after_as, rules::specs::Pending::used_up, rules::specs::Choice::every, rules::specs::Choice::pick))]
pub fn after_number(parameter: u16, byte: u8, p: u16) -> u16
    ensures { result ≡ pending_after_as parameter byte p }
{
    match parameter {
        0 => after(None, byte, p),
        32 => after(Some(Parameter::BTiming), byte, p),
        _ => p.saturating_sub(parameter),
    }
}

// The parameters are some of WR0's, some of WR4's, or one of the others alone. From A timing on, the numbers of one alone are the
// divisors of the last one's, and WR4's two together are all that is left. The last two tests are made as one, as those of `valid`.
#[tactic(auto, using(crate::proofs::Parameters::of_wr0, crate::proofs::Parameters::from_timing_on))]
pub fn is_valid(p: u16) -> bool
    ensures { result ≡ valid_pending p }
{
    p < u16::from(Parameter::ATiming) || (u16::from(Parameter::ReadMask) % p == 0) | (p == B_BOTH)
}
