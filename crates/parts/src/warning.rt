// Warnings: a byte holds a value that programs should not use. It acts all the same; the warning is answered beside.
ghost use Rattle.std.specs.Prelude.{◌≡◌};
ghost use Rattle.rules.specs.Warnings.{warning_as};
ghost use Rattle.parts.specs.Numbers.{code_of, parameter_number, warning_number};

use crate::pending::Parameter;
use crate::selection::{self, Register};

// C's number for no warning, which in C is a number like the others.
pub const NONE: u8 = 0;

// The warnings, and C's number for each.
#[derive(Clone, Copy, Debug, PartialEq, Eq)]
pub enum Warning {
    // A WR0 byte with AA of 10 or 11.
    Operation = 1,
    // A timing byte, A's or B's, with bits 1-0 of 11.
    Timing = 2,
    // A WR4 byte with a mode of 00 or 11.
    Mode = 3,
}

impl From<Warning> for u8 {
    ghost from_gives = { λ warning number. number ≡ code_of warning };

    fn from(warning: Warning) -> u8 {
        warning as u8
    }
}

// C's number for a warning or none.
pub fn number_of(warning: Option<Warning>) -> u8
    ensures { result ≡ warning_number warning }
{
    warning.map_or(NONE, u8::from)
}

// The warning of a byte as this parameter.
#[tactic(auto, unfolding(rules::specs::Warnings::warning_as, rules::specs::Choice::first_of, rules::specs::Choice::every, rules::specs::Choice::any, rules::specs::Choice::pick))]
fn of_parameter(parameter: Parameter, byte: u8) -> Option<Warning>
    ensures { warning_number result ≡ warning_as (parameter_number (Some parameter)) byte }
{
    match parameter {
        Parameter::ATiming | Parameter::BTiming if byte % 4 == 3 => Some(Warning::Timing),
        _ => None,
    }
}

// The warning of a byte by the register that it selects.
#[tactic(auto, unfolding(rules::specs::Warnings::warning_as, rules::specs::Choice::first_of, rules::specs::Choice::every, rules::specs::Choice::any, rules::specs::Choice::pick))]
fn of_register(byte: u8) -> Option<Warning>
    ensures { warning_number result ≡ warning_as (parameter_number None) byte }
{
    match selection::register_of(byte) {
        Some(Register::Wr0) if matches!(byte % 4, 2 | 3) => Some(Warning::Operation),
        Some(Register::Wr4) if matches!(byte / 32 % 4, 0 | 3) => Some(Warning::Mode),
        _ => None,
    }
}

// The warning of a byte, by what is next.
pub fn of(parameter: Option<Parameter>, byte: u8) -> Option<Warning>
    ensures { warning_number result ≡ warning_as (parameter_number parameter) byte }
{
    match parameter {
        Some(parameter) => of_parameter(parameter, byte),
        None => of_register(byte),
    }
}

// The same for who has what is next by its number, as the definitions have it, and wants C's number: 0 for none, and else the
// parameter's bit. It takes every number; one that is no parameter's has no warning.
#[tactic(auto, unfolding(rules::specs::Warnings::warning_as, rules::specs::Choice::first_of, rules::specs::Choice::every, rules::specs::Choice::any, rules::specs::Choice::pick))]
pub fn of_number(parameter: u16, byte: u8) -> u8
    ensures { result ≡ warning_as parameter byte }
{
    match parameter {
        0 => number_of(of(None, byte)),
        16 => number_of(of(Some(Parameter::ATiming), byte)),
        32 => number_of(of(Some(Parameter::BTiming), byte)),
        _ => NONE,
    }
}
