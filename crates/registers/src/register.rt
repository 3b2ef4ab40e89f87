// What a byte written to the port does.
ghost use Rattle.std.specs.Prelude.{◌≡◌};
ghost use Rattle.rules.specs.Registers.{register, parameter, carried_out_as, effect, written};
ghost use Rattle.rules.specs.Warnings.{warning as warning_of};
ghost use Rattle.parts.specs.Numbers.{bit_of, parameter_number, register_number, warning_number};

use crate::command;
use parts::pending::{self, Parameter};
use parts::selection::{self, Register};
use parts::warning::{self, Warning};
use parts::{bytes, part, port, refusal};
use rules::Core;

// A byte decoded: its warning, if it has one, and the core after it. A type for this and a read's answer, `Done<T>`, would be no
// plainer: its field would be called neither warning nor byte.
#[derive(Clone, Copy)]
pub struct Decoded {
    pub warning: Option<Warning>,
    pub core: Core,
}

// The register that a byte selects is written; a byte that selects none changes nothing.
#[tactic(auto, unfolding(rules::specs::Registers::register, rules::specs::Registers::wr3, rules::specs::Choice::first_of, rules::specs::Choice::pick))]
fn write_register(selected: Option<Register>, byte: u8, mut c: Core) -> Core
    ensures { result ≡ register (register_number selected) byte c }
{
    match selected {
        Some(Register::Wr0) => c.control.forward = byte / 4 % 2 == 1,
        Some(Register::Wr1) => c.a = port::configure(byte, c.a),
        Some(Register::Wr2) => c.b = port::configure(byte, c.b),
        Some(Register::Wr3) if byte / 64 % 2 == 1 => c = command::enabled(c),
        Some(Register::Wr3) => c = part::disabled(c),
        Some(Register::Wr4) => c.control.burst = byte / 32 % 4 == 2,
        Some(Register::Wr5) => c.control.restart = byte / 32 % 2 == 1,
        Some(Register::Wr6) => c = command::obey(byte, c),
        None => {}
    }
    c
}

// A parameter takes effect. Each byte of a number leaves the other as it was; the read mask drops bit 7, and reading goes to the
// start.
#[tactic(auto, unfolding(rules::specs::Registers::parameter, rules::specs::Choice::first_of, rules::specs::Choice::pick))]
fn write_parameter(which: Parameter, byte: u8, mut c: Core) -> Core
    ensures { result ≡ parameter (bit_of which) byte c }
{
    match which {
        Parameter::ALow => c.a.address = bytes::with_low(byte, c.a.address),
        Parameter::AHigh => c.a.address = bytes::with_high(byte, c.a.address),
        Parameter::LengthLow => c.block.length = bytes::with_low(byte, c.block.length),
        Parameter::LengthHigh => c.block.length = bytes::with_high(byte, c.block.length),
        Parameter::ATiming => c.a = port::time(byte, c.a),
        Parameter::BTiming => c.b = port::time(byte, c.b),
        Parameter::Prescaler => c.control.prescaler = byte,
        Parameter::BLow => c.b.address = bytes::with_low(byte, c.b.address),
        Parameter::BHigh => c.b.address = bytes::with_high(byte, c.b.address),
        Parameter::ReadMask => {
            c.readback.mask = byte % 128;
            c.readback.position = 0;
        }
    }
    c
}

// A byte is carried out, as this parameter or, where it is none, by the register that it selects.
#[tactic(auto, unfolding(rules::specs::Registers::carried_out_as, rules::specs::Choice::pick))]
fn carry_out(which: Option<Parameter>, byte: u8, c: Core) -> Core
    ensures { result ≡ carried_out_as (parameter_number which) byte c }
{
    match which {
        Some(parameter) => write_parameter(parameter, byte, c),
        None => write_register(selection::register_of(byte), byte, c),
    }
}

// A byte takes effect: it is carried out, and what is pending after it is pending. Its warning goes by what was pending.
#[tactic(auto, unfolding(rules::specs::Registers::effect_over))]
fn take_effect(byte: u8, mut c: Core) -> Decoded
    ensures warning { warning_number result.warning ≡ warning_of c.pending byte }
    ensures core { result.core ≡ effect byte c }
{
    let which = pending::next_of(c.pending);
    let pending = pending::after(which, byte, c.pending);
    c = carry_out(which, byte, c);
    c.pending = pending;
    Decoded {
        warning: warning::of(which, byte),
        core: c,
    }
}

// An accepted write, after which the compatibility mode is the one that the port stands for. Its warning goes by what was
// pending before it.
pub fn write(port: u16, byte: u8, mut c: Core) -> Decoded
    ensures warning { warning_number result.warning ≡ warning_of c.pending byte }
    ensures core { result.core ≡ written port byte c }
{
    c.block.zilog = port % 256 == refusal::ZILOG_PORT;
    take_effect(byte, c)
}
