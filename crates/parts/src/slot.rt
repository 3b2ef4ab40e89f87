// The transfer slot: the one that begins or runs, at the speed that the device has, waiting in it, and who has the bus.
ghost use Rattle.std.specs.Prelude.{◌≡◌};
ghost use Rattle.rules.specs.Slots.{no_slot, waiting, bus_held, bus_time_of, slot_length, new_slot, slot_of, unmoved};

use crate::speed;
use rules::{Core, Slot};

// A slot of which no clock has elapsed.
pub fn no_slot() -> Slot
    ensures { result ≡ no_slot }
{
    Slot {
        elapsed: 0,
        bus: 0,
        length: 0,
        burst: false,
    }
}

// The bus time of a slot that begins.
#[tactic(auto, using(rules::proofs::Speed::factor_most, rules::proofs::Speed::bus_fits), unfolding(rules::specs::Slots::bus_time_of))]
fn bus_time(c: Core) -> u16
    ensures { result ≡ bus_time_of c.control.speed c.a.cycle c.b.cycle }
{
    speed::factor_of(c.control) * (u16::from(c.a.cycle) + u16::from(c.b.cycle))
}

// The length of a slot that begins.
#[tactic(auto, unfolding(rules::specs::Slots::slot_length, rules::specs::Slots::larger, rules::specs::Choice::pick))]
fn slot_length(prescaler: u8, bus: u16) -> u16
    ensures { result ≡ slot_length prescaler bus }
{
    bus.max(32 * u16::from(prescaler))
}

// The slot that the registers start.
pub fn new_slot(c: Core) -> Slot
    ensures { result ≡ new_slot c }
{
    let bus = bus_time(c);
    Slot {
        elapsed: 0,
        bus,
        length: slot_length(c.control.prescaler, bus),
        burst: c.control.burst,
    }
}

// The slot that runs, or that the next clock of an enabled device begins. It returns early: with an `else` a grant of a few bytes takes 8
// to 16 instructions more.
#[tactic(auto, unfolding(rules::specs::Slots::slot_of, rules::specs::Choice::pick))]
pub fn slot_of(c: Core) -> Slot
    ensures { result ≡ slot_of c }
{
    if c.slot.elapsed == 0 {
        return new_slot(c);
    }
    c.slot
}

// The device waits in a burst slot.
#[tactic(auto, unfolding(rules::specs::Slots::waiting, rules::specs::Choice::every, rules::specs::Choice::pick))]
fn is_waiting(s: Slot) -> bool
    ensures { result ≡ waiting s }
{
    s.burst && s.bus <= s.elapsed && s.elapsed < s.length
}

// The device holds the bus.
#[tactic(auto, using(rules::proofs::Choice::strict), unfolding(rules::specs::Slots::bus_held))]
pub fn holds_bus(c: Core) -> bool
    ensures { result ≡ bus_held c }
{
    c.enabled && !is_waiting(c.slot)
}

// The byte of the slot has not moved yet.
#[tactic(auto, using(rules::proofs::Choice::strict), unfolding(rules::specs::Slots::unmoved))]
pub fn is_unmoved(s: Slot) -> bool
    ensures { result ≡ unmoved s }
{
    s.elapsed == 0 || s.elapsed < s.bus
}
