// Validity of a core, part by part, and of a core with its clock counts. Most tests take single fields and are strict, with a few
// early exits between them: that keeps the whole small enough for a compiler to put it into each call.
ghost use Rattle.std.specs.Prelude.{◌≡◌, [], ◌∷◌, nat_le};
ghost use Rattle.rules.specs.Choice.{every};
ghost use Rattle.rules.specs.Validity.{prescaled_length, valid_slot, valid_core, total, most64, valid};

use crate::{block, pending, slot, speed};
use rules::{Clocks, Core};

// The longest bus time, two cycles of 4 at 3.5 MHz.
const MOST_BUS: u16 = 64;

// The longest slot, 255 units of 32 clocks.
const MOST_LENGTH: u16 = 8160;

// The cycle is 2 to 4 clocks.
#[tactic(auto, using(rules::proofs::Choice::strict))]
fn valid_cycle(cycle: u8) -> bool
    ensures { result ≡ every (nat_le 2 cycle ∷ nat_le cycle 4 ∷ []) }
{
    (2 <= cycle) & (cycle <= 4)
}

// The mask has seven bits, and the position is one of seven registers.
#[tactic(auto, using(rules::proofs::Choice::strict))]
fn valid_readback(mask: u8, position: u8) -> bool
    ensures { result ≡ every (nat_le mask 127 ∷ nat_le position 6 ∷ []) }
{
    (mask <= 127) & (position <= 6)
}

// A multiple of 32 from 32 to 8,160.
#[tactic(auto, using(rules::proofs::Choice::strict), unfolding(rules::specs::Validity::prescaled_length))]
fn prescaled_length(n: u16) -> bool
    ensures { result ≡ prescaled_length n }
{
    (32 <= n) & ((n <= MOST_LENGTH) & (n % 32 == 0))
}

// With no clock elapsed the slot's figures are 0 and continuous; with clocks elapsed the device is enabled, the bus time and the
// length are within their bounds, and the length is not reached.
#[tactic(auto, using(rules::proofs::Choice::strict), unfolding(rules::specs::Validity::valid_slot, rules::specs::Validity::resting_slot, rules::specs::Validity::running_slot, rules::specs::Validity::valid_length, rules::specs::Choice::pick))]
fn valid_slot(enabled: bool, elapsed: u16, bus: u16, length: u16, burst: bool) -> bool
    ensures { result ≡ valid_slot enabled (record { elapsed = elapsed; bus = bus; length = length; burst = burst }) }
{
    if elapsed == 0 {
        return (bus == 0) & ((length == 0) & !burst);
    }
    let valid_length = (length == bus) | (prescaled_length(length) & (bus <= length));
    enabled & ((4 <= bus) & ((bus <= MOST_BUS) & (valid_length & (elapsed < length))))
}

// The core is valid. An enabled device whose byte has not moved has not finished its block.
#[tactic(auto, using(crate::proofs::Validity::in_order, crate::proofs::Validity::progress), unfolding(rules::specs::Validity::valid_port, rules::specs::Validity::valid_readback))]
fn valid_core(c: Core) -> bool
    ensures { result ≡ valid_core c }
{
    let fields = valid_cycle(c.a.cycle)
        & (valid_cycle(c.b.cycle)
            & ((c.block.counter <= 65536)
                & (speed::is_speed(c.control.speed)
                    & valid_readback(c.readback.mask, c.readback.position))));
    fields
        && pending::is_valid(c.pending)
        && valid_slot(
            c.enabled,
            c.slot.elapsed,
            c.slot.bus,
            c.slot.length,
            c.slot.burst,
        )
        && !(c.enabled & (slot::is_unmoved(c.slot) & block::is_finished(c.block)))
}

// The sum of the clock counts fits 64 bits: each fits what those before it leave, and nothing wraps on the way.
fn fits(k: Clocks) -> bool
    ensures { result ≡ nat_le (total k) most64 }
{
    let room = u64::MAX - k.bus;
    k.held <= room && k.cpu <= room - k.held
}

// The core is valid and the sum of the clock counts fits.
#[tactic(auto, unfolding(rules::specs::Validity::valid_if, rules::specs::Choice::every, rules::specs::Choice::pick))]
pub fn is_valid(c: Core, k: Clocks) -> bool
    ensures { result ≡ valid c (total k) }
{
    valid_core(c) && fits(k)
}
