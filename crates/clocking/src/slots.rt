// Whole slots at once.
ghost use Rattle.std.specs.Prelude.{◌≡◌, ◌*◌};
ghost use Rattle.rules.specs.WholeSlots.{at_slot_start, slots_within};
ghost use Rattle.clocking.specs.Answers.{slots_counted_within, BytesMoved};
ghost use Rattle.clocking.specs.Lent.{buffers_of, SameLent, AsLong};

use crate::transfer::Lent;
use crate::{clock, count, place};
use parts::{block, port, slot};
use rules::{Clocks, Core, Kind, Port, Slot};

// At the start of a slot of some clocks.
#[tactic(auto, using(rules::proofs::Choice::strict), unfolding(rules::specs::WholeSlots::at_slot_start))]
fn at_slot_start(c: Core) -> bool
    ensures { result ≡ at_slot_start c }
{
    let slot = slot::new_slot(c);
    c.enabled & ((c.slot.elapsed == 0) & (0 < slot.length))
}

// The whole slots for which a budget has the clocks and the block the bytes; none but at the start of one.
pub fn slots_within(c: Core, budget: u32) -> u32
    ensures { result ≡ slots_within c budget }
{
    if at_slot_start(c) {
        let slot = slot::new_slot(c);
        let fitting = budget / u32::from(slot.length);
        let left = block::bytes_left(c.block);
        fitting.min(left)
    } else {
        0
    }
}

// The two ports.
#[derive(Clone, Copy)]
pub struct Ports {
    pub a: Port,
    pub b: Port,
}

// Bytes are moved, `k` of them one after the other; the ports after them.
pub fn move_bytes(c: Core, lent: &mut Lent, k: u32) -> Ports
    ensures same { SameLent lent.old lent.new }
    ensures long { AsLong (buffers_of lent.new) (buffers_of lent.old) }
    ensures moved { BytesMoved c k (buffers_of lent.old) (buffers_of lent.new) result.a result.b }
{
    let mut a = c.a;
    let mut b = c.b;
    let a_stride = port::stride(c.a.step);
    let b_stride = port::stride(c.b.step);
    for _ in 0..k {
        let from = place::place_in(c.control.forward, a, b);
        let to = place::place_in(c.control.forward, b, a);
        lent.move_byte(from, to);
        a = port::go_on(a, a_stride);
        b = port::go_on(b, b_stride);
    }
    Ports { a, b }
}

// A product of a number of slots and a slot's clocks, in the 64 bits that it fits.
fn times(k: u32, n: u16) -> u64
    ensures { result ≡ k * n }
{
    u64::from(k) * u64::from(n)
}

// The clocks of `k` slots.
pub fn clocks_of(k: u32, s: Slot) -> u64
    ensures { result ≡ k * s.length }
{
    times(k, s.length)
}

// The clocks of `k` slots counted: the bus time, and the wait behind it.
pub fn count_slots(k: u32, s: Slot, x: Clocks) -> Clocks
    ensures { result ≡ slots_counted_within k s x }
{
    let bus = times(k, s.bus);
    let wait = times(k, s.length.saturating_sub(s.bus));
    let counted = count::add(Kind::Bus, bus, x);
    count::add(clock::wait_kind(s.burst), wait, counted)
}
