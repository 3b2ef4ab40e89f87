// The rest of a slot's bus time or of its wait, and clocks that end before it does.
ghost use Rattle.std.specs.Prelude.{◌≡◌};
ghost use Rattle.rules.specs.Slots.{slot_of};
ghost use Rattle.rules.specs.Stretches.{slot_rest, stretch_rest};
ghost use Rattle.clocking.specs.Answers.{wait_of, wait_answer};

use parts::slot;
use rules::{Core, Slot};

// The clocks left of a slot, one at least.
#[tactic(auto, using(crate::proofs::Stretches::rest_max))]
fn slot_rest(s: Slot) -> u32
    ensures { result ≡ slot_rest s }
{
    u32::from(s.length.saturating_sub(s.elapsed).max(1))
}

// The clocks left of a slot's present stretch.
#[tactic(auto, using(crate::proofs::Stretches::least_min), unfolding(rules::specs::Stretches::stretch_rest, rules::specs::Choice::pick))]
pub(crate) fn stretch_rest(s: Slot) -> u32
    ensures { result ≡ stretch_rest s }
{
    let rest = slot_rest(s);
    if s.elapsed < s.bus {
        let moving = u32::from(s.bus - s.elapsed);
        moving.min(rest)
    } else {
        rest
    }
}

// Of an enabled core: the slot that runs or begins after `n` clocks more, if they end before its present stretch does. On such
// clocks no byte moves, and the slot does not end.
pub fn wait_within(n: u32, c: Core) -> Option<Slot>
    ensures { wait_of (slot_of c) result ≡ wait_answer n c }
{
    let mut slot = slot::slot_of(c);
    let rest = stretch_rest(slot);
    // Strict `&`, here and in clock.rt and slots.rt: one test, and no jump between two.
    if (0 < n) & (n < rest) {
        // `n` fits 16 bits, since it is less than the clocks left of the slot.
        slot.elapsed += n as u16;
        Some(slot)
    } else {
        None
    }
}
