// A floor under the processor's time: a number of clocks in a row of which the processor has one at least.
#![tactic(auto)]

ghost use Rattle.std.specs.Prelude.{◌≡◌};
ghost use Rattle.rules.specs.Validity.{total};
ghost use Rattle.rules.specs.Floor.{shared, all_shared, floor_of, cpu_floor};

use parts::{slot, valid};
use rules::{Clocks, Core, Slot};

// The processor has clocks of the slot.
#[tactic(auto, using(rules::proofs::Choice::strict), unfolding(rules::specs::Floor::shared))]
fn is_shared(s: Slot) -> bool
    ensures { result ≡ shared s }
{
    s.burst && s.bus < s.length
}

// The processor has clocks of the slot that the registers start, and of the one that runs, or else begins.
#[tactic(auto, using(rules::proofs::Choice::strict), unfolding(rules::specs::Floor::all_shared))]
fn all_shared(c: Core) -> bool
    ensures { result ≡ all_shared c }
{
    let new = slot::new_slot(c);
    let next = slot::slot_of(c);
    is_shared(new) && is_shared(next)
}

// One more than the larger of their bus times.
#[tactic(auto, unfolding(rules::specs::Floor::floor_of, rules::specs::Slots::larger, rules::specs::Choice::pick))]
fn floor_of(c: Core) -> u32
    ensures { result ≡ floor_of c }
{
    let new = slot::new_slot(c);
    let next = slot::slot_of(c);
    u32::from(new.bus.max(next.bus)) + 1
}

// Among any so many clocks in a row, the next one or a later one being the first, one at least is the processor's, as long as up
// to the last of them no port access and no speed call is accepted and nobody changes the device otherwise; at most 65. 0, which
// claims nothing, if the device is not valid, or if the slot that runs or the one that the registers start, enabled or not, is
// continuous or no longer than its bus time. A number, since C has it.
#[tactic(auto, unfolding(rules::specs::Floor::cpu_floor, rules::specs::Choice::pick))]
pub fn cpu_floor(c: Core, k: Clocks) -> u32
    ensures { result ≡ cpu_floor c (total k) }
{
    if valid::is_valid(c, k) && all_shared(c) {
        floor_of(c)
    } else {
        0
    }
}
