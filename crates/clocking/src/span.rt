// The span of clocks that a core answers.
ghost use Rattle.std.specs.Prelude.{◌≡◌, false};
ghost use Rattle.rules.specs.Clock.{cpu_clock};
ghost use Rattle.rules.specs.Spans.{span, IsLongestSpan};
ghost use Rattle.clocking.specs.Answers.{room_for, MayRun};

use crate::{clock, place, stretch};
use parts::slot;
use rules::{Core, Kind, Span};

// The clocks that a span may take of a budget.
#[tactic(auto, unfolding(crate::specs::Answers::room_for, rules::specs::Choice::pick))]
fn room_for(c: Core, budget: u32) -> u32
    ensures { result ≡ room_for c budget }
{
    if c.block.counter < u32::MAX && c.slot.elapsed < u16::MAX {
        budget
    } else {
        0
    }
}

// Clocks of the processor, which leave the core as it is.
fn cpu_span(clocks: u32, c: Core) -> Span
    ensures { result ≡ span cpu_clock clocks false c c }
{
    Span {
        kind: Kind::Cpu,
        clocks,
        moves: false,
        from: place::source_of(c),
        to: place::destination_of(c),
        next: c,
    }
}

// The next span of a slot that runs or begins.
fn slot_span(mut c: Core, budget: u32) -> Span
    requires { MayRun c budget }
    ensures { IsLongestSpan c budget result }
{
    let slot = slot::slot_of(c);
    let rest = stretch::stretch_rest(slot);
    let clocks = budget.min(rest);
    // A stretch's clocks fit 16 bits, as its slot's length does.
    let last = c.slot.elapsed + clocks as u16;
    c.slot = slot;
    let tick = clock::slot_clock(last, c);
    Span {
        kind: tick.kind,
        clocks,
        moves: tick.moves,
        from: place::source_of(c),
        to: place::destination_of(c),
        next: tick.next,
    }
}

// The next span of a core's clocks within a budget, the longest within one slot: the rest of its bus time or of its wait,
// or all clocks of a disabled device. Of a core whose counter or slot is at the end of its type, as no valid core's is, none: a
// span of 0 clocks, as of a budget of 0.
pub fn next_span(c: Core, budget: u32) -> Span
    ensures { IsLongestSpan c (room_for c budget) result }
{
    let room = room_for(c, budget);
    // Early returns, here and in clock.rt: one choice between answers with a core takes up to 8 instructions more in a grant.
    if room == 0 {
        return cpu_span(0, c);
    }
    if !c.enabled {
        return cpu_span(room, c);
    }
    slot_span(c, room)
}
