// One clock of a slot.
ghost use Rattle.std.specs.Prelude.{◌≡◌, ◌<◌, [], ◌∷◌, ltb};
ghost use Rattle.rules.specs.Choice.{every};
ghost use Rattle.rules.specs.Parts.{with_slot};
ghost use Rattle.rules.specs.Blocks.{block_count};
ghost use Rattle.rules.specs.Slots.{no_slot};
ghost use Rattle.rules.specs.Clock.{stopped, restarted, moved_at, wait_kind, kind_at, slot_end, clock_end, slot_clock};
ghost use Rattle.clocking.specs.Answers.{tick};

use parts::{block, part, port, slot};
use registers::command;
use rules::{Core, Kind};

// A clock: its kind, whether a byte moves on it, and the core after it, which is there either way.
#[derive(Clone, Copy)]
pub struct Tick {
    pub kind: Kind,
    pub moves: bool,
    pub next: Core,
}

// The core with the byte moved where it moves on the slot's `n`-th clock. The counter has room: a valid one is at most 65,536.
#[tactic(auto, unfolding(rules::specs::Clock::moved_at, rules::specs::Choice::pick))]
fn moved_at(n: u16, mut c: Core) -> Core
    requires { c.block.counter < 4294967295 }
    ensures { result ≡ moved_at n c }
{
    if n != c.slot.bus {
        return c;
    }
    c.a = port::advance(c.a);
    c.b = port::advance(c.b);
    c.block.counter += 1;
    c.status.t = true;
    c
}

// The kind of a slot's waiting clocks.
#[tactic(auto, unfolding(rules::specs::Choice::pick))]
pub(crate) fn wait_kind(burst: bool) -> Kind
    ensures { result ≡ wait_kind burst }
{
    if burst { Kind::Cpu } else { Kind::Held }
}

// The kind of the slot's `n`-th clock.
#[tactic(auto, unfolding(rules::specs::Clock::kind_at, rules::specs::Choice::pick))]
pub fn kind_at(n: u16, c: Core) -> Kind
    ensures { result ≡ kind_at n c }
{
    if n <= c.slot.bus {
        Kind::Bus
    } else {
        wait_kind(c.slot.burst)
    }
}

// No clock of a slot has elapsed.
fn slot_cleared(mut c: Core) -> Core
    ensures { result ≡ with_slot no_slot c }
{
    c.slot = slot::no_slot();
    c
}

// The block has ended and the device is disabled.
fn stop(c: Core) -> Core
    ensures { result ≡ stopped c }
{
    part::disabled(command::block_ended(c))
}

// The block has ended and begins again.
fn restart(c: Core) -> Core
    ensures { result ≡ restarted c }
{
    slot_cleared(command::loaded(command::block_ended(c)))
}

// Auto restart, with a block of some bytes.
#[tactic(auto, using(rules::proofs::Choice::strict))]
fn restarts(c: Core) -> bool
    ensures { result ≡ every (c.control.restart ∷ ltb 0 (block_count c.block) ∷ []) }
{
    let count = block::block_count(c.block);
    c.control.restart & (0 < count)
}

// The end of a slot.
#[tactic(auto, unfolding(rules::specs::Clock::slot_end, rules::specs::Choice::pick))]
pub fn end_slot(c: Core) -> Core
    ensures { result ≡ (slot_end c).core }
{
    let finished = block::is_finished(c.block);
    if !finished {
        return slot_cleared(c);
    }
    if restarts(c) {
        return restart(c);
    }
    stop(c)
}

// The end of the slot's `n`-th clock.
#[tactic(auto, unfolding(rules::specs::Clock::clock_end, rules::specs::Choice::pick))]
fn end_clock(n: u16, mut c: Core) -> Core
    ensures { result ≡ (clock_end n c).core }
{
    if n < c.slot.length {
        c.slot.elapsed = n;
        return c;
    }
    end_slot(c)
}

// The `n`-th clock of the running slot.
#[tactic(auto, unfolding(rules::specs::Clock::slot_clock))]
pub(crate) fn slot_clock(n: u16, c: Core) -> Tick
    requires { c.block.counter < 4294967295 }
    ensures { result ≡ tick (slot_clock n c) }
{
    let kind = kind_at(n, c);
    let moves = n == c.slot.bus;
    let next = end_clock(n, moved_at(n, c));
    Tick { kind, moves, next }
}
