// Counting clocks.
ghost use Rattle.std.specs.Prelude.{◌≡◌};
ghost use Rattle.clocking.specs.Answers.{added, counted_within};

use rules::{Clocks, Kind};

// A count with `n` more; where they would not fit it stays.
fn more(count: u64, n: u64) -> u64
    ensures { result ≡ added count n }
{
    count.checked_add(n).unwrap_or(count)
}

// `n` clocks of one kind added to its count, which stays where they would not fit.
#[tactic(auto, unfolding(crate::specs::Answers::counted_within))]
pub fn add(kind: Kind, n: u64, mut k: Clocks) -> Clocks
    ensures { result ≡ counted_within kind n k }
{
    match kind {
        Kind::Bus => k.bus = more(k.bus, n),
        Kind::Held => k.held = more(k.held, n),
        Kind::Cpu => k.cpu = more(k.cpu, n),
    }
    k
}
