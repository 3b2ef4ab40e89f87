// Where the next byte lies, and where it goes.
ghost use Rattle.std.specs.Prelude.{◌≡◌};
ghost use Rattle.rules.specs.Choice.{pick};
ghost use Rattle.rules.specs.Buffers.{place_of, source, destination};

use rules::{Core, Place, Port};

// Where a port's next byte lies.
fn place_of(p: Port) -> Place
    ensures { result ≡ place_of p }
{
    Place {
        address: p.pointer,
        io: p.io,
    }
}

// Where the next byte of one of two ports lies. Source and destination take it in turn: both as one pair take up to 18
// instructions more in a grant.
#[tactic(auto, unfolding(rules::specs::Choice::pick))]
pub(crate) fn place_in(first: bool, p: Port, q: Port) -> Place
    ensures { result ≡ pick first (place_of p) (place_of q) }
{
    if first { place_of(p) } else { place_of(q) }
}

// Where the next byte is read.
#[tactic(auto, unfolding(rules::specs::Buffers::source))]
pub(crate) fn source_of(c: Core) -> Place
    ensures { result ≡ source c }
{
    place_in(c.control.forward, c.a, c.b)
}

// Where the next byte is written.
#[tactic(auto, unfolding(rules::specs::Buffers::destination))]
pub(crate) fn destination_of(c: Core) -> Place
    ensures { result ≡ destination c }
{
    place_in(c.control.forward, c.b, c.a)
}
