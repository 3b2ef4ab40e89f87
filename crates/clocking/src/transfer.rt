// A byte moves between two places of memory and latches.
ghost use Rattle.std.specs.Prelude.{◌≡◌};
ghost use Rattle.rules.specs.Buffers.{flat, byte_at, transfer};
ghost use Rattle.rules.specs.World.{buffers_after};
ghost use Rattle.clocking.specs.Lent.{buffers_of, SameLent, AsLong};

use parts::bytes;
use rules::Place;

// The memory and the I/O latches that a caller lends. That the same two slices are still lent is a fact of before and after,
// of which no invariant speaks: each function that moves bytes promises `SameLent`, and the two that other crates call `AsLong`.
#[derive(Drop)]
pub struct Lent<'a> {
    pub memory: &'a mut [u8],
    pub latches: &'a mut [u8],
}

impl Lent<'_> {
    // The byte at a place.
    #[tactic(auto, unfolding(rules::specs::Buffers::byte_at, rules::specs::Choice::pick))]
    fn load(&self, p: Place) -> u8
        ensures { result ≡ byte_at flat p (buffers_of self.now) }
    {
        let at = usize::from(p.address);
        if p.io {
            bytes::byte_at(self.latches, at)
        } else {
            bytes::byte_at(self.memory, at)
        }
    }

    // One byte moves from one place to the other.
    #[tactic(auto, unfolding(rules::specs::Buffers::put, rules::specs::Choice::pick))]
    pub(crate) fn move_byte(&mut self, from: Place, to: Place)
        ensures same { SameLent self.old self.new }
        ensures moved { buffers_of self.new ≡ transfer flat from to (buffers_of self.old) }
    {
        let byte = self.load(from);
        let at = usize::from(to.address);
        if to.io {
            bytes::put(self.latches, at, byte);
        } else {
            bytes::put(self.memory, at, byte);
        }
    }

    // The byte moves where `moves` holds: a flag beside the two places, as `buffers_after` takes them.
    #[tactic(auto, unfolding(rules::specs::World::buffers_after, rules::specs::Choice::pick))]
    pub fn move_if(&mut self, moves: bool, from: Place, to: Place)
        ensures same { SameLent self.old self.new }
        ensures long { AsLong (buffers_of self.new) (buffers_of self.old) }
        ensures moved { buffers_of self.new ≡ buffers_after flat moves from to (buffers_of self.old) }
    {
        if moves {
            self.move_byte(from, to);
        }
    }
}
