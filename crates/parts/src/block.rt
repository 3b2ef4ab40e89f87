// The block count, the bytes left, and whether a block is finished.
ghost use Rattle.std.specs.Prelude.{◌≡◌};
ghost use Rattle.rules.specs.Blocks.{block_count, bytes_left, finished};

use rules::Block;

// The bytes of a block.
#[tactic(auto, unfolding(rules::specs::Blocks::block_count, rules::specs::Choice::pick))]
pub fn block_count(b: Block) -> u32
    ensures { result ≡ block_count b }
{
    u32::from(b.length) + u32::from(b.zilog)
}

// The bytes that the counter is short of the block count, by a wrapping difference: where a slot begins in a valid device the
// counter is below the block count, and nothing wraps.
pub fn bytes_left(b: Block) -> u32
    ensures { result ≡ bytes_left b }
{
    block_count(b).wrapping_sub(b.counter)
}

// The counter is at or above the block count.
#[tactic(auto, unfolding(rules::specs::Blocks::finished))]
pub fn is_finished(b: Block) -> bool
    ensures { result ≡ finished b }
{
    block_count(b) <= b.counter
}
