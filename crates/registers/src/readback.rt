// What a port read gives.
ghost use Rattle.std.specs.Prelude.{◌≡◌};
ghost use Rattle.rules.specs.Bytes.{low_byte, high_byte};
ghost use Rattle.rules.specs.Readback.{status_byte, register_byte, after, chosen, read_byte};
ghost use Rattle.registers.specs.Answers.{given};

use rules::{Core, Status};

// The answer to an accepted read: the byte, and the core after it.
#[derive(Clone, Copy)]
pub struct Given {
    pub byte: u8,
    pub core: Core,
}

// The status byte, 00E1101T, written out as its bits are.
#[tactic(auto, unfolding(rules::specs::Readback::status_byte, rules::specs::Choice::pick))]
fn status_byte(s: Status) -> u8
    ensures { result ≡ status_byte s }
{
    0x1A + 32 * u8::from(s.e) + u8::from(s.t)
}

// Register `k`, low before high; the counter is read modulo 65,536. It is a number, since C has the read position as one, and each
// number has an answer.
#[tactic(auto, unfolding(rules::specs::Readback::register_byte, rules::specs::Choice::first_of, rules::specs::Choice::pick))]
fn register_byte(k: u8, c: Core) -> u8
    ensures { result ≡ register_byte k c }
{
    match k {
        0 => status_byte(c.status),
        1 => c.block.counter.to_le_bytes()[0],
        2 => c.block.counter.to_le_bytes()[1],
        3 => c.a.pointer.to_le_bytes()[0],
        4 => c.a.pointer.to_le_bytes()[1],
        5 => c.b.pointer.to_le_bytes()[0],
        _ => c.b.pointer.to_le_bytes()[1],
    }
}

// The register after `k`, going round.
#[tactic(auto, unfolding(rules::specs::Readback::after, rules::specs::Choice::pick))]
pub fn next_register(k: u8) -> u8
    ensures { result ≡ after k }
{
    if k < 6 { k + 1 } else { 0 }
}

// The first register in the mask at or after the position: `mask::first_register`, under the name that the promise has here. Mask and
// position are two, since it holds for every mask and every position, and C's `Readback` has a flag besides.
pub fn first_in_mask(mask: u8, position: u8) -> u8
    ensures { result ≡ chosen mask position }
{
    mask::first_register(mask, position)
}

// An accepted read.
#[tactic(auto, unfolding(rules::specs::Readback::read_byte, rules::specs::Choice::first_of, rules::specs::Choice::pick))]
pub fn read(mut c: Core) -> Given
    ensures { result ≡ given (read_byte c) }
{
    let byte = status_byte(c.status);
    if c.readback.waiting || c.readback.mask == 0 {
        c.readback.waiting = false;
        return Given { byte, core: c };
    }
    let k = first_in_mask(c.readback.mask, c.readback.position);
    let byte = register_byte(k, c);
    c.readback.position = next_register(k);
    Given { byte, core: c }
}
