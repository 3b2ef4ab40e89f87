// The read mask: which of the seven registers is read next.
#![tactic(auto)]

ghost use Rattle.std.specs.Prelude.{◌≡◌, ◌<◌};
ghost use Rattle.std.specs.Int.Count.{count_trailing_zeros};
ghost use Rattle.rules.specs.Readback.{chosen};
ghost use Rattle.mask.specs.Ahead.{at_or_after};

// By the position: the registers at or after it, as bits of a mask. The seven entries are bytes of a number, that of position 0
// the lowest. An array would be built anew in memory at each call.
const AT_OR_AFTER: u64 = 0x40_60_70_78_7C_7E_7F;

// The entry of a position, below 256, so that the cast loses nothing.
fn at_or_after(position: u8) -> u8
    requires { position < 7 }
    ensures { result ≡ at_or_after position }
{
    ((AT_OR_AFTER >> (8 * position)) % 256) as u8
}

// The number of the lowest bit that is set; 8 where none is. It fits a byte, and the cast loses nothing.
fn lowest(bits: u8) -> u8
    ensures { result ≡ count_trailing_zeros 8 bits }
{
    bits.trailing_zeros() as u8
}

// The first register in the mask at or after the position, going round; position 7 counts as one where the mask has bit 7. With
// none in the mask: the position, or 6 from a position that no register has.
#[tactic(auto, using(crate::proofs::Ahead::found_ahead, crate::proofs::Ahead::found_behind, crate::proofs::Ahead::found_nowhere, crate::proofs::Ahead::found_at_7, crate::proofs::Ahead::found_beyond))]
pub fn first_register(mask: u8, position: u8) -> u8
    ensures { result ≡ chosen mask position }
{
    if position < 7 {
        let ahead = mask & at_or_after(position);
        let registers = mask % 128;
        if ahead != 0 {
            lowest(ahead)
        } else if registers != 0 {
            lowest(registers)
        } else {
            position
        }
    } else if position == 7 && 127 < mask {
        // No register has this position or one above it.
        7
    } else {
        // The search goes on at register 0 and ends at 6, whether or not the mask has that one.
        lowest((mask % 128) | 64)
    }
}
