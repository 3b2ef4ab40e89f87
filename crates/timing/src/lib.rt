// For the timing: the search for the next register in the mask by a loop, beside the library's own. Both have one promise, and
// one function goes over lists with either.
#![tactic(auto)]

ghost use Rattle.std.specs.Prelude.{◌≡◌, ◌%◌, ◌^◌};
ghost use Rattle.rules.specs.Bytes.{bit};
ghost use Rattle.rules.specs.Readback.{chosen};
ghost use Rattle.timing.specs.Sums.{FindsChosen, sum};

use registers::readback::{first_in_mask, next_register};

// Register `k` is in the mask. Two tests, as the loop has had them: in one expression the loop takes less time, and it is what the
// search is held against.
#[tactic(auto, using(rules::proofs::Bytes::bit_above))]
fn in_mask(mask: u8, k: u8) -> bool
    ensures { result ≡ bit k mask }
{
    if 7 < k {
        return false;
    }
    (mask >> k) % 2 == 1
}

// The first register in the mask at or after the position: seven places are tried, and the loop yields the register. It is a
// `loop` that counts by hand, since no `for` yields a value.
#[tactic(auto, using(rules::proofs::Reading::seek_end, rules::proofs::Reading::seek_here, rules::proofs::Reading::seek_on))]
fn first_by_loop(mask: u8, position: u8) -> u8
    ensures { result ≡ chosen mask position }
{
    let mut k = position;
    let mut left: u8 = 7;
    loop {
        if left == 0 || in_mask(mask, k) {
            break k;
        }
        k = next_register(k);
        left -= 1;
    }
}

// Searches at every pair of a list, a mask in the high byte and a position in the low one. The registers found are summed,
// modulo 2 to the power of 64.
fn sum_found<F: Fn(u8, u8) -> u8>(pairs: &[u16], search: F) -> u64
    requires answers { F.IsAlwaysCallable search }
    requires finds { FindsChosen (F.post search) }
    ensures { result ≡ sum pairs.now % 2 ^ 64 }
{
    let mut sum: u64 = 0;
    for pair in pairs {
        let [mask, position] = pair.to_be_bytes();
        sum = sum.wrapping_add(u64::from(search(mask, position)));
    }
    sum
}

// Searches by the loop, or by the library. C chooses by a flag.
#[unsafe(no_mangle)]
pub extern "C" fn timing_sum(pairs: &[u16], looping: bool) -> u64
    ensures { result ≡ sum pairs.now % 2 ^ 64 }
{
    if looping {
        sum_found(pairs, first_by_loop)
    } else {
        sum_found(pairs, first_in_mask)
    }
}
