// The processor's speed: how many clocks of 28 MHz a clock of a cycle takes.
ghost use Rattle.std.specs.Prelude.{◌≡◌};
ghost use Rattle.rules.specs.Speed.{is_speed, factor};

use rules::Control;

// The speed code at power on, 28 MHz, which is the largest. A code is a number, since it is a field that C has.
pub const FULL: u8 = 3;

// By the speed code: 3.5, 7, 14 and 28 MHz.
const FACTORS: [u16; 4] = [8, 4, 2, 1];

// A speed code.
pub fn is_speed(code: u8) -> bool
    ensures { result ≡ is_speed code }
{
    code <= FULL
}

// The factor of the code that the device holds. One above 3, as no valid device holds, counts as 28 MHz.
#[tactic(auto, unfolding(rules::specs::Speed::factor, rules::specs::Choice::pick))]
pub fn factor_of(k: Control) -> u16
    ensures { result ≡ factor k.speed }
{
    if is_speed(k.speed) {
        FACTORS[usize::from(k.speed)]
    } else {
        1
    }
}
