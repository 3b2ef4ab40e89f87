// What is done to a port, once for A and B.
ghost use Rattle.std.specs.Prelude.{◌≡◌, ◌+◌, ◌%◌};
ghost use Rattle.rules.specs.Parts.{with_pointer};
ghost use Rattle.rules.specs.Ports.{configured, cycle_of, timed, reset_timing, loaded, stepped, advanced, stride};

use rules::Port;

// WR1 and WR2: memory or I/O, and the pointer's step.
pub fn configure(byte: u8, mut p: Port) -> Port
    ensures { result ≡ configured byte p }
{
    p.io = byte / 8 % 2 == 1;
    p.step = byte / 16 % 4;
    p
}

// The cycle that a timing byte asks for.
#[tactic(auto, unfolding(rules::specs::Ports::cycle_of, rules::specs::Choice::pick))]
fn cycle_of(byte: u8) -> u8
    ensures { result ≡ cycle_of byte }
{
    match byte % 4 {
        1 => 3,
        2 => 2,
        _ => 4,
    }
}

// A timing byte.
pub fn time(byte: u8, mut p: Port) -> Port
    ensures { result ≡ timed byte p }
{
    p.cycle = cycle_of(byte);
    p
}

// The cycle after a reset of the timing.
pub fn reset_timing(mut p: Port) -> Port
    ensures { result ≡ reset_timing p }
{
    p.cycle = 4;
    p
}

// The pointer takes the starting address.
pub fn load(mut p: Port) -> Port
    ensures { result ≡ loaded p }
{
    p.pointer = p.address;
    p
}

// The address after a byte: one less, one more or the same, modulo 65,536. The step is a number, since it is a field that C has.
#[tactic(auto, unfolding(rules::specs::Ports::stepped, rules::specs::Choice::pick))]
fn step_pointer(step: u8, pointer: u16) -> u16
    ensures { result ≡ stepped step pointer }
{
    match step {
        0 => pointer.wrapping_sub(1),
        1 => pointer.wrapping_add(1),
        _ => pointer,
    }
}

// The port with its pointer stepped.
pub fn advance(mut p: Port) -> Port
    ensures { result ≡ advanced p }
{
    p.pointer = step_pointer(p.step, p.pointer);
    p
}

// What a step code adds to an address modulo 65,536: the address after a byte at 0. A loop that adds it has no branch on the step.
#[tactic(auto, unfolding(rules::specs::Ports::stepped, rules::specs::Ports::stride, rules::specs::Choice::pick))]
pub fn stride(step: u8) -> u16
    ensures { result ≡ stride step }
{
    step_pointer(step, 0)
}

// The port with its pointer further by a stride.
pub fn go_on(mut p: Port, by: u16) -> Port
    ensures { result ≡ with_pointer ((p.pointer + by) % 65536) p }
{
    p.pointer = p.pointer.wrapping_add(by);
    p
}
