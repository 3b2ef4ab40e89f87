// WR6, the commands.
ghost use Rattle.std.specs.Prelude.{◌≡◌};
ghost use Rattle.rules.specs.Commands.{block_ended, enable, reset, load, command};

use parts::{block, part, port, power_on};
use rules::Core;

// E becomes 0.
pub fn block_ended(mut c: Core) -> Core
    ensures { result ≡ block_ended c }
{
    c.status.e = false;
    c
}

// Enable: nothing if already enabled, nothing but E if the block is finished.
#[tactic(auto, unfolding(rules::specs::Commands::enable, rules::specs::Choice::pick))]
pub fn enabled(mut c: Core) -> Core
    ensures { result ≡ enable c }
{
    if c.enabled {
        return c;
    }
    if block::is_finished(c.block) {
        return block_ended(c);
    }
    c.enabled = true;
    c
}

// Reset: disabled, both cycles 4, prescaler 0, no auto restart, status 3A, and reading as at power-on. The speed stays.
fn reset_all(mut c: Core) -> Core
    ensures { result ≡ reset c }
{
    c.a = port::reset_timing(c.a);
    c.b = port::reset_timing(c.b);
    c.control.prescaler = 0;
    c.control.restart = false;
    c.status = power_on::status_at_reset();
    c.readback = power_on::readback_at_reset();
    part::disabled(c)
}

// Load: the pointers take the starting addresses, counter 0.
pub fn loaded(mut c: Core) -> Core
    ensures { result ≡ load c }
{
    c.a = port::load(c.a);
    c.b = port::load(c.b);
    c.block.counter = 0;
    c
}

// A command; a byte that is none changes nothing. The bytes are literals: each stands here once, beside what it does, and an enum of
// them would state each twice.
#[tactic(auto, unfolding(rules::specs::Commands::command, rules::specs::Commands::reading_command, rules::specs::Choice::first_of, rules::specs::Choice::pick))]
pub fn obey(byte: u8, mut c: Core) -> Core
    ensures { result ≡ command byte c }
{
    match byte {
        // Reset.
        0xC3 => c = reset_all(c),

        // The timing of A, and that of B, as after a reset.
        0xC7 => c.a = port::reset_timing(c.a),
        0xCB => c.b = port::reset_timing(c.b),

        // Load, and Continue.
        0xCF => c = loaded(c),
        0xD3 => c.block.counter = 0,

        // Enable, and Disable.
        0x87 => c = enabled(c),
        0x83 => c = part::disabled(c),

        // The status byte becomes 3A.
        0x8B => c.status = power_on::status_at_reset(),

        // The next accepted read gives the status.
        0xBF => c.readback.waiting = true,

        // Reading starts again.
        0xA7 => c.readback.position = 0,
        _ => {}
    }
    c
}
