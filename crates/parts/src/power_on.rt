// The parts as they are when power comes on, and those that a reset puts back.
ghost use Rattle.std.specs.Prelude.{◌≡◌};
ghost use Rattle.rules.specs.PowerOn.{port_at_power_on, status_at_reset, readback_at_reset, power_on, no_clocks};

use crate::{pending, slot, speed};
use rules::{Block, Clocks, Control, Core, Port, Readback, Status};

// Memory, increment, cycle 4, address and pointer 0.
fn port() -> Port
    ensures { result ≡ port_at_power_on }
{
    Port {
        address: 0,
        pointer: 0,
        io: false,
        step: 1,
        cycle: 4,
    }
}

// Status 3A: E set, T clear.
pub fn status_at_reset() -> Status
    ensures { result ≡ status_at_reset }
{
    Status { e: true, t: false }
}

// Mask 7F, reading from the start, no status read waiting.
pub fn readback_at_reset() -> Readback
    ensures { result ≡ readback_at_reset }
{
    Readback {
        mask: 127,
        position: 0,
        waiting: false,
    }
}

// A to B, prescaler off, continuous, no auto restart, 28 MHz, zxn mode, disabled, nothing pending.
pub fn core() -> Core
    ensures { result ≡ power_on }
{
    Core {
        a: port(),
        b: port(),
        block: Block {
            length: 0,
            counter: 0,
            zilog: false,
        },
        control: Control {
            forward: true,
            prescaler: 0,
            burst: false,
            restart: false,
            speed: speed::FULL,
        },
        status: status_at_reset(),
        readback: readback_at_reset(),
        pending: pending::NOTHING,
        enabled: false,
        slot: slot::no_slot(),
    }
}

// No clock has passed.
pub fn no_clocks() -> Clocks
    ensures { result ≡ no_clocks }
{
    Clocks {
        bus: 0,
        held: 0,
        cpu: 0,
    }
}
