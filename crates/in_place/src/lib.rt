// The device's calls for hosts that keep their devices in a place of their own, for C and for Rust: each borrows a device,
// hands a copy of it to the call by value, and puts what that call hands back in its place. A refused call leaves the device as
// it was.
// Refusals and warnings are numbers here, since no enum crosses to C.
#![tactic(auto)]

ghost use Rattle.std.specs.Prelude.{◌≡◌};
ghost use Rattle.rules.specs.Buffers.{flat};
ghost use Rattle.rules.specs.Calls.{write_reply, read_reply, speed_reply, grant};
ghost use Rattle.zxndma.specs.Answers.{write_answer, read_answer, speed_answer, system_of, grant_answer};
ghost use Rattle.lent.specs.Answers.{as_write_answer, as_read_answer, as_speed_answer, as_grant_answer};

use lent::{Given, Written};
use zxndma::Device;

// A device is put in a place, core and clock counts one by one: what lies between them in memory has no meaning.
fn put_back(place: &mut Device, device: Device)
    ensures { place.new ≡ device }
{
    place.core = device.core;
    place.clocks = device.clocks;
}

// A byte is written to a port. Refused with 1, 2 or 3.
#[unsafe(no_mangle)]
pub extern "C" fn zxndma_write_in_place(device: &mut Device, port: u16, byte: u8) -> Written
    ensures { as_write_answer result device.new ≡ write_answer (write_reply device.old.core device.old.clocks port byte) }
{
    let answer = (*device).write(port, byte);
    put_back(device, answer.device);
    Written {
        number: answer.number,
        warning: answer.warning,
    }
}

// A byte is read from a port. Refused with 1, 2 or 3, and then the byte is 0.
#[unsafe(no_mangle)]
pub extern "C" fn zxndma_read_in_place(device: &mut Device, port: u16) -> Given
    ensures { as_read_answer result device.new ≡ read_answer (read_reply device.old.core device.old.clocks port) }
{
    let answer = (*device).read(port);
    put_back(device, answer.device);
    Given {
        number: answer.number,
        byte: answer.byte,
    }
}

// The speed of the processor becomes that of a code. Answers 0 for accepted, else 1 or 7.
#[unsafe(no_mangle)]
pub extern "C" fn zxndma_set_speed_in_place(device: &mut Device, code: u8) -> u8
    ensures { as_speed_answer result device.new ≡ speed_answer (speed_reply device.old.core device.old.clocks code) }
{
    let answer = (*device).set_speed(code);
    put_back(device, answer.device);
    answer.number
}

// That many clocks pass. Answers 0 for accepted, else 1, 4, 5 or 6, and then no byte of a buffer is written.
#[unsafe(no_mangle)]
pub extern "C" fn zxndma_grant_in_place(
    device: &mut Device,
    memory: &mut [u8],
    latches: &mut [u8],
    clocks: u32,
) -> u8
    ensures { grant_answer (as_grant_answer result device.new) memory.new latches.new ≡ grant flat (system_of device.old memory.old latches.old) clocks }
{
    let answer = (*device).grant(memory, latches, clocks);
    put_back(device, answer.device);
    answer.number
}
