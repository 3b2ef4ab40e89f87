// The device's calls by value, for C and for Rust. Each hands what it is given to the function that it wraps, and answers the same.
// Refusals and warnings are numbers here, since no enum crosses to C.
#![tactic(auto)]

ghost use Rattle.std.specs.Prelude.{◌≡◌};
ghost use Rattle.rules.specs.Validity.{valid, total};
ghost use Rattle.rules.specs.Floor.{cpu_floor};
ghost use Rattle.rules.specs.Buffers.{flat};
ghost use Rattle.rules.specs.Calls.{write_reply, read_reply, speed_reply, grant};
ghost use Rattle.zxndma.specs.Answers.{device_at_power_on, write_answer, read_answer, speed_answer, system_of, grant_answer};

use zxndma::{Device, GrantAnswer, ReadAnswer, SpeedAnswer, WriteAnswer};

// A device as it is when power comes on.
#[unsafe(no_mangle)]
pub extern "C" fn zxndma_power_on() -> Device
    ensures { result ≡ device_at_power_on }
{
    Device::power_on()
}

// A byte is written to a port.
#[unsafe(no_mangle)]
pub extern "C" fn zxndma_write(device: Device, port: u16, byte: u8) -> WriteAnswer
    ensures { result ≡ write_answer (write_reply device.core device.clocks port byte) }
{
    device.write(port, byte)
}

// A byte is read from a port.
#[unsafe(no_mangle)]
pub extern "C" fn zxndma_read(device: Device, port: u16) -> ReadAnswer
    ensures { result ≡ read_answer (read_reply device.core device.clocks port) }
{
    device.read(port)
}

// The speed of the processor becomes that of a code.
#[unsafe(no_mangle)]
pub extern "C" fn zxndma_set_speed(device: Device, code: u8) -> SpeedAnswer
    ensures { result ≡ speed_answer (speed_reply device.core device.clocks code) }
{
    device.set_speed(code)
}

// That many clocks pass.
#[unsafe(no_mangle)]
pub extern "C" fn zxndma_grant(
    device: Device,
    memory: &mut [u8],
    latches: &mut [u8],
    clocks: u32,
) -> GrantAnswer
    ensures { grant_answer result memory.new latches.new ≡ grant flat (system_of device memory.old latches.old) clocks }
{
    device.grant(memory, latches, clocks)
}

// The device is valid: no call refuses it with 1.
#[unsafe(no_mangle)]
pub extern "C" fn zxndma_valid(device: Device) -> bool
    ensures { result ≡ valid device.core (total device.clocks) }
{
    device.is_valid()
}

// A floor under the processor's time: among any so many clocks in a row one at least is the processor's, as long as up to the
// last of them no port access and no speed call is accepted and nobody changes the device otherwise; at most 65. 0 claims nothing.
#[unsafe(no_mangle)]
pub extern "C" fn zxndma_cpu_floor(device: Device) -> u32
    ensures { result ≡ cpu_floor device.core (total device.clocks) }
{
    device.cpu_floor()
}
