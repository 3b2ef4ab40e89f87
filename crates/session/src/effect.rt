// What a record does to device, memory and latches.
ghost use Rattle.std.specs.Prelude.{◌≡◌, length};
ghost use Rattle.rules.specs.Entries.{poked};
ghost use Rattle.zxndma.specs.Answers.{system_of};
ghost use Rattle.records.specs.Found.{record_before};
ghost use Rattle.lines.specs.Line.{bytes_of};
ghost use Rattle.session.specs.Effects.{pokes};
ghost use Rattle.session.specs.Steps.{answer_line};
ghost use Rattle.session.specs.Numbers.{effect_found};

use lines::Line;
use parts::bytes;
use records::Record;
use zxndma::Device;

// The line of what a record is answered, and the device afterwards.
#[derive(Clone, Copy)]
pub struct Effect {
    pub line: Line,
    pub device: Device,
}

// These bytes are put into memory from an address on, which is counted beside them since it wraps, as no range does.
#[tactic(auto, using(crate::proofs::Effects::poking_more, crate::proofs::Effects::poking_end))]
fn poke(given: &[u8], memory: &mut [u8], address: u16)
    ensures { memory.new ≡ poked (pokes (length given.now) given.now 0 address) memory.old }
{
    let mut to = address;
    for byte in given {
        bytes::put(memory, usize::from(to), *byte);
        to = to.wrapping_add(1);
    }
}

// A record is carried out. It takes memory and latches one by one, as `Device::grant` does.
#[tactic(auto, using(crate::proofs::Effects::write_said, crate::proofs::Effects::read_said))]
pub fn carry_out(found: Record<'_>, device: Device, memory: &mut [u8], latches: &mut [u8]) -> Effect
    ensures line { bytes_of result.line ≡ answer_line (record_before 0 found.entry) (effect_found found.entry (system_of device memory.old latches.old)).answered }
    ensures system { system_of result.device memory.new latches.new ≡ (effect_found found.entry (system_of device memory.old latches.old)).system }
{
    match found {
        Record::Write { port, byte } => {
            let answer = device.write(port, byte);
            Effect {
                line: Line::Write {
                    number: answer.number,
                    warning: answer.warning,
                },
                device: answer.device,
            }
        }
        Record::Read { port } => {
            let answer = device.read(port);
            Effect {
                line: Line::Read {
                    number: answer.number,
                    byte: answer.byte,
                },
                device: answer.device,
            }
        }
        Record::Grant { clocks } => {
            let answer = device.grant(memory, latches, clocks);
            Effect {
                line: Line::Grant {
                    number: answer.number,
                },
                device: answer.device,
            }
        }
        Record::Memory { address, bytes } => {
            poke(bytes, memory, address);
            Effect {
                line: Line::Memory { number: 0 },
                device,
            }
        }
    }
}
