// The device: power on, port writes, port reads, speed calls and grants of clocks. A device goes in by value and comes back
// with the answer; a refused call hands it back as it came.
#![tactic(auto)]

ghost use Rattle.std.specs.Prelude.{◌≡◌, ◌+◌, ◌*◌, ◌-◌, ◌<◌, ◌≤◌};
ghost use Rattle.rules.specs.Validity.{total, most64, valid};
ghost use Rattle.rules.specs.Floor.{cpu_floor};
ghost use Rattle.rules.specs.Buffers.{length_refusal, flat};
ghost use Rattle.rules.specs.World.{clocked};
ghost use Rattle.rules.specs.Refusals.{access_refusal, lent_refusal, grant_refusal};
ghost use Rattle.rules.specs.Calls.{write_reply, read_reply, speed_reply, grant};
ghost use Rattle.rules.specs.Parts.{with_slot};
ghost use Rattle.rules.specs.Slots.{new_slot};
ghost use Rattle.rules.specs.Clock.{cpu_clock, kind_at};
ghost use Rattle.rules.specs.WholeSlots.{slots_within, slots_passed};
ghost use Rattle.rules.specs.Facts.{Kept};
ghost use Rattle.rules.specs.Turns.{Passed};
ghost use Rattle.clocking.specs.Answers.{counted_within};
ghost use Rattle.clocking.specs.Lent.{buffers_of, SameLent};
ghost use Rattle.parts.specs.Numbers.{refusal_number};
ghost use Rattle.zxndma.specs.Answers.{device, device_at_power_on, write_answer, read_answer, speed_answer, system_of, lent_system, grant_answer};

use clocking::transfer::Lent;
use clocking::{clock, count, slots, span, stretch};
use parts::refusal::{self, Refusal};
use parts::{power_on, slot, valid, warning};
use registers::{readback, register};
use rules::{Clocks, Core, Kind, Slot};

// A zxnDMA: its core and its clock counts (document 01: books). Any content is a device; the calls refuse an invalid one.
#[repr(C)]
#[derive(Clone, Copy)]
pub struct Device {
    pub core: Core,
    pub clocks: Clocks,
}

// The answers hold refusal and warning by number, since no enum crosses to C, and each call's is a struct of its own, also where
// two have the same fields, since C names them.

// The answer to a port write.
#[repr(C)]
#[derive(Clone, Copy)]
pub struct WriteAnswer {
    // 0 for accepted, else the refusal number: 1, 2 or 3.
    pub number: u8,
    // 0 for none, and for a refused write. Otherwise the byte, which was accepted, holds a value that programs should not use: 1
    // a WR0 byte with AA of 10 or 11; 2 a timing byte, A's or B's, with bits 1-0 of 11; 3 a WR4 byte with a mode, bits 6-5, of
    // 00 or 11.
    pub warning: u8,
    // The device afterwards.
    pub device: Device,
}

// The answer to a port read.
#[repr(C)]
#[derive(Clone, Copy)]
pub struct ReadAnswer {
    // 0 for accepted, else the refusal number: 1, 2 or 3.
    pub number: u8,
    // The byte read, 0 for a refused read.
    pub byte: u8,
    // The device afterwards.
    pub device: Device,
}

// The answer to a speed call.
#[repr(C)]
#[derive(Clone, Copy)]
pub struct SpeedAnswer {
    // 0 for accepted, else the refusal number: 1 or 7.
    pub number: u8,
    // The device afterwards.
    pub device: Device,
}

// The answer to a grant.
#[repr(C)]
#[derive(Clone, Copy)]
pub struct GrantAnswer {
    // 0 for accepted, else the refusal number: 1, 4, 5 or 6.
    pub number: u8,
    // The device afterwards.
    pub device: Device,
}

impl Device {
    // A device as it is when power comes on.
    pub fn power_on() -> Self
        ensures { result ≡ device_at_power_on }
    {
        Device {
            core: power_on::core(),
            clocks: power_on::no_clocks(),
        }
    }

    // The device is valid: no call refuses it with 1.
    pub fn is_valid(self) -> bool
        ensures { result ≡ valid self.core (total self.clocks) }
    {
        valid::is_valid(self.core, self.clocks)
    }

    // A floor under the processor's time: among any so many clocks in a row, the next one or a later one being the first, one
    // at least is the processor's, as long as up to the last of them no port access and no speed call is accepted and nobody
    // changes the device otherwise. At most 65. 0, which claims nothing, if the device is not valid, or if the slot that runs or
    // the one that the registers start, enabled or not, is continuous or no longer than its bus time.
    pub fn cpu_floor(self) -> u32
        ensures { result ≡ cpu_floor self.core (total self.clocks) }
    {
        floor::cpu_floor(self.core, self.clocks)
    }

    // A byte is written to the DMA's port: the port number's low byte is 6B (zxn mode) or 0B (Zilog mode). Refused with 1, 2
    // or 3, and then there is no warning and nothing changes. Here and in a read each outcome makes its answer: with one made at the
    // end, as in `set_speed`, a write in place takes 91 instructions more, and a read by value 60.
    #[tactic(auto, unfolding(rules::specs::Calls::write_reply_over, rules::specs::Refusals::access_refusal_if, rules::specs::Calls::unless_refused, rules::specs::Choice::pick))]
    pub fn write(self, port: u16, byte: u8) -> WriteAnswer
        ensures { result ≡ write_answer (write_reply self.core self.clocks port byte) }
    {
        match refusal::access(self.is_valid(), slot::holds_bus(self.core), port) {
            Ok(()) => {
                let decoded = register::write(port, byte, self.core);
                WriteAnswer {
                    number: 0,
                    warning: warning::number_of(decoded.warning),
                    device: Device {
                        core: decoded.core,
                        clocks: self.clocks,
                    },
                }
            }
            Err(refusal) => WriteAnswer {
                number: refusal.into(),
                warning: warning::NONE,
                device: self,
            },
        }
    }

    // A byte is read from a port. Refused with 1, 2 or 3, and then the byte is 0 and nothing changes.
    #[tactic(auto, unfolding(rules::specs::Calls::read_reply_over, rules::specs::Refusals::access_refusal_if, rules::specs::Calls::unless_refused, rules::specs::Choice::pick))]
    pub fn read(self, port: u16) -> ReadAnswer
        ensures { result ≡ read_answer (read_reply self.core self.clocks port) }
    {
        match refusal::access(self.is_valid(), slot::holds_bus(self.core), port) {
            Ok(()) => {
                let given = readback::read(self.core);
                ReadAnswer {
                    number: 0,
                    byte: given.byte,
                    device: Device {
                        core: given.core,
                        clocks: self.clocks,
                    },
                }
            }
            Err(refusal) => ReadAnswer {
                number: refusal.into(),
                byte: 0,
                device: self,
            },
        }
    }

    // The speed of the processor becomes that of a code: 0 is 3.5 MHz, 1 is 7, 2 is 14 and 3 is 28. Whoever has the bus; a slot
    // that runs keeps its figures. Refused with 1 or 7, and then nothing changes.
    #[tactic(auto, unfolding(rules::specs::Calls::speed_reply_over, rules::specs::Refusals::speed_refusal_if, rules::specs::Calls::unless_refused, rules::specs::Choice::pick))]
    pub fn set_speed(mut self, code: u8) -> SpeedAnswer
        ensures { result ≡ speed_answer (speed_reply self.core self.clocks code) }
    {
        let number = match refusal::speed(self.is_valid(), code) {
            Ok(()) => {
                self.core.control.speed = code;
                0
            }
            Err(refusal) => refusal.into(),
        };
        SpeedAnswer {
            number,
            device: self,
        }
    }

    // That many clocks pass, and all of them are used. Memory and latches must be 65,536 bytes each. Refused with 1, 4, 5 or
    // 6, and then nothing changes.
    pub fn grant(self, memory: &mut [u8], latches: &mut [u8], clocks: u32) -> GrantAnswer
        ensures { grant_answer result memory.new latches.new ≡ grant flat (system_of self memory.old latches.old) clocks }
    {
        if let Err(refusal) = self.grantable(memory.len(), latches.len(), clocks) {
            return GrantAnswer {
                number: refusal.into(),
                device: self,
            };
        }
        let mut lent = Lent { memory, latches };
        let device = self.spend(&mut lent, clocks);
        GrantAnswer { number: 0, device }
    }

    // Whether a grant is accepted. The sum of a valid device's counts is within 64 bits, so that no sum wraps.
    fn grantable(self, memory: usize, latches: usize, clocks: u32) -> Result<(), Refusal>
        ensures { refusal_number result ≡ lent_refusal self.core (total self.clocks) (length_refusal memory) latches clocks }
    {
        if !self.is_valid() {
            return Err(Refusal::InvalidDevice);
        }
        if memory != 65536 {
            return Err(Refusal::MemoryLength);
        }
        if latches != 65536 {
            return Err(Refusal::LatchesLength);
        }
        let sum = self.clocks.bus + self.clocks.held + self.clocks.cpu;
        if u64::MAX - sum < u64::from(clocks) {
            return Err(Refusal::TooManyClocks);
        }
        Ok(())
    }

    // The clocks of an accepted grant: at once where no byte moves and no slot ends on them.
    fn spend(self, lent: &mut Lent, clocks: u32) -> Self
        requires { grant_refusal flat self.core (total self.clocks) (buffers_of lent.old) clocks ≡ 0 }
        ensures same { SameLent lent.old lent.new }
        ensures passed { lent_system result lent.new ≡ clocked flat clocks (lent_system self lent.old) }
    {
        // Early returns: one choice between three devices takes 15 to 23 instructions more in a grant that moves a byte.
        if !self.core.enabled {
            return self.idle(clocks);
        }
        if let Some(slot) = stretch::wait_within(clocks, self.core) {
            return self.wait(clocks, slot);
        }
        self.run(lent, clocks)
    }

    // Clocks of a disabled device.
    fn idle(mut self, clocks: u32) -> Self
        ensures { result ≡ device self.core (counted_within cpu_clock clocks self.clocks) }
    {
        self.clocks = count::add(Kind::Cpu, u64::from(clocks), self.clocks);
        self
    }

    // Clocks after which the slot is this one and nothing else has happened.
    fn wait(mut self, clocks: u32, slot: Slot) -> Self
        ensures { result ≡ device (with_slot slot self.core) (counted_within (kind_at slot.elapsed (with_slot slot self.core)) clocks self.clocks) }
    {
        self.core.slot = slot;
        let kind = clock::kind_at(slot.elapsed, self.core);
        self.clocks = count::add(kind, u64::from(clocks), self.clocks);
        self
    }

    // The clocks of an accepted grant, turn after turn.
    fn run(self, lent: &mut Lent, clocks: u32) -> Self
        requires { grant_refusal flat self.core (total self.clocks) (buffers_of lent.old) clocks ≡ 0 }
        ensures same { SameLent lent.old lent.new }
        ensures passed { lent_system result lent.new ≡ clocked flat clocks (lent_system self lent.old) }
    {
        let mut progress = Progress {
            device: self,
            left: clocks,
        };
        // It counts no turns: each takes as many clocks as it can.
        while 0 < progress.left {
            progress = progress.turn(lent);
        }
        progress.device
    }
}

// A device on the way through a grant, and the clocks left.
#[derive(Clone, Copy)]
struct Progress {
    device: Device,
    left: u32,
    ghost kept: { Kept device.core },
    ghost room: { total device.clocks + left ≤ most64 },
}

impl Progress {
    // Some of the clocks left pass: whole slots where there are any, else a span.
    fn turn(self, lent: &mut Lent) -> Self
        requires { 0 < self.left }
        ensures same { SameLent lent.old lent.new }
        ensures passed { Passed flat (lent_system self.device lent.old) (lent_system result.device lent.new) self.left result.left }
    {
        let slots = slots::slots_within(self.device.core, self.left);
        if 0 < slots {
            self.pass_slots(lent, slots)
        } else {
            self.pass_span(lent)
        }
    }

    // All the whole slots that the clocks left have room for.
    fn pass_slots(self, lent: &mut Lent, slots: u32) -> Self
        requires { (slots ≡ slots_within self.device.core self.left) × (0 < slots) }
        ensures same { SameLent lent.old lent.new }
        ensures passed { lent_system result.device lent.new ≡ slots_passed flat slots (lent_system self.device lent.old) }
        ensures left { result.left ≡ self.left - slots * (new_slot self.device.core).length }
    {
        let Device { mut core, clocks } = self.device;
        let slot = slot::new_slot(core);
        let spent = slots::clocks_of(slots, slot);
        let counted = slots::count_slots(slots, slot, clocks);
        let ports = slots::move_bytes(core, lent, slots);
        core.a = ports.a;
        core.b = ports.b;
        core.block.counter += slots;
        core.status.t = true;
        let next = clock::end_slot(core);
        // What is spent fits 32 bits, being at most what is left.
        Progress {
            device: Device {
                core: next,
                clocks: counted,
            },
            left: self.left - spent as u32,
        }
    }

    // The next span of the clocks left.
    fn pass_span(self, lent: &mut Lent) -> Self
        requires { 0 < self.left }
        ensures same { SameLent lent.old lent.new }
        ensures passed { Passed flat (lent_system self.device lent.old) (lent_system result.device lent.new) self.left result.left }
    {
        let span = span::next_span(self.device.core, self.left);
        lent.move_if(span.moves, span.from, span.to);
        Progress {
            device: Device {
                core: span.next,
                clocks: count::add(span.kind, u64::from(span.clocks), self.device.clocks),
            },
            left: self.left - span.clocks,
        }
    }
}
