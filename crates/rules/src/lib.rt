// What the device holds, part by part, and what code says of its clocks. Every part is plain data, handed over by value; none
// is an enum, so that each can cross to C as it stands. `Place`, `Span` and `Kind` are no parts and do not cross. The rules over
// these types are the definitions in specs/.
#![tactic(auto)]

mod at_once;

pub use at_once::{Kind, Span};

// One of the device's two ports, A or B.
#[repr(C)]
#[derive(Clone, Copy)]
pub struct Port {
    // Starting address, 0 to 65,535: what Load and auto restart copy into the pointer.
    pub address: u16,
    // Address of the next byte, 0 to 65,535.
    pub pointer: u16,
    // The port is I/O; otherwise it is memory.
    pub io: bool,
    // Bits 5-4 of WR1 or WR2: 0 decrements the pointer, 1 increments it, any other value keeps it fixed.
    pub step: u8,
    // Cycle length in clocks at 28 MHz; valid from 2 to 4.
    pub cycle: u8,
}

// The block that is transferred.
#[repr(C)]
#[derive(Clone, Copy)]
pub struct Block {
    // Block length as written to WR0, 0 to 65,535.
    pub length: u16,
    // Bytes moved since the counter was last put to zero; valid up to 65,536.
    pub counter: u32,
    // Compatibility mode: Zilog, where a block is one byte longer than its length; otherwise zxn.
    pub zilog: bool,
}

// How the block is transferred.
#[repr(C)]
#[derive(Clone, Copy)]
pub struct Control {
    // From port A to port B; otherwise from B to A.
    pub forward: bool,
    // Least time for each byte in units of 32 clocks, 0 to 255; 0 is off.
    pub prescaler: u8,
    // Burst mode; otherwise continuous.
    pub burst: bool,
    // Auto restart at the end of the block.
    pub restart: bool,
    // Speed code of the processor: 0 is 3.5 MHz, 1 is 7, 2 is 14 and 3 is 28; valid up to 3. Each clock of a cycle takes 8, 4,
    // 2 or 1 clocks of 28 MHz.
    pub speed: u8,
}

// The two bits of the status byte that change.
#[repr(C)]
#[derive(Clone, Copy)]
pub struct Status {
    // Bit E: false once a block was found finished, until Reset or 8B.
    pub e: bool,
    // Bit T: true once a byte has been transferred, until Reset or 8B.
    pub t: bool,
}

// What the next port reads give.
#[repr(C)]
#[derive(Clone, Copy)]
pub struct Readback {
    // Read mask, bit k for register k; valid up to 127.
    pub mask: u8,
    // Read position (document 01: reading place), a register number; valid from 0 to 6.
    pub position: u8,
    // A status read is waiting: the next accepted read gives the status.
    pub waiting: bool,
}

// The running transfer slot (document 01: slot); in a valid core all 0 and continuous while no clock of one has elapsed.
#[repr(C)]
#[derive(Clone, Copy)]
pub struct Slot {
    // Clocks elapsed (document 01: spent), 0 to 8,159.
    pub elapsed: u16,
    // Bus time in clocks, 4 to 64.
    pub bus: u16,
    // Length in clocks: the bus time, or a multiple of 32 up to 8,160 that is not below it.
    pub length: u16,
    // The wait after the bus time is given to the processor.
    pub burst: bool,
}

// Where a byte lies: in memory or in the I/O latches.
#[repr(C)]
#[derive(Clone, Copy)]
pub struct Place {
    // Address, 0 to 65,535.
    pub address: u16,
    // In the latches; otherwise in memory.
    pub io: bool,
}

// The clock counts (document 01: the three books). Their sum fits 64 bits in a valid device.
#[repr(C)]
#[derive(Clone, Copy)]
pub struct Clocks {
    // Clocks spent on the bus.
    pub bus: u64,
    // Clocks of waiting with the bus held.
    pub held: u64,
    // Clocks left to the processor.
    pub cpu: u64,
}

// The device without its clock counts.
#[repr(C)]
#[derive(Clone, Copy)]
pub struct Core {
    pub a: Port,
    pub b: Port,
    pub block: Block,
    pub control: Control,
    pub status: Status,
    pub readback: Readback,
    // The pending parameters (document 01: awaited), a bit for each, the lowest set bit the next one. Bits 0 to 9 are A address
    // low and high, length low and high, A timing, B timing, prescaler, B address low and high, read mask; valid for any of
    // the first four, for any of the two of B's address, and for each of the others alone.
    pub pending: u16,
    // The device is enabled: a slot is running or about to begin.
    pub enabled: bool,
    pub slot: Slot,
}
