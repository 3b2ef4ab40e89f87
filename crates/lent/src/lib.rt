// What the calls in place answer beside the device, which stays where it is. This crate has no function: its definitions put answer
// and device together, and its theorems say what the promises of these calls come to. Refusals and warnings are numbers here, since
// no enum crosses to C.
#![tactic(auto)]

// What a port write answers beside the device.
#[repr(C)]
#[derive(Clone, Copy)]
pub struct Written {
    // 0 for accepted, else the refusal number: 1, 2 or 3.
    pub number: u8,
    // The warning of the byte, as in the answer by value; 0 for none, and for a refused write.
    pub warning: u8,
}

// What a port read answers beside the device.
#[repr(C)]
#[derive(Clone, Copy)]
pub struct Given {
    // 0 for accepted, else the refusal number: 1, 2 or 3.
    pub number: u8,
    // The byte read, 0 for a refused read.
    pub byte: u8,
}
