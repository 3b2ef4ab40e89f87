// The span of clocks that code takes at once, and the kinds of clocks. None of this crosses to C.
ghost use Rattle.std.specs.Prelude.{◌≡◌};
ghost use Rattle.rules.specs.Spans.{kind_code, kind_of};

use crate::{Core, Place};

// What a clock is spent on.
#[derive(Clone, Copy, Debug, PartialEq, Eq)]
pub enum Kind {
    // On the bus.
    Bus = 0,
    // Waiting with the bus held.
    Held = 1,
    // Left to the processor.
    Cpu = 2,
}

impl From<Kind> for u8 {
    ghost from_gives = { λ kind number. number ≡ kind_code kind };

    fn from(kind: Kind) -> u8 {
        kind as u8
    }
}

// For who has a kind by number. Every byte stands for one: 0 for the bus, 1 for waiting with the bus held, any other one for the
// processor.
impl From<u8> for Kind {
    ghost from_gives = { λ number kind. kind ≡ kind_of number };

    fn from(number: u8) -> Self {
        match number {
            0 => Kind::Bus,
            1 => Kind::Held,
            _ => Kind::Cpu,
        }
    }
}

// A span of clocks of one kind, on whose last clock a byte may move.
#[derive(Clone, Copy)]
pub struct Span {
    // Of which kind.
    pub kind: Kind,
    // How many clocks.
    pub clocks: u32,
    // A byte moves on the last clock, from one place to the other. No Option, since `IsSpan` promises the two places also where
    // no byte moves.
    pub moves: bool,
    pub from: Place,
    pub to: Place,
    // The core after the last clock.
    pub next: Core,
}
