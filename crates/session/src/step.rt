// A session, a step at a time.
ghost use Rattle.std.specs.Prelude.{◌≡◌, ◌≤◌, ℕ, List, length};
ghost use Rattle.clocking.specs.Answers.{borrowed};
ghost use Rattle.zxndma.specs.declared.Device.{Device};
ghost use Rattle.lines.specs.Lines.{room};
ghost use Rattle.session.specs.Steps.{session_at_start, at_version, at_record, in_long, in_phase, version_step, long_step, record_step, step_of, said, outcome};
ghost use Rattle.session.specs.Phases.{numbered};
ghost use Rattle.session.specs.Numbers.{in_numbers, step_in_numbers, written, unwritten, written_beside, last_by};

use crate::effect;
use lines::Line;
use records::{Fault, Found, Record};
use zxndma::Device;

// Where a session is.
#[derive(Clone, Copy, Debug, PartialEq, Eq)]
pub enum Phase {
    // The version byte comes next.
    Version,
    // A record comes next.
    Records,
    // It is within a record that is too long for any kind, with so many of its bytes still to come.
    Long { left: usize },
    // It is over.
    Over,
    // Any of these by its number, as `of_number` reads it, with so many bytes still to come, whatever they are: for who holds a
    // session in numbers. A step that hands the session back hands it back so.
    Numbered { number: u8, left: usize },
}

impl Phase {
    // For who has a phase by its number, as the definitions have it, and so many bytes still to come: 0, 1 and 2 in the order above,
    // and over from 3 on. The bytes matter in phase 2 alone.
    #[tactic(auto, unfolding(rules::specs::Choice::pick))]
    pub fn of_number(number: u8, left: usize) -> Self
        ensures { (device : Device) → in_numbers (record { phase = result; device = device }) ≡ numbered (in_phase number left device) }
    {
        match number {
            0 => Phase::Version,
            1 => Phase::Records,
            2 => Phase::Long { left },
            _ => Phase::Over,
        }
    }
}

// A session on its way.
#[derive(Clone, Copy)]
pub struct Session {
    pub phase: Phase,
    pub device: Device,
}

// How a step goes on.
#[derive(Clone, Copy, Debug, PartialEq, Eq)]
pub enum Progress {
    // It took bytes, and wrote a line or none.
    GoesOn,
    // It needs more bytes.
    Waits,
    // The session is over: this step wrote its last line, with the fault if there was one, or an earlier step did.
    IsOver(Option<Fault>),
    // The slice for the line is too short; nothing was done.
    NoRoom,
}

// The answer of a step.
#[derive(Clone, Copy)]
pub struct Step {
    pub progress: Progress,
    // The place behind the bytes taken.
    pub next: usize,
    // The length of the line written, 0 for none: callers add it up, whether there was one or not.
    pub length: usize,
    pub session: Session,
}

// A step before its line is written: its line is here, where a `Step` has the line's length.
#[derive(Clone, Copy)]
struct Advance {
    progress: Progress,
    next: usize,
    session: Session,
    line: Option<Line>,
}

impl Advance {
    // A step without a line.
    #[tactic(auto, unfolding(rules::specs::Buffers::placed))]
    fn silent(progress: Progress, next: usize, session: Session) -> Self
        ensures { (out : List ℕ) → written result out ≡ unwritten progress next session out }
    {
        Advance {
            progress,
            next,
            session,
            line: None,
        }
    }

    // The last step of a session: its line says the fault, or the clock counts where there is none.
    fn last(fault: Option<Fault>, next: usize, device: Device) -> Self
        ensures { (out : List ℕ) → written result out ≡ last_by fault next device out }
    {
        let line = match fault {
            Some(fault) => Line::Fault(fault),
            None => Line::Counts(device.clocks),
        };
        Advance {
            progress: Progress::IsOver(fault),
            next,
            session: Session {
                phase: Phase::Over,
                device,
            },
            line: Some(line),
        }
    }

    // Its line is put at the front of a slice.
    #[tactic(auto, using(crate::proofs::Steps::line_put, crate::proofs::Steps::no_line_put))]
    fn write(self, out: &mut [u8]) -> Step
        requires { room ≤ length out.old }
        ensures { said (step_in_numbers result) out.new ≡ written self out.old }
    {
        let length = match self.line {
            Some(line) => line.put(out),
            None => 0,
        };
        Step {
            progress: self.progress,
            next: self.next,
            length,
            session: self.session,
        }
    }
}

impl Session {
    // A session before its first byte: a device at power-on.
    pub fn start() -> Self
        ensures { in_numbers result ≡ session_at_start }
    {
        Session {
            phase: Phase::Version,
            device: Device::power_on(),
        }
    }

    // The version byte.
    #[tactic(auto, unfolding(rules::specs::Choice::pick, crate::specs::Steps::version_step))]
    fn version_step(self, input: &[u8], place: usize, ended: bool) -> Advance
        ensures { (out : List ℕ) → written result out ≡ version_step (in_numbers self) input.now place ended out }
    {
        let on = Session {
            phase: Phase::Records,
            ..self
        };
        match input.get(place) {
            Some(1) => Advance::silent(Progress::GoesOn, place + 1, on),
            Some(_) => Advance::last(Some(Fault::NoVersion), place + 1, self.device),
            None if ended => Advance::last(Some(Fault::NoVersion), place, self.device),
            None => Advance::silent(Progress::Waits, place, self),
        }
    }

    // Within a record that is too long for any kind, with so many bytes still to come.
    #[tactic(auto, unfolding(rules::specs::Choice::pick, crate::specs::Steps::long_step))]
    fn long_step(self, left: usize, input: &[u8], place: usize, ended: bool) -> Advance
        ensures { (out : List ℕ) → written result out ≡ long_step (in_phase in_long left self.device) input.now place ended out }
    {
        let rest = input.len().saturating_sub(place);
        if left <= rest {
            return Advance::last(Some(Fault::Wrong), place + left, self.device);
        }
        if ended {
            return Advance::last(Some(Fault::Cut), place + rest, self.device);
        }
        let phase = Phase::Long { left: left - rest };
        Advance::silent(Progress::Waits, place + rest, Session { phase, ..self })
    }

    // A record, or the length of one that is too long for any kind.
    #[tactic(auto, using(records::proofs::Standing::long_there), unfolding(rules::specs::Choice::pick, crate::specs::Steps::by_record, crate::specs::Steps::record_step))]
    fn record_step(
        self,
        input: &[u8],
        place: usize,
        ended: bool,
        memory: &mut [u8],
        latches: &mut [u8],
    ) -> Advance
        ensures { (out : List ℕ) → written_beside result memory.new latches.new out ≡ record_step (in_numbers self) input.now place ended out (borrowed memory.old latches.old) }
    {
        if let Some(left) = records::long_length(input, place) {
            let phase = Phase::Long { left };
            return Advance::silent(Progress::GoesOn, place + 2, Session { phase, ..self });
        }
        match records::record_at(input, place, ended) {
            Ok(Found::More) => Advance::silent(Progress::Waits, place, self),
            Ok(Found::End) => Advance::last(None, place, self.device),
            Ok(Found::Whole { found, next }) => {
                let done = effect::carry_out(found, self.device, memory, latches);
                Advance {
                    progress: Progress::GoesOn,
                    next,
                    session: Session {
                        phase: Phase::Records,
                        device: done.device,
                    },
                    line: Some(done.line),
                }
            }
            Err(fault) => Advance::last(Some(fault), place, self.device),
        }
    }

    // One step, by the phase, before its line is written.
    #[tactic(auto, unfolding(rules::specs::Choice::pick, crate::specs::Steps::step_of))]
    fn advance(
        self,
        input: &[u8],
        place: usize,
        ended: bool,
        memory: &mut [u8],
        latches: &mut [u8],
    ) -> Advance
        ensures { (out : List ℕ) → room ≤ length out → written_beside result memory.new latches.new out ≡ step_of (in_numbers self) input.now place ended out (borrowed memory.old latches.old) }
    {
        match self.phase {
            Phase::Version | Phase::Numbered { number: 0, .. } => {
                self.version_step(input, place, ended)
            }
            Phase::Records | Phase::Numbered { number: 1, .. } => {
                self.record_step(input, place, ended, memory, latches)
            }
            Phase::Long { left } | Phase::Numbered { number: 2, left } => {
                self.long_step(left, input, place, ended)
            }
            Phase::Over | Phase::Numbered { .. } => {
                Advance::silent(Progress::IsOver(None), place, self)
            }
        }
    }

    // One step from a place of the bytes at hand, where `ended` says that no byte comes after them. At most one line is
    // put at the front of `out`, and the rest of it stays; with fewer than 72 bytes there the step answers NoRoom and
    // does nothing. Bytes, place and end come one by one, since who reads in pieces keeps them apart; memory and latches do as
    // `Device::grant` takes them.
    #[tactic(auto, using(crate::proofs::Steps::step_fits), unfolding(rules::specs::Choice::pick, crate::specs::Steps::step_of))]
    pub fn step(
        self,
        input: &[u8],
        place: usize,
        ended: bool,
        out: &mut [u8],
        memory: &mut [u8],
        latches: &mut [u8],
    ) -> Step
        ensures { (outcome (step_in_numbers result) out.new memory.new latches.new ≡ step_of (in_numbers self) input.now place ended out.old (borrowed memory.old latches.old)) × (result.length ≤ length out.old) }
    {
        if out.len() < lines::ROOM {
            return Step {
                progress: Progress::NoRoom,
                next: place,
                length: 0,
                session: self,
            };
        }
        self.advance(input, place, ended, memory, latches)
            .write(out)
    }
}
