// The bench program: a session from standard input, its lines to standard output. All it knows of sessions is the library's
// step; it holds the memory and the latches, reads and writes.
#![tactic(auto)]

ghost use Rattle.std.specs.Prelude.{◌+◌, ◌-◌, ◌≤◌, ◌≡◌, ◌↔◌, true, length};
ghost use Rattle.clocking.specs.Answers.{borrowed};
ghost use Rattle.session.specs.Steps.{outcome};
ghost use Rattle.session.specs.Numbers.{in_numbers, step_in_numbers};
ghost use Rattle.bench.specs.Buffered.{at_hand, kept};
ghost use Rattle.bench.specs.Failing.{PipeClosed};
ghost use Rattle.bench.specs.State.{state_at_start, state_of, worked_of};
ghost use Rattle.bench.specs.Working.{step_behind, gathered_in, left, left_by};
ghost use Rattle.bench.specs.Turning.{AreLines, Ran};
ghost use Rattle.bench.specs.Answered.{RefillAnswered, TurnAnswered};

use session::step::{Progress, Session, Step};
use std::io::{self, ErrorKind, Read, Write};

// Why the program stops before the session is over.
#[derive(Debug, Drop)]
enum Failure {
    Read(io::Error),
    Write(io::Error),
}

impl Failure {
    // Whether nobody reads the lines any more.
    fn is_closed_pipe(&self) -> bool
        ensures { (result ≡ true) ↔ PipeClosed self.now }
    {
        matches!(self, Failure::Write(why) if why.kind() == ErrorKind::BrokenPipe)
    }

    // Says on standard error what could not be done, and why. Where that cannot be said either, nobody hears of it. No `Display`:
    // its text would end in the system's words, of which no definition speaks.
    fn say<R: Eprint>(&self, rt: &R) {
        let _ = match self {
            Failure::Read(why) => eprintln!(rt; "bench: cannot read the session: {why}"),
            Failure::Write(why) => eprintln!(rt; "bench: cannot write the lines: {why}"),
        };
    }
}

// Where the program is. Memory and latches go beside it one by one, as `Session::step` takes them. Four methods and `keep` ask
// that `have` fits the input buffer: an invariant would need this struct in a file apart, since the definitions of this one name
// it, and literals without `..`, which is no plainer.
#[derive(Clone, Copy)]
struct State {
    session: Session,
    // The bytes at hand lie in the input buffer up to `have`, and those up to `at` are done. `Session::step`, which is public, takes
    // such a slice and a place in it.
    at: usize,
    have: usize,
    // No more bytes come.
    ended: bool,
}

// Where it is when the bytes at hand are worked through, and the progress of the last step: like a step, but `filled` is the length
// of all lines.
#[derive(Clone, Copy)]
struct Worked {
    session: Session,
    at: usize,
    filled: usize,
    progress: Progress,
}

// Moves the bytes from `at` up to `have` to the front of the buffer, and answers how many there are.
fn keep(input: &mut [u8], at: usize, have: usize) -> usize
    requires { have ≤ length input.old }
    ensures { (result ≡ have - at) × (input.new ≡ kept at have input.old) }
{
    let start = at.min(have);
    input.copy_within(start..have, 0);
    have - start
}

impl State {
    // A session before its first byte, and none at hand.
    fn start() -> Self
        ensures { state_of result ≡ state_at_start }
    {
        State {
            session: Session::start(),
            at: 0,
            have: 0,
            ended: false,
        }
    }

    // One step; its line goes behind those that have gathered, in the part of the output buffer that `Session::step` takes.
    fn step(
        self,
        input: &[u8],
        output: &mut [u8],
        filled: usize,
        memory: &mut [u8],
        latches: &mut [u8],
    ) -> Step
        requires { (self.have ≤ length input.now) × (filled ≤ length output.old) }
        ensures { (outcome (step_in_numbers result) output.new memory.new latches.new ≡ step_behind filled (in_numbers self.session) (at_hand self.have input.now) self.at self.ended output.old (borrowed memory.old latches.old)) × (filled + result.length ≤ length output.old) }
    {
        self.session.step(
            &input[..self.have],
            self.at,
            self.ended,
            &mut output[filled..],
            memory,
            latches,
        )
    }

    // Steps through the bytes at hand until more are needed, the output buffer is full or the session is over.
    fn work(self, input: &[u8], output: &mut [u8], memory: &mut [u8], latches: &mut [u8]) -> Worked
        requires { self.have ≤ length input.now }
        ensures { left (worked_of result) output.new memory.new latches.new ≡ left_by (gathered_in (state_of self) input.now output.old (borrowed memory.old latches.old)) }
    {
        let mut state = self;
        let mut filled = 0;
        loop {
            let done = state.step(input, output, filled, memory, latches);
            filled += done.length;
            if done.progress != Progress::GoesOn {
                return Worked {
                    session: done.session,
                    at: done.next,
                    filled,
                    progress: done.progress,
                };
            }
            state.session = done.session;
            state.at = done.next;
        }
    }

    // Writes the lines that have gathered. Where the program was and what was at hand say in the contract whose lines they are.
    fn flush<R: Print>(
        self,
        rt: &R,
        input: &[u8],
        output: &[u8],
        filled: usize,
    ) -> Result<(), Failure>
        requires { AreLines (state_of self) input.now output.now filled }
    {
        io::writer(rt)
            .write_all(&output[..filled])
            .map_err(Failure::Write)
    }

    // Reads more bytes behind those that are not done yet. No byte means that the input has ended.
    fn refill<R: Input>(self, rt: &R, input: &mut [u8]) -> Result<Self, Failure>
        requires { self.have ≤ length input.old }
        ensures { RefillAnswered (state_of self) input.old result input.new }
    {
        let kept = keep(input, self.at, self.have);
        let more = rt.reader().read(&mut input[kept..]).map_err(Failure::Read)?;
        Ok(State {
            at: 0,
            have: kept + more,
            ended: more == 0 || self.ended,
            ..self
        })
    }

    // Works through the bytes at hand, writes the lines, and reads more bytes where they are needed. The answer is where the
    // program goes on, `None` where the session is over.
    fn turn<R: Input + Print>(
        self,
        rt: &R,
        input: &mut [u8],
        output: &mut [u8],
        memory: &mut [u8],
        latches: &mut [u8],
    ) -> Result<Option<Self>, Failure>
        requires { self.have ≤ length input.old }
        ensures { TurnAnswered (state_of self) (gathered_in (state_of self) input.old output.old (borrowed memory.old latches.old)) input.old result input.new output.new (borrowed memory.new latches.new) }
    {
        let worked = self.work(input, output, memory, latches);
        self.flush(rt, input, output, worked.filled)?;
        let next = State {
            session: worked.session,
            at: worked.at,
            ..self
        };
        match worked.progress {
            Progress::IsOver(_) => Ok(None),
            Progress::Waits => Ok(Some(next.refill(rt, input)?)),
            Progress::GoesOn | Progress::NoRoom => Ok(Some(next)),
        }
    }
}

// A session from its first byte to its last line. Nothing says that the input ends, and a proved loop has to, so there are no
// more turns than a number that no run uses up.
fn run<R: Input + Print>(rt: &R, memory: &mut [u8], latches: &mut [u8]) -> Result<(), Failure>
    ensures { Ran (borrowed memory.old latches.old) (borrowed memory.new latches.new) }
{
    let mut input = [0u8; 65536];
    let mut output = [0u8; 65536];
    let mut state = State::start();
    for _ in 0..u64::MAX {
        let Some(next) = state.turn(rt, &mut input, &mut output, memory, latches)? else {
            return Ok(());
        };
        state = next;
    }
    Ok(())
}

fn main(rt: HostRuntime) {
    let mut memory = [0; 65536];
    let mut latches = [0; 65536];
    if let Err(failure) = run(&rt, &mut memory, &mut latches) {
        // Where nobody reads on, the program stops without a word.
        if !failure.is_closed_pipe() {
            failure.say(&rt);
        }
    }
}
