// The records of a session's bytes.
#![tactic(auto)]

ghost use Rattle.std.specs.Prelude.{◌≡◌, ◌+◌, ◌*◌, ◌≤◌, ◌<◌, length, unwrap_or, IfSome, MatchOption};
ghost use Rattle.records.specs.BigEndian.{word};
ghost use Rattle.records.specs.Records.{record_at, long_length};
ghost use Rattle.records.specs.Found.{fault_number, standing, Reads, StandBehindLength, EndsIn, Lends};

// A record, by what it asks for.
#[derive(Clone, Copy)]
pub enum Record<'a> {
    Write { port: u16, byte: u8 },
    Read { port: u16 },
    Grant { clocks: u32 },
    // Bytes that are put into the memory from an address on.
    Memory { address: u16, bytes: &'a [u8] },
}

// What stands at a place of a session's bytes, if it is no fault.
#[derive(Clone, Copy)]
pub enum Found<'a> {
    // More bytes are needed.
    More,
    // No record: the input ends here.
    End,
    // A record, all of it, and the place behind it.
    Whole { found: Record<'a>, next: usize },
}

// What ends a session early, and the number that its line shows.
#[derive(Clone, Copy, Debug, PartialEq, Eq)]
pub enum Fault {
    // The version is missing or not 1.
    NoVersion = 20,
    // A record is cut short.
    Cut = 21,
    // A record is of no kind, or not as long as its kind is.
    Wrong = 22,
}

impl From<Fault> for u8 {
    ghost from_gives = { λ fault number. number ≡ fault_number fault };

    fn from(fault: Fault) -> u8 {
        fault as u8
    }
}

// The kinds of a record, its first byte: names for the patterns below.
const WRITE: u8 = 1;

const READ: u8 = 2;

const GRANT: u8 = 3;

const MEMORY: u8 = 4;

// The longest record of any kind, without its length: a memory record of 255 bytes.
const LONGEST: usize = 258;

// The record whose bytes these are, behind its length.
#[tactic(auto, using(std::proofs::lemmas::Grind::common_steps, crate::proofs::Reading::reads_write, crate::proofs::Reading::reads_read, crate::proofs::Reading::reads_grant, crate::proofs::Reading::reads_memory))]
fn record_of(bytes: &[u8]) -> Result<Record<'_>, Fault>
    ensures reads { Reads bytes.now result }
    ensures lends { EndsIn bytes.now result }
{
    match *bytes {
        [WRITE, high, low, byte] => Ok(Record::Write {
            port: u16::from_be_bytes([high, low]),
            byte,
        }),
        [READ, high, low] => Ok(Record::Read {
            port: u16::from_be_bytes([high, low]),
        }),
        [GRANT, a, b, c, d] => Ok(Record::Grant {
            clocks: u32::from_be_bytes([a, b, c, d]),
        }),
        [MEMORY, high, low, _, ..] if bytes.len() <= LONGEST => Ok(Record::Memory {
            address: u16::from_be_bytes([high, low]),
            bytes: &bytes[3..],
        }),
        _ => Err(Fault::Wrong),
    }
}

// The length of the record at a place, once both bytes of it are at hand.
#[tactic(auto, using(std::proofs::lemmas::List::take_rest, crate::proofs::Reading::length_is))]
fn length_at(input: &[u8], place: usize) -> Option<usize>
    ensures { MatchOption result (length input.now < place + 2) (λ n. (place + 2 ≤ length input.now) × (n ≡ word input.now place)) }
{
    match input.get(place..)? {
        [high, low, ..] => Some(usize::from(u16::from_be_bytes([*high, *low]))),
        _ => None,
    }
}

// The bytes of the record at a place, behind its length, once all of them are at hand.
fn bytes_at(input: &[u8], place: usize) -> Option<&[u8]>
    ensures { MatchOption result (length input.now < place + 2 + word input.now place) (λ b. StandBehindLength input.now place b.now) }
{
    let count = length_at(input, place)?;
    input.get(place + 2..)?.get(..count)
}

// What stands at a place of the bytes at hand, where `ended` says that no byte comes after them. The place may lie
// anywhere, also behind the bytes. Of a record that is too long for any kind it waits for all bytes: who cannot hold them
// asks long_length first. Bytes, place and end come one by one: who reads in pieces keeps them apart, in a buffer of its own.
#[tactic(auto, using(crate::proofs::Reading::more_missing, crate::proofs::Reading::cut_there, crate::proofs::Reading::lent_there, crate::proofs::Standing::at_end))]
pub fn record_at(input: &[u8], place: usize, ended: bool) -> Result<Found<'_>, Fault>
    ensures stands { standing place result ≡ record_at input.now place ended }
    ensures lends { Lends input.now result }
{
    match bytes_at(input, place) {
        Some(bytes) => {
            let found = record_of(bytes)?;
            Ok(Found::Whole {
                found,
                next: place + 2 + bytes.len(),
            })
        }
        None if !ended => Ok(Found::More),
        None if input.len() <= place => Ok(Found::End),
        None => Err(Fault::Cut),
    }
}

// The length of a record that is too long for any kind, once both bytes of the length are at hand.
#[tactic(auto, using(std::proofs::lemmas::Grind::common_steps, crate::proofs::Reading::long_missing, crate::proofs::Reading::long_found, crate::proofs::Reading::not_long))]
pub fn long_length(input: &[u8], place: usize) -> Option<usize>
    ensures number { unwrap_or result 0 ≡ long_length input.now place }
    ensures long { IfSome result (λ n. LONGEST < n) }
{
    length_at(input, place).filter(|n| *n > LONGEST)
}
