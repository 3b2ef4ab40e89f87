// The lines that a session writes, and how one is put at the front of a borrowed slice.
#![tactic(auto)]

ghost use Rattle.std.specs.Prelude.{◌≡◌, ◌∷◌, ◌++◌, ◌+◌, ◌≤◌, ◌<◌, [], length};
ghost use Rattle.arrayvec.specs.ArrayString.{array_string_len};
ghost use Rattle.lines.specs.Lines.{hex_digit, decimal, number_then, number_line, write_line, read_line, record_line, counts_line, PutLine};
ghost use Rattle.lines.specs.Line.{bytes_of};

use arrayvec::ArrayString;
use itoa::Buffer;
use records::Fault;
use rules::Clocks;

// The room that a caller lends for a line. The longest, of three counts with 20 digits each, has 65 bytes.
pub const ROOM: usize = 72;

// Behind the number of a port write that has a warning.
const MARK: char = '!';

const LINE_FEED: char = '\n';

// The text of a line.
type Text = ArrayString<ROOM>;

// A line: what a record of a session is answered, or the last line. The numbers, warnings and bytes of a port write, a port read
// and a grant are those that the calls answer to C, with 0 for none; a memory record has number 0.
#[derive(Clone, Copy)]
pub enum Line {
    Write { number: u8, warning: u8 },
    // An accepted port read shows its byte, another one its number.
    Read { number: u8, byte: u8 },
    Grant { number: u8 },
    Memory { number: u8 },
    // The end of a session without a fault: its clock counts.
    Counts(Clocks),
    // The end of a session with a fault.
    Fault(Fault),
}

// The capital hex digit of a number below 16. std writes one only with a formatter, which promises the text where it succeeds.
#[tactic(auto, unfolding(crate::specs::Lines::hex_digit, rules::specs::Choice::pick))]
fn hex_digit(n: u8) -> char
    requires { n < 16 }
    ensures value { result ≡ hex_digit n }
    ensures ascii { result < 128 }
{
    char::from(match n {
        0..=9 => b'0' + n,
        _ => b'A' + (n - 10),
    })
}

// A number in decimal. One digit, as the numbers that calls answer have, is put without formatting: with it the line of a record takes
// 34 instructions more.
fn push_decimal(text: &mut Text, number: u64)
    requires room { array_string_len text.old + 20 ≤ ROOM }
    ensures bytes { text.new.bytes ≡ text.old.bytes ++ decimal number }
    ensures size { array_string_len text.new ≤ array_string_len text.old + 20 }
{
    if number < 10 {
        text.push(char::from(b'0' + number as u8));
    } else {
        text.push_str(Buffer::new().format(number));
    }
}

// A number in decimal, and the character behind it. A character is one byte below 128 only, so the three functions that take or
// answer one say so; a type of their own for two constants and some letters would be no plainer.
fn push_number(text: &mut Text, number: u64, end: char)
    requires ascii { end < 128 }
    requires room { array_string_len text.old + 21 ≤ ROOM }
    ensures bytes { text.new.bytes ≡ text.old.bytes ++ number_then number end }
    ensures size { array_string_len text.new ≤ array_string_len text.old + 21 }
{
    push_decimal(text, number);
    text.push(end);
}

// A letter, a space, a number.
fn number_line(letter: char, number: u8) -> Text
    requires { letter < 128 }
    ensures { result.bytes ≡ number_line letter number }
{
    let mut text = Text::new();
    text.push(letter);
    text.push(' ');
    push_number(&mut text, u64::from(number), LINE_FEED);
    text
}

// The line of a port write, marked where there is a warning.
#[tactic(auto, unfolding(crate::specs::Lines::write_line, rules::specs::Choice::pick))]
fn write_line(number: u8, warning: u8) -> Text
    ensures { result.bytes ≡ write_line number warning }
{
    if warning == 0 {
        return number_line('W', number);
    }
    let mut text = Text::new();
    text.push_str("W ");
    push_number(&mut text, u64::from(number), ' ');
    text.push(MARK);
    text.push(LINE_FEED);
    text
}

// The line of a port read: an accepted one with its byte.
#[tactic(auto, unfolding(crate::specs::Lines::read_line, rules::specs::Choice::pick))]
fn read_line(number: u8, byte: u8) -> Text
    ensures { result.bytes ≡ read_line number byte }
{
    if number != 0 {
        return number_line('R', number);
    }
    let mut text = Text::new();
    text.push_str("R 0 ");
    text.push(hex_digit(byte / 16));
    text.push(hex_digit(byte % 16));
    text.push(LINE_FEED);
    text
}

// A letter and the three counts.
fn counts_line(clocks: Clocks) -> Text
    ensures { result.bytes ≡ counts_line clocks }
{
    let mut text = Text::new();
    text.push_str("B ");
    push_number(&mut text, clocks.bus, ' ');
    push_number(&mut text, clocks.held, ' ');
    push_number(&mut text, clocks.cpu, LINE_FEED);
    text
}

impl Line {
    // The line of a record of this kind, answered with this number and, for a port read, this byte, for a port write this warning.
    // 1 is a port write, 2 a port read, 3 a grant; any other kind has the line of a memory record. It is for who has a record by
    // its numbers: it takes any kind, and the four numbers of an answer.
    #[tactic(auto, unfolding(crate::specs::Lines::record_line, rules::specs::Choice::pick))]
    pub fn of_kind(kind: u8, number: u8, byte: u8, warning: u8) -> Self
        ensures { bytes_of result ≡ record_line kind number byte warning }
    {
        match kind {
            1 => Line::Write { number, warning },
            2 => Line::Read { number, byte },
            3 => Line::Grant { number },
            _ => Line::Memory { number },
        }
    }

    // No `Display`: `write!` promises the text where it succeeds, and `PutLine` asks for it wherever there is room.
    #[tactic(auto, unfolding(crate::specs::Lines::record_line, rules::specs::Choice::pick))]
    fn text(self) -> Text
        ensures { result.bytes ≡ bytes_of self }
    {
        match self {
            Line::Write { number, warning } => write_line(number, warning),
            Line::Read { number, byte } => read_line(number, byte),
            Line::Grant { number } => number_line('G', number),
            Line::Memory { number } => number_line('M', number),
            Line::Counts(clocks) => counts_line(clocks),
            Line::Fault(fault) => number_line('S', u8::from(fault)),
        }
    }

    // Puts the line at the front of a slice, and answers its length. Where the slice has no room for a line it stays as it is,
    // and the answer is 0, as `PutLine` has it.
    pub fn put(self, out: &mut [u8]) -> usize
        ensures { PutLine out.old (bytes_of self) out.new result }
    {
        if out.len() < ROOM {
            return 0;
        }
        let text = self.text();
        let length = text.len();
        out[..length].copy_from_slice(text.as_bytes());
        length
    }
}
