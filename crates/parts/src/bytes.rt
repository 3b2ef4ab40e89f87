// The bytes of a slice, behind whose end there are none, and the two bytes of a number.
ghost use Rattle.std.specs.Prelude.{◌≡◌, slice_index, slice_set};
ghost use Rattle.rules.specs.Bytes.{with_low, with_high};

// The byte at a place, 0 behind the last.
pub fn byte_at(bytes: &[u8], place: usize) -> u8
    ensures { result ≡ slice_index bytes.now place }
{
    bytes.get(place).copied().unwrap_or(0)
}

// A byte is put at a place; behind the last nothing is put. Of what is written through a slice's `get_mut` no contract says
// where in the slice it lies, so the place is compared here.
pub fn put(bytes: &mut [u8], place: usize, byte: u8)
    ensures { bytes.new ≡ slice_set bytes.old place byte }
{
    if place < bytes.len() {
        bytes[place] = byte;
    }
}

// The number with its low byte replaced. This and the next stay two: one function for both would need a flag that says which byte.
pub fn with_low(byte: u8, n: u16) -> u16
    ensures { result ≡ with_low byte n }
{
    let [high, _] = n.to_be_bytes();
    u16::from_be_bytes([high, byte])
}

// The number with its high byte replaced.
pub fn with_high(byte: u8, n: u16) -> u16
    ensures { result ≡ with_high byte n }
{
    let [_, low] = n.to_be_bytes();
    u16::from_be_bytes([byte, low])
}
