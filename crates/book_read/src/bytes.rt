// Numbers read from bytes, low byte first.
ghost use Rattle.std.specs.Prelude.{◌≡◌, ◌+◌, ◌<◌, ◌^◌};
ghost use Rattle.book_layout.specs.Numbers.{byte_at, two_at, four_at};

// The byte at a place, 0 past the end.
pub fn byte_at(s: &[u8], at: usize) -> u8
    ensures { result ≡ byte_at s.now at }
{
    s.get(at).copied().unwrap_or(0)
}

// The 16-bit number whose first byte is at a place.
pub fn two_at(s: &[u8], at: usize) -> usize
    requires { at + 1 < 2 ^ 64 }
    ensures { (result ≡ two_at s.now at) × (result < 2 ^ 16) }
{
    usize::from(u16::from_le_bytes([byte_at(s, at), byte_at(s, at + 1)]))
}

// The 32-bit number whose first byte is at a place.
pub fn four_at(s: &[u8], at: usize) -> usize
    requires { at + 3 < 2 ^ 64 }
    ensures { (result ≡ four_at s.now at) × (result < 2 ^ 32) }
{
    u32::from_le_bytes([
        byte_at(s, at),
        byte_at(s, at + 1),
        byte_at(s, at + 2),
        byte_at(s, at + 3),
    ]) as usize
}
