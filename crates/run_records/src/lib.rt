// Records of test vectors: two bytes of length, low first, and then so many bytes; within a record, parts of the same form.
#![tactic(auto)]

ghost use Rattle.std.specs.Prelude.{◌≡◌, ◌≤◌, ◌<◌, ◌+◌, length, get_or};
ghost use Rattle.run_records.specs.Parts.{number_in, part_of, behind_part};

use std::io;
use std::io::Read;

// The byte at a place, 0 past the end.
pub fn byte_at(bytes: &[u8], at: usize) -> usize
    ensures { (result < 256) × (result ≡ get_or bytes.now at 0) }
{
    usize::from(bytes.get(at).copied().unwrap_or(0))
}

// The number of two bytes at a place.
pub fn number_at(bytes: &[u8], at: usize) -> usize
    ensures { (result < 65536) × (result ≡ number_in bytes.now at) }
{
    byte_at(bytes, at) + 256 * byte_at(bytes, at.saturating_add(1))
}

// The part behind the length that stands first, cut off where the slice ends; and what is behind the part.
pub fn part(bytes: &[u8]) -> (&[u8], &[u8])
    ensures first { result.0.now ≡ part_of bytes.now }
    ensures rest { result.1.now ≡ behind_part bytes.now }
    ensures inside { length result.0.now + length result.1.now ≤ length bytes.now }
    ensures further { 0 < length bytes.now → length result.1.now < length bytes.now }
{
    let Some((size, behind)) = bytes.split_at_checked(2) else {
        return (&[], &[]);
    };
    behind.split_at(number_at(size, 0).min(behind.len()))
}

// Each record of a row in turn, up to the first for which the function fails.
pub fn each<F: FnMut(&[u8]) -> io::Result<()>>(all: &[u8], mut run: F) -> io::Result<()>
    requires { F.IsAlwaysCallable run }
{
    let mut rest = all;
    while !rest.is_empty() {
        let (record, behind) = part(rest);
        run(record)?;
        rest = behind;
    }
    Ok(())
}

// Room for the records of one run. The `ensures` keeps the array shut: only its length is known.
pub fn room() -> [u8; 2097152]
    ensures { 2097152 ≡ length result }
{
    [0; 2097152]
}

// Reads until the buffer is full, the input ends or a read fails; how much was read, which is no index.
fn read_full<R: Read>(reader: &mut R, buffer: &mut [u8]) -> usize
    ensures { result ≤ length buffer.new }
{
    let mut filled = 0;
    while filled < buffer.len() {
        let Ok(count) = reader.read(&mut buffer[filled..]) else {
            return filled;
        };
        if count == 0 {
            return filled;
        }
        filled += count;
    }
    filled
}

// Reads standard input whole, and says so where it does not fit; how much was read.
pub fn load(rt: &(impl Input + Print), buffer: &mut [u8]) -> usize
    ensures { result ≤ length buffer.new }
{
    let mut reader = rt.reader();
    let n = read_full(&mut reader, buffer);
    let mut more = [0u8; 1];
    if let Ok(1) = reader.read(&mut more) {
        let _ = rt.write_all(b"input too long\n");
    }
    n
}
