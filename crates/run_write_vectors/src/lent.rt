// Routines that a record lends are written into a buffer; the answer and a checksum of the whole buffer are printed.
ghost use Rattle.std.specs.Prelude.{◌<◌};

use std::io;

// A record lends at most this many settings.
const MOST_SETTINGS: usize = 2048;

// A record's buffer is shorter than this: two bytes of it say how long it is.
const MOST_ROOM: usize = 65536;

// The settings of their bytes.
fn settings_of(bytes: &[u8]) -> [i16; MOST_SETTINGS] {
    let mut settings = [0i16; MOST_SETTINGS];
    for (setting, pair) in settings.iter_mut().zip(bytes.chunks_exact(2)) {
        *setting = book_layout::setting_of(pair[0], pair[1]);
    }
    settings
}

fn fill(out: &mut [u8], first: usize)
    requires { first < 256 }
{
    for (i, byte) in out.iter_mut().enumerate() {
        *byte = ((first + i) % 256) as u8;
    }
}

fn checksum(bytes: &[u8]) -> u64 {
    let mut sum: u64 = 0;
    for byte in bytes {
        sum = (sum * 257 + u64::from(*byte) + 1) % 4294967291;
    }
    sum
}

// The parts of a record in turn: counts, devices, tags, the bytes of the settings; then the buffer's length and its first byte.
pub fn write_lent(rt: &impl Print, record: &[u8]) -> io::Result<()> {
    let (counts, rest) = run_records::part(record);
    let (devices, rest) = run_records::part(rest);
    let (tags, rest) = run_records::part(rest);
    let (signed, rest) = run_records::part(rest);
    let settings = settings_of(signed);
    let lent = (signed.len() / 2).min(MOST_SETTINGS);
    let mut buffer = [0u8; MOST_ROOM];
    let out = &mut buffer[..run_records::number_at(rest, 0)];
    fill(out, run_records::byte_at(rest, 2));
    match book_write::write(counts, devices, tags, &settings[..lent], out) {
        Ok(size) => print!(rt; "length {size}")?,
        Err(refusal) => run_book_print::print_refusal(rt, refusal)?,
    }
    let sum = checksum(out);
    println!(rt; " sum {sum}")
}
