// Bytes parted at one byte.
ghost use Rattle.std.specs.Prelude.{◌≡◌, ◌+◌, drop};
ghost use Rattle.line_rules.specs.Pieces.{reach};

// Where a piece ends, byte by byte.
fn near_end(bytes: &[u8], from: usize, byte: u8) -> usize
    ensures { result ≡ from + reach byte (drop from bytes.now) }
{
    for at in from..bytes.len() {
        if bytes[at] == byte {
            return at;
        }
    }
    bytes.len().max(from)
}

// Where the piece that begins at a place ends: at the next such byte, or at the end. Four bytes are looked at in a round, which is the
// quicker way; below `stop` there are four.
pub fn piece_end(bytes: &[u8], from: usize, byte: u8) -> usize
    ensures { result ≡ from + reach byte (drop from bytes.now) }
{
    let stop = bytes.len().saturating_sub(3);
    let mut at = from;
    while at < stop {
        if bytes[at] == byte {
            return at;
        }
        if bytes[at + 1] == byte {
            return at + 1;
        }
        if bytes[at + 2] == byte {
            return at + 2;
        }
        if bytes[at + 3] == byte {
            return at + 3;
        }
        at += 4;
    }
    near_end(bytes, at, byte)
}
