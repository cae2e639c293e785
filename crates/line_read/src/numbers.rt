// Numbers at a place of a line: the word that begins there.
ghost use Rattle.std.specs.Prelude.{◌≡◌, ◌≤◌, ◌^◌};
ghost use Rattle.line_rules.specs.Reading.{lowest16, minus_of};
ghost use Rattle.line_read.specs.Places.{found_from, number_at, setting_at};

use line_rules::{DIGIT_0, MINUS, SPACE};

// The largest setting of 16 bits; the smallest is one further from 0.
const HIGHEST_16: u64 = 32767;

const LOWEST_16: u64 = 32768;

// A number of up to 32,768 with a minus before it.
fn negated(value: u64) -> i16
    requires { value ≤ lowest16 }
    ensures { result ≡ minus_of value }
{
    let size = value as i64;
    (0 - size) as i16
}

// A number that was read to the end of its word, and that end. A word of no bytes is none.
fn found(value: u64, from: usize, end: usize) -> Option<(u64, usize)>
    ensures { result ≡ found_from value from end }
{
    if from == end {
        return None;
    }
    Some((value, end))
}

// Decimal digits, up to a number, and where their word ends. A digit more never makes a number smaller, so that one too large ends the
// search.
pub fn number_at(line: &[u8], from: usize, highest: u64) -> Option<(u64, usize)>
    requires { highest ≤ 2 ^ 32 }
    ensures { result ≡ number_at highest line.now from }
{
    let mut value = 0u64;
    for at in from..line.len() {
        let byte = line[at];
        if byte == SPACE {
            return found(value, from, at);
        }
        if !byte.is_ascii_digit() {
            return None;
        }
        value = 10 * value + u64::from(byte - DIGIT_0);
        if highest < value {
            return None;
        }
    }
    found(value, from, line.len().max(from))
}

// "a setting perhaps with a minus before it", and where its word ends
pub fn setting_at(line: &[u8], from: usize) -> Option<(i16, usize)>
    ensures { result ≡ setting_at line.now from }
{
    if from < line.len() {
        if line[from] == MINUS {
            let (size, end) = number_at(line, from + 1, LOWEST_16)?;
            return Some((negated(size), end));
        }
    }
    let (value, end) = number_at(line, from, HIGHEST_16)?;
    Some((value as i16, end))
}
