// Where the whole lines of some bytes end, and what is pending of the line behind them.
ghost use Rattle.std.specs.Prelude.{◌≤◌, min, ◌≡◌, length, take, drop};
ghost use Rattle.line_rules.specs.Claims.{cut};
ghost use Rattle.line_parts.specs.Parts.{whole_lines};

use line_rules::LINE_END;
use rules_routine::limits::MAX_LINE;

// How long the whole lines are: up to the last byte 10, and that byte.
pub fn whole_length(bytes: &[u8]) -> usize
    ensures { result ≡ length (whole_lines bytes.now) }
{
    for at in (0..bytes.len()).rev() {
        if bytes[at] == LINE_END {
            return at + 1;
        }
    }
    0
}

// Moves the bytes from a place on to the front, as many as are pending of a line, and says how many.
pub fn keep(input: &mut [u8], from: usize, filled: usize) -> usize
    requires { (from ≤ filled) × (filled ≤ length input.old) }
    ensures { (result ≤ length input.new)
        × (take result input.new ≡ cut (drop from (take filled input.old))) }
{
    let kept = (filled - from).min(MAX_LINE + 1);
    input.copy_within(from..from + kept, 0);
    kept
}
