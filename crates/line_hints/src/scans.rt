// What stands somewhere in a line.
ghost use Rattle.std.specs.Prelude.{◌≡◌};
ghost use Rattle.line_hints.specs.Why.{carriage_return, has_byte, has_other, spaces_together};

use line_rules::SPACE;

const CARRIAGE_RETURN: u8 = 13;

const LAST_PRINTABLE: u8 = 126;

pub fn has_carriage_return(line: &[u8]) -> bool
    ensures { result ≡ has_byte carriage_return line.now }
{
    line.contains(&CARRIAGE_RETURN)
}

// A byte that is no printable character.
pub fn has_other(line: &[u8]) -> bool
    ensures { result ≡ has_other line.now }
{
    line.iter()
        .any(|byte| *byte < SPACE || LAST_PRINTABLE < *byte)
}

// Two spaces side by side.
pub fn spaces_together(line: &[u8]) -> bool
    ensures { result ≡ spaces_together line.now }
{
    line.iter()
        .zip(line.iter().skip(1))
        .any(|(one, next)| *one == SPACE && *next == SPACE)
}
