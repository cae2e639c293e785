// One link of a row at a time. NONE stands before the first slot and behind the last, so that a row's end (`first` of `behind`, `last` of
// `ahead`) is the link of NONE.
ghost use Rattle.std.specs.Prelude.{◌≡◌};
ghost use Rattle.hub_sequence.specs.Links.{link_of, row_with, end_with, Spot};

use crate::NONE;
use rules_routine::limits::MAX_SEQUENCE;

pub fn link_of(row: [u8; MAX_SEQUENCE], end: u8, at: u8) -> u8
    requires { Spot at }
    ensures { result ≡ link_of row end at }
{
    if at == NONE {
        return end;
    }
    let i = at as usize;
    row[i]
}

// The row with another link at a slot; NONE has its link in the row's end.
pub fn with_link(row: [u8; MAX_SEQUENCE], at: u8, to: u8) -> [u8; MAX_SEQUENCE]
    requires { Spot at }
    ensures { result ≡ row_with row at to }
{
    let mut changed = row;
    if at != NONE {
        let i = at as usize;
        changed[i] = to;
    }
    changed
}

// The row's end after that.
pub fn end_with(end: u8, at: u8, to: u8) -> u8
    ensures { result ≡ end_with end at to }
{
    if at == NONE {
        return to;
    }
    end
}
