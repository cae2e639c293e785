// Making the links, and changing them: a slot joins, a slot leaves.
ghost use Rattle.hub_sequence.specs.Contract.{FreeRow, Empty, CanJoin, Joins, CanLeave, Leaves};

use crate::{Joined, Links, NONE, link};
use rules_routine::limits::MAX_SEQUENCE;

// Each slot links to the next, the last to none.
fn free_row() -> [u8; MAX_SEQUENCE]
    ensures { FreeRow result }
{
    let mut row = [NONE; MAX_SEQUENCE];
    for i in 0..MAX_SEQUENCE - 1 {
        row[i] = (i + 1) as u8;
    }
    row
}

// No slot is taken.
pub fn empty() -> Links
    ensures { Empty result }
{
    let behind = free_row();
    Links {
        ahead: [NONE; MAX_SEQUENCE],
        behind,
        first: NONE,
        last: NONE,
        free: 0,
        taken: 0,
    }
}

// The first free slot comes directly behind `after`; behind NONE is the front.
pub fn join(links: Links, after: u8) -> Joined
    requires { CanJoin links after }
    ensures { Joins links after result }
{
    let slot = links.free;
    let ahead = links.ahead;
    let behind = links.behind;
    let first = links.first;
    let last = links.last;
    let free = link::link_of(behind, first, slot);
    let next = link::link_of(behind, first, after);
    let own_behind = link::with_link(behind, slot, next);
    let own_ahead = link::with_link(ahead, slot, after);
    let behind_now = link::with_link(own_behind, after, slot);
    let ahead_now = link::with_link(own_ahead, next, slot);
    let now = Links {
        ahead: ahead_now,
        behind: behind_now,
        first: link::end_with(first, after, slot),
        last: link::end_with(last, next, slot),
        free,
        taken: links.taken + 1,
    };
    Joined { links: now, slot }
}

// The slot is free again.
pub fn leave(links: Links, at: u8) -> Links
    requires { CanLeave links at }
    ensures { Leaves links at result }
{
    let ahead = links.ahead;
    let behind = links.behind;
    let first = links.first;
    let last = links.last;
    let before = link::link_of(ahead, last, at);
    let next = link::link_of(behind, first, at);
    let past_it = link::with_link(behind, before, next);
    let ahead_now = link::with_link(ahead, next, before);
    let behind_now = link::with_link(past_it, at, links.free);
    Links {
        ahead: ahead_now,
        behind: behind_now,
        first: link::end_with(first, before, next),
        last: link::end_with(last, next, before),
        free: at,
        taken: links.taken - 1,
    }
}
