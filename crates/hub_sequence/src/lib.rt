// The sequence: document 01, "Things and ranges" and "The steps"; document 02, item 8. It is kept as links between slots: a slot that is
// taken knows the slot ahead of it and the one behind it. No routine moves. The free slots hang on a list along `behind`. Only this crate
// changes links.
#![tactic(auto)]

pub mod link;
pub mod order;

use rules_routine::limits::MAX_SEQUENCE;

// No slot: what stands before the first and behind the last. A number and no `Option`: that would double the rows of links, on the path of
// every call and against the stack that include/plot_hub.h promises.
pub const NONE: u8 = 255;

#[derive(Clone, Copy)]
pub struct Links {
    pub ahead: [u8; MAX_SEQUENCE],
    pub behind: [u8; MAX_SEQUENCE],
    pub first: u8,
    pub last: u8,
    pub free: u8,
    pub taken: usize,
}

// The links with one slot more, and which slot that is.
#[derive(Clone, Copy)]
pub struct Joined {
    pub links: Links,
    pub slot: u8,
}
