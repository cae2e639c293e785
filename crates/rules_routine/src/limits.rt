// Every capacity, once in the code; `specs/Limits.antt` has the same numbers, in the same order, for the definitions. Whoever changes one
// changes these two files.

// "Devices are 0 to N−1, N from 1 to 32."
pub const MAX_DEVICES: usize = 32;

// "A routine is 1 to 8 commands"
pub const MAX_COMMANDS: usize = 8;

// "a signed whole number from −1,000 to 1,000"
pub const LOWEST_SETTING: i16 = -1000;

pub const HIGHEST_SETTING: i16 = 1000;

// "an unsigned 32-bit number": the last id that can be given.
pub const HIGHEST_ID: u64 = 4294967295;

// "Pass limit K, 0 to 8."
pub const HIGHEST_PASS_LIMIT: u8 = 8;

// "The sequence holds at most 16 routines, running or committed but not settled."
pub const MAX_SEQUENCE: usize = 16;

// "Count (16 bits, 0 to 64)": the most routines of a book.
pub const MAX_ROUTINES: usize = 64;

// A book is judged by so many bytes, one more than the longest book has (theorem `judged_by_first-bytes` of crate `book_layout`).
pub const FIRST_BYTES: usize = 2563;

// "lines of up to 128 bytes"
pub const MAX_LINE: usize = 128;
