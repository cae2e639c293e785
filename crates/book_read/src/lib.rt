// The routine book, read as crate `book_layout` defines it. Document 01, "The routine book".
#![tactic(auto)]

mod bytes;
pub mod reader;
mod reading;

ghost use Rattle.std.specs.Prelude.{◌≡◌};
ghost use Rattle.book_layout.specs.Reading.{book_check, next_of};

use book_layout::{COUNT_SIZE, Next, PAIR_SIZE};
use rules_routine::Refusal;
use rules_routine::limits::MAX_ROUTINES;

// The whole book: 18; then by routine 20, 19, then its commands; bytes left over last.
pub fn check(book: &[u8]) -> Result<(), Refusal>
    ensures { result ≡ book_check book.now }
{
    if book.len() < COUNT_SIZE {
        return Err(Refusal::BookCutShort);
    }
    let count = bytes::two_at(book, 0);
    if MAX_ROUTINES < count {
        return Err(Refusal::BookCutShort);
    }
    if book.len() < COUNT_SIZE + PAIR_SIZE * count {
        return Err(Refusal::BookCutShort);
    }
    reading::check_all(book, count)
}

// A step of reading, from position 0 on: routine by routine, then the end. At every position the whole book is checked first.
pub fn next(book: &[u8], position: usize) -> Next
    ensures { result ≡ next_of book.now position }
{
    match check(book) {
        Err(refusal) => Next {
            item: Err(refusal),
            position: 0,
        },
        Ok(()) if position == 0 => reading::next_pair(book, COUNT_SIZE),
        Ok(()) => reading::next_pair(book, position),
    }
}
