// A book is read and printed; if it is accepted, it is copied, that is read and written again, and the copy compared with it.
use std::io;

// Room for a copy of any book that is accepted.
const ROOM: usize = 4096;

fn copied_same(book: &[u8]) -> bool {
    let mut out = [0u8; ROOM];
    match book_copy::copied(book, &mut out) {
        Ok(size) => size <= ROOM && book == &out[..size],
        Err(_) => false,
    }
}

pub fn read_again(rt: &impl Print, book: &[u8]) -> io::Result<()> {
    run_book_print::print_book(rt, book)?;
    if book_read::check(book).is_err() {
        return Ok(());
    }
    if copied_same(book) {
        println!(rt; "same")
    } else {
        println!(rt; "differs")
    }
}
