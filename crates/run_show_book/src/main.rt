// Reads a routine book from standard input and prints its routines, or its refusal. A book is judged by its first bytes (theorem
// judged-by-first-bytes of crate book_layout), so what a longer input has behind the buffer changes nothing. Where the input
// cannot be read or the output cannot be written, it says so on standard error; of an input that cannot be read it prints nothing.
#![tactic(auto)]

ghost use Rattle.std.specs.Prelude.{◌≡◌, length};
ghost use Rattle.rules_routine.specs.Limits.{first_bytes};

use rules_routine::limits::FIRST_BYTES;

// Room for the bytes that judge a book.
fn book_buffer() -> [u8; FIRST_BYTES]
    ensures { first_bytes ≡ length result }
{
    [0; FIRST_BYTES]
}

fn main(rt: HostRuntime) {
    let mut buffer = book_buffer();
    let (n, read) = run_streams::read_full(&rt, b"show_book", &mut buffer);
    if read.is_err() {
        return;
    }
    if run_book_print::print_book(&rt, &buffer[..n]).is_err() {
        run_streams::say_not_written(&rt, b"show_book");
    }
}
