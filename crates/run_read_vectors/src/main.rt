// Runs test vectors of reading a book: standard input is a row of records (crate run_records). tests/book/make_vectors.py says what
// a record holds and what is printed for it.
#![tactic(auto)]

mod again;

use std::io;

fn main(rt: HostRuntime) -> io::Result<()> {
    let mut buffer = run_records::room();
    let n = run_records::load(&rt, &mut buffer);
    run_records::each(&buffer[..n], |record| again::read_again(&rt, record))
}
