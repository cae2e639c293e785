// The reader of a routine book: document 01, "The routine book", which names this form. Two thin functions over a struct that holds the
// lent book; the work is `next`, on a plain slice.
ghost use Rattle.book_read.specs.Reader.{Started, Advanced};

use book_layout::Next;

// The lent book and a position in it. Nobody else can set the position.
#[derive(Clone, Copy)]
pub struct BookReader<'a> {
    book: &'a [u8],
    position: usize,
}

// A reader at the beginning of a book.
pub fn start<'a>(book: &'a [u8]) -> BookReader<'a>
    ensures { Started book.entry result }
{
    BookReader { book, position: 0 }
}

// The next step of reading, the whole book having been checked; the reader is moved on.
pub fn advance<'s, 'a>(reader: &'s mut BookReader<'a>) -> Next
    ensures { Advanced reader.old reader.new result }
{
    let step = crate::next(reader.book, reader.position);
    reader.position = step.position;
    step
}
