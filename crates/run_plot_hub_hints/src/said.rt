// What is said of an unread line, and at the end. Each function says whether all of it could be written.
use line_hints::Hint;
use rules_routine::limits::MAX_LINE;
use std::io;

fn put_reason(rt: &impl Print, hint: Hint) -> io::Result<()> {
    match hint {
        Hint::TooLong => println!(rt; "longer than {MAX_LINE} bytes"),
        Hint::Empty => println!(rt; "an empty line"),
        Hint::CarriageReturn => println!(rt; "a carriage return"),
        Hint::OtherByte => {
            println!(rt; "a character that no line has, such as a tab or an accented letter")
        }
        Hint::SpaceAtEnd => println!(rt; "a space at its end"),
        Hint::SpaceAtStart => println!(rt; "a space at its start"),
        Hint::SpacesTogether => println!(rt; "two spaces together"),
        Hint::LowerCase => println!(rt; "a lower-case letter for the call"),
        Hint::NoCall => println!(rt; "no call of that name"),
        Hint::TooFew => println!(rt; "too few words"),
        Hint::TooMany => println!(rt; "too many words"),
        Hint::NoNumber => println!(rt; "a word that is no number"),
        Hint::OutsideWidth => println!(rt; "a number outside its width"),
        Hint::NoHub => println!(rt; "no hub yet"),
    }
}

// The number of a line, and why it is unread.
pub fn say(rt: &impl Print, number: u64, hint: Hint) -> io::Result<()> {
    print!(rt; "line {number}: unread: ")?;
    put_reason(rt, hint)
}

// How many lines there were, and how many of them were unread and refused.
pub fn sum_up(rt: &impl Print, lines: u64, unread: u64, refused: u64) -> io::Result<()> {
    let name = if lines == 1 { "line" } else { "lines" };
    println!(rt; "{lines} {name}: {unread} unread, {refused} refused")
}
