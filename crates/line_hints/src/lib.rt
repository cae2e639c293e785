// Why a line prints `unread`: for people who write sittings. specs/Why.antt says which reason is told of a line.
#![tactic(auto)]

mod letters;
mod scans;
mod words;

ghost use Rattle.std.specs.Prelude.{◌≡◌};
ghost use Rattle.line_rules.specs.Pieces.{words_of};
ghost use Rattle.line_hints.specs.Why.{by_words, why as whyOf, hint_of};

use line_read::Line;
use line_rules::SPACE;
use rules_routine::limits::MAX_LINE;

// Why a line is unread.
#[derive(Clone, Copy)]
pub enum Hint {
    TooLong,
    Empty,
    CarriageReturn,
    OtherByte,
    SpaceAtEnd,
    SpaceAtStart,
    SpacesTogether,
    LowerCase,
    NoCall,
    TooFew,
    TooMany,
    NoNumber,
    OutsideWidth,
    NoHub,
}

// By the words of a line with bytes.
fn by_words(line: &[u8]) -> Hint
    ensures { result ≡ by_words (words_of line.now) }
{
    if line.len() == 0 {
        return Hint::NoCall;
    }
    let letter = line[0];
    if letter == SPACE {
        return Hint::NoCall;
    }
    if 1 < line.len() {
        if line[1] != SPACE {
            return Hint::NoCall;
        }
    }
    letters::by_letter(line, letter)
}

// Of a line that is unread, whatever hub there is.
#[tactic(auto, unfolding(crate::specs::Why::why))]
fn why(line: &[u8]) -> Hint
    ensures { result ≡ whyOf line.now }
{
    if MAX_LINE < line.len() {
        return Hint::TooLong;
    }
    if line.len() == 0 {
        return Hint::Empty;
    }
    if scans::has_carriage_return(line) {
        return Hint::CarriageReturn;
    }
    if scans::has_other(line) {
        return Hint::OtherByte;
    }
    if line[line.len() - 1] == SPACE {
        return Hint::SpaceAtEnd;
    }
    if line[0] == SPACE {
        return Hint::SpaceAtStart;
    }
    if scans::spaces_together(line) {
        return Hint::SpacesTogether;
    }
    by_words(line)
}

// What is told of a line, where a hub was opened before it or not.
pub fn of_line(line: &[u8], opened: bool) -> Option<Hint>
    ensures { result ≡ hint_of opened line.now }
{
    match line_read::read_line(line) {
        Line::Open(_, _, _) => None,
        Line::Calling(_) if opened => None,
        Line::Calling(_) => Some(Hint::NoHub),
        Line::Unread => Some(why(line)),
    }
}
