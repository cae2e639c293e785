// The words behind a line's letter: how many there are, and whether each is a number.
ghost use Rattle.std.specs.Prelude.{◌≡◌, length};
ghost use Rattle.line_read.specs.Places.{behind_letter, words_from};
ghost use Rattle.line_hints.specs.Why.{some_digits, is_number, all_numbers};

use line_read::BEHIND_LETTER;
use line_rules::MINUS;

pub fn count(line: &[u8]) -> usize
    ensures { result ≡ length (words_from line.now behind_letter) }
{
    let mut words = 0;
    let mut at = BEHIND_LETTER;
    while at <= line.len() {
        words += 1;
        at = line_read::word_end(line, at) + 1;
    }
    words
}

// Digits, one at least.
fn some_digits(word: &[u8]) -> bool
    ensures { result ≡ some_digits word.now }
{
    !word.is_empty() && word.iter().all(|byte| byte.is_ascii_digit())
}

// The same, perhaps with a minus before them.
fn is_number(word: &[u8]) -> bool
    ensures { result ≡ is_number word.now }
{
    match word {
        [MINUS, digits @ ..] => some_digits(digits),
        _ => some_digits(word),
    }
}

pub fn all_numbers(line: &[u8]) -> bool
    ensures { result ≡ all_numbers (words_from line.now behind_letter) }
{
    let mut at = BEHIND_LETTER;
    while at <= line.len() {
        let end = line_read::word_end(line, at);
        if !is_number(&line[at..end]) {
            return false;
        }
        at = end + 1;
    }
    true
}
