// Lines found in bytes, and what a line says: document 01, "The line program". `specs/` sets out how what a line says is read here.
#![tactic(auto)]

mod calls;
mod numbers;
mod pieces;

ghost use Rattle.std.specs.Prelude.{◌≡◌, ◌+◌, drop};
ghost use Rattle.line_rules.specs.Text.{line_end};
ghost use Rattle.line_rules.specs.Pieces.{reach};
ghost use Rattle.line_rules.specs.Reading.{read_line};
ghost use Rattle.line_read.specs.View.{read_as};
ghost use Rattle.line_read.specs.Places.{word_end};

use line_rules::{LINE_END, SPACE};
use rules_routine::Routine;
use rules_routine::limits::MAX_LINE;

// Where the words behind a line's letter begin.
pub const BEHIND_LETTER: usize = 2;

// The calls that lines make.
#[derive(Clone, Copy)]
pub enum Call {
    Submit(Routine),
    Turn(u32),
    Report(u32, u8),
    Cancel(u32),
    Fail(u8),
    Restart(u8, i16),
}

// What a line says: an opening with N, K and the first id, a call, or nothing that is read.
#[derive(Clone, Copy)]
pub enum Line {
    Open(u8, u8, u32),
    Calling(Call),
    Unread,
}

// Where the line that begins at a place ends: at the next byte 10, or at the end of the input.
pub fn line_end(input: &[u8], from: usize) -> usize
    ensures { result ≡ from + reach line_end (drop from input.now) }
{
    pieces::piece_end(input, from, LINE_END)
}

// Where the word that begins at a place of a line ends: at the next space, or at the end of the line.
#[tactic(auto, unfolding(crate::specs::Places::word_end))]
pub fn word_end(line: &[u8], from: usize) -> usize
    ensures { result ≡ word_end line.now from }
{
    pieces::piece_end(line, from, SPACE)
}

// What a line says. Shape and widths come before any rule.
pub fn read_line(line: &[u8]) -> Line
    ensures { result ≡ read_as (read_line line.now) }
{
    if MAX_LINE < line.len() {
        return Line::Unread;
    }
    calls::by_letter(line).unwrap_or(Line::Unread)
}
