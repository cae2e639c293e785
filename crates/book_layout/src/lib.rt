// The routine book of document 01 as definitions, and the theorems about them: specs/ and proofs/. Here stand what
// the code of reading and writing shares: the types of the answers, the layout's numbers, and two bytes as a setting, and back.
#![tactic(auto)]

ghost use Rattle.std.specs.Prelude.{◌≡◌};
ghost use Rattle.book_layout.specs.Numbers.{bits_of, setting_of};

use rules_routine::limits::MAX_DEVICES;
use rules_routine::{Refusal, Routine};

// Sizes in bytes: the count, a pair of offset and length, a command.
pub const COUNT_SIZE: usize = 2;

pub const PAIR_SIZE: usize = 8;

// An offset's part of its pair.
pub const OFFSET_SIZE: usize = 4;

pub const COMMAND_SIZE: usize = 4;

// "Device 0 to 31 is accepted in a book."
pub const BOOK_DEVICES: u8 = MAX_DEVICES as u8;

// A step of reading: a routine is handed out, or the end is reached, or the book is turned down; and where the next step goes on.
// Position 0 is that of a reading not begun, and of a book that is turned down; any other is the place in the book of the next pair.
#[derive(Clone, Copy)]
pub struct Next {
    pub item: Result<Option<Routine>, Refusal>,
    pub position: usize,
}

// The setting of two bytes, the lower one first. By cases, and not by `from_le_bytes`, as document 02, item 2 asks. Upper byte
// below 128: the two bytes' number;
// 128 or above: that less 65,536.
pub fn setting_of(lower: u8, upper: u8) -> i16
    ensures { result ≡ setting_of lower upper }
{
    let number = lower as i32 + 256 * (upper as i32);
    if upper < 128 {
        number as i16
    } else {
        (number - 65536) as i16
    }
}

// The way back, by cases too: the number of a setting's two bytes, its 16 bits. The setting
// 0 or above: itself;
// below 0: that and 65,536.
pub fn bits_of(setting: i16) -> u16
    ensures { result ≡ bits_of setting }
{
    if 0 <= setting {
        setting as u16
    } else {
        (setting as i32 + 65536) as u16
    }
}
