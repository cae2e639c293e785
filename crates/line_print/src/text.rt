// Words and numbers put into a buffer that has room for them.
ghost use Rattle.std.specs.Prelude.{◌≡◌, [], ◌∷◌, ◌++◌, ◌+◌, ◌≤◌, length};
ghost use Rattle.line_rules.specs.Text.{line_end, decimal, signed};
ghost use Rattle.line_print.specs.Put.{max_digits, max_setting, Put, PutShort};

use line_rules::{DIGIT_0, LINE_END, MINUS};

pub fn put_byte(out: &mut [u8], at: usize, byte: u8) -> usize
    requires { at + 1 ≤ length out.old }
    ensures { Put out.old out.new at result (byte ∷ []) }
{
    out[at] = byte;
    at + 1
}

// "ended by byte 10"
pub fn put_end(out: &mut [u8], at: usize) -> usize
    requires { at + 1 ≤ length out.old }
    ensures { Put out.old out.new at result (line_end ∷ []) }
{
    put_byte(out, at, LINE_END)
}

pub fn put_word(out: &mut [u8], at: usize, word: &[u8]) -> usize
    requires { at + length word.now ≤ length out.old }
    ensures { Put out.old out.new at result word.now }
{
    // Words are short: byte by byte takes fewer instructions than `copy_from_slice`.
    for i in 0..word.len() {
        out[at + i] = word[i];
    }
    at + word.len()
}

// How many decimal digits a number has, power by power. A power of ten that is at most a tenth of it can be taken ten times: it does not
// overflow.
fn digits_of(n: u64) -> usize
    ensures { result ≡ length (decimal n) }
{
    let tenth = n / 10;
    let mut power: u64 = 1;
    let mut count = 1;
    while power <= tenth {
        power = power * 10;
        count += 1;
    }
    count
}

// The digits of a number, from the last to the first.
fn put_digits(out: &mut [u8], at: usize, end: usize, n: u64) -> usize
    requires { (end ≡ at + length (decimal n)) × (end ≤ length out.old) }
    ensures { Put out.old out.new at result (decimal n) }
{
    let mut left = n;
    for k in (at..end).rev() {
        out[k] = DIGIT_0 + (left % 10) as u8;
        left /= 10;
    }
    end
}

// In decimal digits.
pub fn put_number(out: &mut [u8], at: usize, n: u64) -> usize
    requires { at + length (decimal n) ≤ length out.old }
    ensures { Put out.old out.new at result (decimal n) }
{
    if n < 10 {
        return put_byte(out, at, DIGIT_0 + n as u8);
    }
    let end = at + digits_of(n);
    put_digits(out, at, end, n)
}

// A setting: digits, perhaps with a minus before them.
pub fn put_setting(out: &mut [u8], at: usize, setting: i16) -> usize
    requires { at + max_setting ≤ length out.old }
    ensures { PutShort max_setting out.old out.new at result (signed setting) }
{
    if setting < 0 {
        let from = put_byte(out, at, MINUS);
        let size = setting.unsigned_abs() as u64;
        return put_number(out, from, size);
    }
    put_number(out, at, setting.unsigned_abs() as u64)
}

// A word and a number.
pub fn put_one(out: &mut [u8], at: usize, word: &[u8], n: u64) -> usize
    requires { at + (length word.now + max_digits) ≤ length out.old }
    ensures { PutShort (length word.now + max_digits) out.old out.new at result
        (word.now ++ decimal n) }
{
    let from = put_word(out, at, word);
    put_number(out, from, n)
}

// A word, a number, another word, another number.
pub fn put_two(out: &mut [u8], at: usize, word: &[u8], n: u64, between: &[u8], m: u64) -> usize
    requires { at + (length word.now + max_digits + length between.now + max_digits) ≤ length out.old }
    ensures { PutShort (length word.now + max_digits + length between.now + max_digits) out.old
        out.new at result
        (word.now ++ decimal n ++ between.now ++ decimal m) }
{
    let named = put_one(out, at, word, n);
    let from = put_word(out, named, between);
    put_number(out, from, m)
}
