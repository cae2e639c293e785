// The lines that the line program prints: document 01, "The line program". A line's text is put into a lent buffer in which any line fits,
// so that no byte needs a test for room. `put_text` then copies it once to the output: what lies past the output's end is counted and not
// put, so that a text can be measured on an output of one byte.
#![tactic(auto)]

mod text;
mod words;

ghost use Rattle.std.specs.Prelude.{◌+◌, ◌-◌, ◌<◌, ◌≤◌, ◌^◌, length};
ghost use Rattle.rules_routine.specs.Limits.{max_devices};
ghost use Rattle.rules.specs.Answers.{aborted};
ghost use Rattle.line_rules.specs.Text.{bytes};
ghost use Rattle.line_rules.specs.Printing.{as_line, refusal_text, answer_text, answers_text, device_text_of};
ghost use Rattle.hub_answers.specs.View.{put_backs_of, one_of, answer_of, answers_of, PutBacksOk};
ghost use Rattle.line_print.specs.Put.{half_text, max_text, max_device_line, max_end, Put, PutShort};
ghost use Rattle.line_print.specs.Texts.{opening_text, PutBacksOnce, devices_text};

use hub_answers::{Answer, PutBack, PutBacks};
use rules_routine::Refusal;
use rules_routine::limits::MAX_DEVICES;

// The answers of a line are not longer: the size of the buffer that they are put into.
pub const MAX_TEXT: usize = 800;

// Nor is a device line longer than this.
pub const MAX_DEVICE_LINE: usize = 25;

// "prints `unread`"
pub fn put_unread(out: &mut [u8], at: usize) -> usize
    requires { at + max_text ≤ length out.old }
    ensures { PutShort max_text out.old out.new at result (as_line (bytes "unread")) }
{
    text::put_word(out, at, b"unread\n")
}

fn put_opened(out: &mut [u8], at: usize) -> usize
    requires { at + max_text ≤ length out.old }
    ensures { PutShort max_text out.old out.new at result (as_line (bytes "opened")) }
{
    text::put_word(out, at, b"opened\n")
}

// "Refusals print `refused`, the number and the index if there is one."
fn put_refusal(out: &mut [u8], at: usize, refusal: Refusal) -> usize
    requires { at + max_text ≤ length out.old }
    ensures { PutShort max_text out.old out.new at result (as_line (refusal_text refusal)) }
{
    let end = words::put_refused(out, at, refusal);
    text::put_end(out, end)
}

// What an opening prints.
pub fn put_opening(out: &mut [u8], at: usize, verdict: Result<(), Refusal>) -> usize
    requires { at + max_text ≤ length out.old }
    ensures { PutShort max_text out.old out.new at result (opening_text verdict) }
{
    match verdict {
        Ok(()) => put_opened(out, at),
        Err(refusal) => put_refusal(out, at, refusal),
    }
}

// An abort, on a line of its own.
fn put_abort(out: &mut [u8], at: usize, id: u32, backs: PutBacks) -> usize
    requires { (at + half_text ≤ length out.old) × PutBacksOk backs }
    ensures { PutShort half_text out.old out.new at result (as_line (answer_text (aborted id (put_backs_of backs)))) }
{
    let end = words::put_aborted(out, at, id, backs);
    text::put_end(out, end)
}

// An answer that puts back one setting at most, on a line.
pub fn put_answer(out: &mut [u8], at: usize, answer: Answer, back: Option<PutBack>) -> usize
    requires { at + half_text ≤ length out.old }
    ensures { PutShort half_text out.old out.new at result (as_line (answer_text (answer_of answer (one_of back)))) }
{
    let end = words::put_words(out, at, answer, back);
    text::put_end(out, end)
}

// The answers of a call by which a routine aborts: the abort on a line, and behind it the answer of an event.
pub fn put_aborts(
    out: &mut [u8],
    at: usize,
    first: Option<u32>,
    answer: Answer,
    backs: PutBacks,
) -> usize
    requires { (at + max_text ≤ length out.old) × (PutBacksOk backs) × (PutBacksOnce first answer (put_backs_of backs)) }
    ensures { PutShort max_text out.old out.new at result (answers_text (answers_of first answer backs)) }
{
    let Some(id) = first else {
        let Answer::Aborted(own) = answer else {
            return put_answer(out, at, answer, None);
        };
        return put_abort(out, at, own, backs);
    };
    let behind = put_abort(out, at, id, backs);
    put_answer(out, behind, answer, None)
}

// "one line a device, with its due setting if it is up"
fn put_device(out: &mut [u8], at: usize, device: u8, up: bool, due: i16) -> usize
    requires { at + max_device_line ≤ length out.old }
    ensures { PutShort max_device_line out.old out.new at result (as_line (device_text_of device up due)) }
{
    let word = text::put_word(out, at, b"device ");
    let named = text::put_number(out, word, device as u64);
    if up {
        let told = text::put_word(out, named, b" up ");
        let end = text::put_setting(out, told, due);
        return text::put_end(out, end);
    }
    text::put_word(out, named, b" down\n")
}

// A text copied as far as there is room; the rest is counted and not put.
pub fn put_text(out: &mut [u8], at: usize, text: &[u8]) -> usize
    requires { at + length text.now < 2 ^ 64 }
    ensures { Put out.old out.new at result text.now }
{
    if at < out.len() {
        let fit = text.len().min(out.len() - at);
        out[at..at + fit].copy_from_slice(&text[..fit]);
    }
    at + text.len()
}

// What the device lines tell: how many devices there are, and of each whether it is up and its due setting, as the hub's readings give
// them.
#[derive(Clone, Copy)]
pub struct Devices {
    pub count: u8,
    pub up: [bool; MAX_DEVICES],
    pub due: [i16; MAX_DEVICES],
}

// "At the end, if a hub was opened, one line a device"
pub fn put_devices(out: &mut [u8], at: usize, devices: Devices) -> usize
    requires { (devices.count ≤ max_devices) × (at + max_end < 2 ^ 64) }
    ensures { PutShort max_end out.old out.new at result (devices_text devices) }
{
    let mut text = [0u8; MAX_DEVICE_LINE];
    let mut to = at;
    for device in 0..devices.count {
        let d = device as usize;
        let end = put_device(&mut text, 0, device, devices.up[d], devices.due[d]);
        to = put_text(out, to, &text[..end]);
    }
    to
}
