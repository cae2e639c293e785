// The words of answers: document 01, "The line program".
ghost use Rattle.std.specs.Prelude.{[], ◌∷◌, ◌+◌, ◌≤◌, length};
ghost use Rattle.rules.specs.Answers.{send, skipped, aborted};
ghost use Rattle.line_rules.specs.Printing.{refusal_text, back_list, back_text, answer_text};
ghost use Rattle.hub_answers.specs.View.{back_of, put_backs_of, one_of, answer_of, PutBacksOk};
ghost use Rattle.line_print.specs.Put.{max_put_back, max_put_backs, ahead, max_answer, half_text, PutShort};

use crate::text::{put_one, put_setting, put_two, put_word};
use hub_answers::{Answer, PutBack, PutBacks, Sent};
use rules_routine::Refusal;

// The word, the number, and the index if there is one; no line's end.
pub fn put_refused(out: &mut [u8], at: usize, refusal: Refusal) -> usize
    requires { at + half_text ≤ length out.old }
    ensures { PutShort max_answer out.old out.new at result (refusal_text refusal) }
{
    let number = refusal.number() as u64;
    match refusal.index() {
        None => put_one(out, at, b"refused ", number),
        Some(index) => put_two(out, at, b"refused ", number, b" ", index as u64),
    }
}

// "device and setting for each"
fn put_back(out: &mut [u8], at: usize, back: PutBack) -> usize
    requires { at + max_put_back + ahead ≤ length out.old }
    ensures { PutShort max_put_back out.old out.new at result (back_list (back_of back ∷ [])) }
{
    let named = put_one(out, at, b" ", back.device as u64);
    let from = put_word(out, named, b" ");
    let setting = back.setting;
    put_setting(out, from, setting)
}

// "`back` a count, then device and setting for each"
fn put_backs(out: &mut [u8], at: usize, backs: PutBacks) -> usize
    requires { (at + max_put_backs + ahead ≤ length out.old) × PutBacksOk backs }
    ensures { PutShort max_put_backs out.old out.new at result (back_text (put_backs_of backs)) }
{
    let count = backs.count;
    let mut to = put_one(out, at, b" back ", count as u64);
    for i in 0..count {
        to = put_back(out, to, backs.items[i]);
    }
    to
}

// The same of one device.
fn put_one_back(out: &mut [u8], at: usize, back: PutBack) -> usize
    requires { at + max_put_backs + ahead ≤ length out.old }
    ensures { PutShort max_put_backs out.old out.new at result (back_text (back_of back ∷ [])) }
{
    let counted = put_word(out, at, b" back 1");
    put_back(out, counted, back)
}

// The same of no device or one.
fn put_at_most_one(out: &mut [u8], at: usize, back: Option<PutBack>) -> usize
    requires { at + max_put_backs + ahead ≤ length out.old }
    ensures { PutShort max_put_backs out.old out.new at result (back_text (one_of back)) }
{
    match back {
        None => put_word(out, at, b" back 0"),
        Some(one) => put_one_back(out, at, one),
    }
}

// "`aborted 1 back 0`"
pub fn put_aborted(out: &mut [u8], at: usize, id: u32, backs: PutBacks) -> usize
    requires { (at + half_text ≤ length out.old) × PutBacksOk backs }
    ensures { PutShort max_answer out.old out.new at result (answer_text (aborted id (put_backs_of backs))) }
{
    let named = put_one(out, at, b"aborted ", id as u64);
    put_backs(out, named, backs)
}

// "`send` has id, device, setting"
fn put_sent(out: &mut [u8], at: usize, sent: Sent) -> usize
    requires { at + half_text ≤ length out.old }
    ensures { PutShort max_answer out.old out.new at result (answer_text (send sent.id sent.command)) }
{
    let command = sent.command;
    let named = put_two(
        out,
        at,
        b"send ",
        sent.id as u64,
        b" ",
        command.device as u64,
    );
    let from = put_word(out, named, b" ");
    let setting = command.setting;
    put_setting(out, from, setting)
}

// "`skipped 1` (followed by `back` in the same form where a setting was sent back)"
fn put_skipped(out: &mut [u8], at: usize, id: u32, back: Option<PutBack>) -> usize
    requires { at + half_text ≤ length out.old }
    ensures { PutShort max_answer out.old out.new at result (answer_text (skipped id (one_of back))) }
{
    let named = put_one(out, at, b"skipped ", id as u64);
    match back {
        None => named,
        Some(one) => put_one_back(out, named, one),
    }
}

// An abort that puts back one setting at most.
fn put_short_abort(out: &mut [u8], at: usize, id: u32, back: Option<PutBack>) -> usize
    requires { at + half_text ≤ length out.old }
    ensures { PutShort max_answer out.old out.new at result (answer_text (aborted id (one_of back))) }
{
    let named = put_one(out, at, b"aborted ", id as u64);
    put_at_most_one(out, named, back)
}

// An answer, without its line's end.
#[tactic(auto, using(crate::proofs::PutLaws::within), unfolding(line_rules::specs::Printing::answer_text))]
pub fn put_words(out: &mut [u8], at: usize, answer: Answer, back: Option<PutBack>) -> usize
    requires { at + half_text ≤ length out.old }
    ensures { PutShort max_answer out.old out.new at result (answer_text (answer_of answer (one_of back))) }
{
    match answer {
        Answer::Refused(refusal) => put_refused(out, at, refusal),
        Answer::Placed(placed) => put_two(
            out,
            at,
            b"placed ",
            placed.id as u64,
            b" after ",
            placed.after as u64,
        ),
        Answer::Wait(id, other) => put_two(out, at, b"wait ", id as u64, b" on ", other as u64),
        Answer::Sent(sent) => put_sent(out, at, sent),
        Answer::Done(id) => put_one(out, at, b"done ", id as u64),
        Answer::Skipped(id) => put_skipped(out, at, id, back),
        Answer::Committed(id) => put_one(out, at, b"committed ", id as u64),
        Answer::Aborted(id) => put_short_abort(out, at, id, back),
        Answer::Down(device, id) => put_two(
            out,
            at,
            b"down ",
            device as u64,
            b" after ",
            id as u64,
        ),
        Answer::Up(device, id) => put_two(out, at, b"up ", device as u64, b" after ", id as u64),
        Answer::Limited(limit) => put_one(out, at, b"limited ", limit as u64),
        Answer::Held(id) => put_one(out, at, b"held ", id as u64),
        Answer::NotHeld(id) => put_one(out, at, b"not held ", id as u64),
    }
}
