// Answer records of what the calls answered, laid at the front of the lent buffer, and the handle slots after them.
ghost use Rattle.std.specs.Prelude.{◌≡◌, [], ◌+◌, ◌≤◌, ◌<◌, length};
ghost use Rattle.keycode.specs.Refusals.{number_of};
ghost use Rattle.keycode.specs.Limits.{max_open};
ghost use Rattle.keycode.specs.Buffer.{put};
ghost use Rattle.bitcask.specs.recovery.Promises.{changed_number};
ghost use Rattle.tape.specs.format.Layout.{record_len, laid, plainly};
ghost use Rattle.tape.specs.format.Slots.{all_words};
ghost use Rattle.tape.specs.Answers.{given_bytes, filled_with, value_bytes, got_bytes, emptied_by, used_bytes, count_bytes};

use crate::format::layout::{VALUE_ROOM, put_plain, put_record};
use crate::format::slots::{empty, fill};
use bitcask::{Counts, Used, part};
use keycode::{Part, Refusal, number_of};
use mvcc::Handle;

// Number 0, done, with a number of its own.
pub(crate) fn put_word(out: &mut [u8], at: usize, command: u8, w: u64)
    requires { at + record_len ≤ length out.old }
    ensures { out.new ≡ put out.old at (laid 0 command w [] []) }
{
    put_record(out, at, 0, command, w, &[], &[]);
}

// A refusal.
pub(crate) fn put_refusal(out: &mut [u8], at: usize, r: Refusal, command: u8)
    requires { at + record_len ≤ length out.old }
    ensures { out.new ≡ put out.old at (plainly (number_of r) command) }
{
    put_plain(out, at, number_of(r), command);
}

// The answer of a begin.
pub(crate) fn answer_given(out: &mut [u8], command: u8, answer: Result<Used, Refusal>, version: u64)
    requires { record_len ≤ length out.old }
    ensures { out.new ≡ put out.old 0 (given_bytes command answer version) }
{
    match answer {
        Ok(_) => put_word(out, 0, command, version),
        Err(r) => put_refusal(out, 0, r, command),
    }
}

// A handle that a call gives has an array of sixteen, so that its slot gives it back whole.
pub(crate) fn fill_given(
    slots: &mut [u64],
    slot: usize,
    answer: Result<Used, Refusal>,
    handle: Handle,
)
    requires { (length slots.old ≡ all_words) × (slot < 16) }
    ensures { (slots.new ≡ filled_with slots.old slot answer handle) × (length handle.set ≡ max_open) }
{
    if answer.is_ok() {
        fill(slots, slot, handle);
    }
}

// A value at a place of the log.
fn answer_value(out: &mut [u8], value: &[u8])
    requires { record_len ≤ length out.old }
    ensures { out.new ≡ put out.old 0 (value_bytes value.now) }
{
    if VALUE_ROOM < value.len() {
        put_plain(out, 0, 13, 4);
        return;
    }
    put_record(out, 0, 0, 4, 0, &[], value);
}

// The answer of a get.
pub(crate) fn answer_got(out: &mut [u8], log: &[u8], answer: Result<Part, Refusal>)
    requires { record_len ≤ length out.old }
    ensures { out.new ≡ put out.old 0 (got_bytes log.now answer) }
{
    match answer {
        Ok(p) => answer_value(out, part(log, p)),
        Err(r) => put_refusal(out, 0, r, 4),
    }
}

// The answer of a write or an end: its number alone.
pub(crate) fn answer_changed(out: &mut [u8], command: u8, answer: Result<Used, Refusal>)
    requires { record_len ≤ length out.old }
    ensures { out.new ≡ put out.old 0 (plainly (changed_number answer) command) }
{
    match answer {
        Ok(_) => put_plain(out, 0, 0, command),
        Err(r) => put_refusal(out, 0, r, command),
    }
}

// A transaction that has ended leaves its slot; one that a refusal kept open stays there.
pub(crate) fn empty_ended(slots: &mut [u64], slot: usize, answer: Result<Used, Refusal>)
    requires { (length slots.old ≡ all_words) × (slot < 16) }
    ensures { slots.new ≡ emptied_by slots.old slot answer }
{
    if answer.is_ok() {
        empty(slots, slot);
    }
}

// The answer of a compaction.
pub(crate) fn answer_used(out: &mut [u8], answer: Result<Used, Refusal>)
    requires { record_len ≤ length out.old }
    ensures { out.new ≡ put out.old 0 (used_bytes answer) }
{
    match answer {
        Ok(u) => put_word(out, 0, 10, u.len as u64),
        Err(r) => put_refusal(out, 0, r, 10),
    }
}

// The answer of a status.
pub(crate) fn answer_counted(out: &mut [u8], answer: Result<Counts, Refusal>)
    requires { record_len ≤ length out.old }
    ensures { out.new ≡ put out.old 0 (count_bytes answer) }
{
    match answer {
        Ok(s) => put_word(out, 0, 11, s.keys as u64),
        Err(r) => put_refusal(out, 0, r, 11),
    }
}
