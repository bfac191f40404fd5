// One record of a tape: 13 where it is short or bad, else what its command does.
ghost use Rattle.std.specs.Prelude.{◌≡◌, true, false, ◌/◌, ◌≤◌, ◌<◌, length};
ghost use Rattle.tape.specs.format.Layout.{record_len};
ghost use Rattle.tape.specs.format.Slots.{all_words, slot_fits};
ghost use Rattle.tape.specs.Turns.{world_of, bench_of, Held, Carried, admitted as admitted_by, Turned};
ghost use Rattle.tape.specs.Promises.{Lays, Takes};

use crate::calls::{end, look, start, tell, tidy, write};
use crate::format::Request;
use crate::format::layout::{KEY_AT, RECORD, VALUE_AT, put_plain};
use crate::format::request::{fields, proper};
use crate::format::slots::{ALL_WORDS, filled, handle_at};
use crate::scan::scan;
use crate::state::{Turn, one_answer};
use bitcask::Used;
use keycode::Refusal;
use keycode::parts::clip;

// The commands that a handle is wanted for. By hand, here and in `carry`: in the last arm of a `match` on numbers the proof was not told that
// the command is none of those before.
fn carry_handle(
    log: &mut [u8],
    used: Used,
    table: &mut [u32],
    slots: &mut [u64],
    q: Request,
    key: &[u8],
    value: &[u8],
    out: &mut [u8],
) -> Turn
    requires { (record_len ≤ length out.old) × (length slots.old ≡ all_words) × (q.slot < 16) × (4 ≤ q.command) × (q.command ≤ 9) }
    ensures { (result.other ≡ false) × Lays (Held (world_of log.old used.len table.old) slots.old q key.now value.now (length out.old / record_len) (world_of log.new result.used.len table.new) slots.new) out.old result.len out.new }
{
    let c = q.command;
    let h = handle_at(slots, q.slot);
    if c == 4 {
        look(log, used, table, h, key, out);
        return one_answer(used);
    }
    if c == 7 {
        let len = scan(log, used, table, h, key, out);
        return Turn {
            used,
            other: false,
            len,
        };
    }
    if c <= 6 {
        let u = write(log, used, table, h, c, key, value, out);
        return one_answer(u);
    }
    let u = end(log, used, table, h, slots, q, out);
    one_answer(u)
}

// A command that a record names.
fn carry(
    log: &mut [u8],
    used: Used,
    spare: &mut [u8],
    table: &mut [u32],
    slots: &mut [u64],
    q: Request,
    key: &[u8],
    value: &[u8],
    out: &mut [u8],
) -> Turn
    requires { (record_len ≤ length out.old) × (length slots.old ≡ all_words) × (q.slot < 16) × (1 ≤ q.command) × (q.command ≤ 11) }
    ensures { Lays (Carried (bench_of false log.old spare.old used.len table.old slots.old) q key.now value.now (length out.old / record_len) (bench_of result.other log.new spare.new result.used.len table.new slots.new)) out.old result.len out.new }
{
    let c = q.command;
    if c <= 3 {
        let u = start(log, used, table, slots, q, out);
        return one_answer(u);
    }
    if c <= 9 {
        return carry_handle(log, used, table, slots, q, key, value, out);
    }
    if c == 10 {
        return tidy(log, used, table, spare, out);
    }
    tell(log, used, table, out);
    one_answer(used)
}

// Whether a command finds the slot as it must be: 1 to 3 an empty one, 4 to 9 a filled one.
fn slot_fits(command: u8, full: bool) -> bool
    ensures { result ≡ slot_fits command full }
{
    if command <= 3 {
        return !full;
    }
    if command <= 9 { full } else { true }
}

// Whether a record is laid out as it must be, and its slot as the command needs it.
fn admitted(bytes: &[u8], slots: &[u64]) -> bool
    requires { (length bytes.now ≡ record_len) × (length slots.now ≡ all_words) }
    ensures { result ≡ admitted_by bytes.now slots.now }
{
    let good = proper(bytes);
    if good {
        let q = fields(bytes);
        return slot_fits(q.command, filled(slots, q.slot));
    }
    false
}

// A record, with the log first.
fn turn(
    log: &mut [u8],
    used: Used,
    spare: &mut [u8],
    table: &mut [u32],
    slots: &mut [u64],
    bytes: &[u8],
    out: &mut [u8],
) -> Turn
    requires { (record_len ≤ length out.old) × (length slots.old ≡ all_words) }
    ensures { Lays (Turned (bench_of false log.old spare.old used.len table.old slots.old) bytes.now (length out.old / record_len) (bench_of result.other log.new spare.new result.used.len table.new slots.new)) out.old result.len out.new }
{
    if bytes.len() != RECORD {
        put_plain(out, 0, 13, 0);
        return one_answer(used);
    }
    let q = fields(bytes);
    let good = admitted(bytes, slots);
    if good {
        let key = clip(bytes, KEY_AT, q.klen);
        let value = clip(bytes, VALUE_AT, q.vlen);
        return carry(log, used, spare, table, slots, q, key, value, out);
    }
    put_plain(out, 0, 13, q.command);
    one_answer(used)
}

// The next record of a tape. The log is the first of the two buffers, or where `other` is told, the second; the answer says which it is
// from then on. Err: BadRequest, the slots are not sixteen or an answer has no room, and nothing changes.
pub fn take(
    first: &mut [u8],
    second: &mut [u8],
    table: &mut [u32],
    slots: &mut [u64],
    used: Used,
    other: bool,
    bytes: &[u8],
    out: &mut [u8],
) -> Result<Turn, Refusal>
    ensures { Takes (record { first = first.old; second = second.old; table = table.old; slots = slots.old; out = out.old }) used.len other bytes.now result (record { first = first.new; second = second.new; table = table.new; slots = slots.new; out = out.new }) }
{
    if out.len() < RECORD || slots.len() != ALL_WORDS {
        return Err(Refusal::BadRequest);
    }
    if other {
        let t = turn(second, used, first, table, slots, bytes, out);
        return Ok(Turn {
            other: !t.other,
            ..t
        });
    }
    Ok(turn(first, used, second, table, slots, bytes, out))
}
