// What each command does: its call, the answer's record, and the handle slots after it.
ghost use Rattle.std.specs.Prelude.{◌≡◌, ◌≤◌, ◌<◌, length};
ghost use Rattle.mvcc.specs.world.Steps.{Step, used_by};
ghost use Rattle.tape.specs.format.Layout.{record_len};
ghost use Rattle.tape.specs.format.Slots.{all_words};
ghost use Rattle.tape.specs.Turns.{start_call, start_used, write_call, end_call, Started, Looked, Written, Ended, Tidied, Told, world_of};
ghost use Rattle.tape.specs.Promises.{Lays};

use crate::answers::{
    answer_changed, answer_counted, answer_given, answer_got, answer_used, empty_ended, fill_given,
};
use crate::format::Request;
use crate::format::layout::RECORD;
use crate::state::Turn;
use bitcask::{Used, compact, status};
use keycode::Refusal;
use mvcc::{
    Begun, Handle, begin, begin_as_of, begin_read_only, commit, delete, get, rollback, set,
};

// The call of commands 1 to 3: begin, begin read-only, begin as of a version.
fn begun(log: &mut [u8], used: Used, table: &mut [u32], command: u8, version: u64) -> Begun
    ensures { Step (world_of log.old used.len table.old) (start_call command version result) (world_of log.new (start_used command result.answer used.len) table.new) }
{
    if command == 1 {
        begin(log, used, table)
    } else if command == 2 {
        begin_read_only(log, used, table)
    } else {
        begin_as_of(log, used, table, version)
    }
}

// The used length after it: only a begin that writes changes it.
fn started_used(command: u8, answer: Result<Used, Refusal>, used: Used) -> Used
    ensures { result.len ≡ start_used command answer used.len }
{
    if command == 1 {
        answer.unwrap_or(used)
    } else {
        used
    }
}

// Commands 1 to 3. Gives the used length after it.
pub(crate) fn start(
    log: &mut [u8],
    used: Used,
    table: &mut [u32],
    slots: &mut [u64],
    q: Request,
    out: &mut [u8],
) -> Used
    requires { (record_len ≤ length out.old) × (length slots.old ≡ all_words) × (q.slot < 16) }
    ensures { Lays (Started (world_of log.old used.len table.old) slots.old q (world_of log.new result.len table.new) slots.new) out.old record_len out.new }
{
    let Begun { answer, handle } = begun(log, used, table, q.command, q.version);
    fill_given(slots, q.slot, answer, handle);
    answer_given(out, q.command, answer, handle.version);
    started_used(q.command, answer, used)
}

// Command 4: get.
pub(crate) fn look(
    log: &[u8],
    used: Used,
    table: &[u32],
    handle: Handle,
    key: &[u8],
    out: &mut [u8],
)
    requires { record_len ≤ length out.old }
    ensures { Lays (Looked (world_of log.now used.len table.now) handle key.now) out.old record_len out.new }
{
    answer_got(out, log, get(log, used, table, handle, key));
}

// The call of commands 5 and 6: set, delete.
fn changed(
    log: &mut [u8],
    used: Used,
    table: &mut [u32],
    handle: Handle,
    command: u8,
    key: &[u8],
    value: &[u8],
) -> Result<Used, Refusal>
    ensures { Step (world_of log.old used.len table.old) (write_call command handle key.now value.now result) (world_of log.new (used_by result used.len) table.new) }
{
    if command == 5 {
        set(log, used, table, handle, key, value)
    } else {
        delete(log, used, table, handle, key)
    }
}

// Commands 5 and 6. Gives the used length after it.
pub(crate) fn write(
    log: &mut [u8],
    used: Used,
    table: &mut [u32],
    handle: Handle,
    command: u8,
    key: &[u8],
    value: &[u8],
    out: &mut [u8],
) -> Used
    requires { record_len ≤ length out.old }
    ensures { Lays (Written (world_of log.old used.len table.old) handle command key.now value.now (world_of log.new result.len table.new)) out.old record_len out.new }
{
    let answer = changed(log, used, table, handle, command, key, value);
    answer_changed(out, command, answer);
    answer.unwrap_or(used)
}

// The call of commands 8 and 9: commit, rollback.
fn ended(
    log: &mut [u8],
    used: Used,
    table: &mut [u32],
    handle: Handle,
    command: u8,
) -> Result<Used, Refusal>
    ensures { Step (world_of log.old used.len table.old) (end_call command handle result) (world_of log.new (used_by result used.len) table.new) }
{
    if command == 8 {
        commit(log, used, table, handle)
    } else {
        rollback(log, used, table, handle)
    }
}

// Commands 8 and 9. Gives the used length after it.
pub(crate) fn end(
    log: &mut [u8],
    used: Used,
    table: &mut [u32],
    handle: Handle,
    slots: &mut [u64],
    q: Request,
    out: &mut [u8],
) -> Used
    requires { (record_len ≤ length out.old) × (length slots.old ≡ all_words) × (q.slot < 16) }
    ensures { Lays (Ended (world_of log.old used.len table.old) handle slots.old q (world_of log.new result.len table.new) slots.new) out.old record_len out.new }
{
    let answer = ended(log, used, table, handle, q.command);
    empty_ended(slots, q.slot, answer);
    answer_changed(out, q.command, answer);
    answer.unwrap_or(used)
}

// Command 10, a compaction: done, the buffer beside the log is the log.
pub(crate) fn tidy(
    log: &[u8],
    used: Used,
    table: &mut [u32],
    spare: &mut [u8],
    out: &mut [u8],
) -> Turn
    requires { record_len ≤ length out.old }
    ensures { Lays (Tidied log.now used.len table.old spare.old result.used.len result.other table.new spare.new) out.old result.len out.new }
{
    let answer = compact(log, used, table, spare);
    answer_used(out, answer);
    Turn {
        used: answer.unwrap_or(used),
        other: answer.is_ok(),
        len: RECORD,
    }
}

// Command 11: status.
pub(crate) fn tell(log: &[u8], used: Used, table: &[u32], out: &mut [u8])
    requires { record_len ≤ length out.old }
    ensures { Lays (Told (world_of log.now used.len table.now)) out.old record_len out.new }
{
    answer_counted(out, status(log, used, table));
}
