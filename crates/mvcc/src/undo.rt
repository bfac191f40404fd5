// The writes of a transaction undone: for each record of a write, the version that it names and the record itself are deleted.
ghost use Rattle.std.specs.Prelude.{◌≡◌, true, ◌≤◌, length};
ghost use Rattle.bitcask.specs.engine.Views.{shown};
ghost use Rattle.bitcask.specs.engine.Marks.{Held, mark_of};
ghost use Rattle.bitcask.specs.engine.Stores.{state_of, kept, SameLent};
ghost use Rattle.bitcask.specs.engine.Rows.{rows, pairs};
ghost use Rattle.bitcask.specs.engine.Spots.{rank};
ghost use Rattle.bitcask.specs.engine.Ranges.{between};
ghost use Rattle.mvcc.specs.undo.Plans.{user_in, is_user, all_users};
ghost use Rattle.mvcc.specs.undo.Undo.{Names, end_where, undo_row, undo_many, Undoes};

use crate::end::clear::del_key;
use crate::payload::VERSION_BYTES;
use bitcask::Used;
use bitcask::append::room_after;
use bitcask::engine::span::rows_in;
use bitcask::engine::spot::{meet, stands};
use bitcask::engine::{Mark, Span, Spot, Store, View};
use bitcask::entry::write::copy_into;
use keycode::code::Code;
use keycode::limits::KEY_BYTES;
use keycode::number::put_number;
use keycode::{Key, Refusal, decode};

// The first byte of a Version key.
const VERSION_TAG: u8 = 4;

// Where the user key of a TxnWrite key starts, escaped: behind the tag and the version.
const USER_AT: usize = 1 + VERSION_BYTES;

// Whether bytes are a TxnWrite key.
fn is_write(bytes: &[u8]) -> bool
    ensures { result ≡ is_user (user_in bytes.now) }
{
    let Ok(key) = decode(bytes) else {
        return false;
    };
    matches!(key, Key::TxnWrite(_, _))
}

// Whether every key of a span is one.
fn all_writes(view: &View, span: Span) -> bool
    requires { rank span.to (shown view.now) ≤ length (shown view.now) }
    ensures { result ≡ all_users (pairs (between span.from span.to (shown view.now))) }
{
    let mut at = span.from;
    while !meet(view.log, view.table, view.mark, at, span.to) {
        if !is_write(view.key_at(at)) {
            return false;
        }
        at = view.next(at);
    }
    true
}

// The Version key that a TxnWrite key names: the user key stands in both, escaped and ended.
fn named_code(write: &[u8], version: u64) -> Code
    requires { is_user (user_in write.now) ≡ true }
    ensures { Names write.now version result }
{
    let mut bytes = [VERSION_TAG; KEY_BYTES];
    let n = write.len();
    copy_into(&write[USER_AT..], &mut bytes, 1);
    put_number(version, VERSION_BYTES, &mut bytes, n - VERSION_BYTES);
    Code { len: n, bytes }
}

// The row at a place ended, where there is one.
fn end_row(store: &mut Store, spot: Spot)
    ensures lent { SameLent store.old store.new }
    ensures state { state_of store.new ≡ end_where (state_of store.old) (rank spot (kept store.old)) }
{
    let view = store.view();
    if stands(view.log, view.table, view.mark, spot) {
        store.end_at(spot);
    }
}

// The write that the key of the row at a place records, undone. Version keys sort behind, so that the row is still there when the version
// is gone. Other keys stay: the callers ask before, so that there are none.
fn undo_row(store: &mut Store, spot: Spot, version: u64)
    ensures lent { SameLent store.old store.new }
    ensures state { state_of store.new ≡ undo_row (state_of store.old) (rank spot (kept store.old)) version }
{
    let view = store.view();
    if !view.stands(spot) {
        return;
    }
    let key = view.key_at(spot);
    if !is_write(key) {
        return;
    }
    let code = named_code(key, version);
    del_key(store, code.as_slice());
    end_row(store, spot);
}

// The same `n` times: when a row is gone, the next one stands at its place.
fn undo_many(store: &mut Store, spot: Spot, n: usize, version: u64)
    ensures lent { SameLent store.old store.new }
    ensures state { state_of store.new ≡ undo_many n (state_of store.old) (rank spot (kept store.old)) version }
{
    for _ in 0..n {
        undo_row(store, spot, version);
    }
}

// The writes of a span undone and then one key more deleted, all or none: 12, then 7. A Version key is as long as the TxnWrite key that
// names it, so that the span's room is wanted twice.
// By hand: log, table and mark come apart here, since that a log's items are bytes is known of a slice that is lent, not of a store's.
pub(crate) fn undo(
    log: &mut [u8],
    table: &mut [u32],
    mark: Mark,
    span: Span,
    version: u64,
    key: &[u8],
) -> Result<Used, Refusal>
    requires { (Held log.old table.old mark) × (mark ≡ mark_of mark.used table.old) × (rank span.to (rows log.old table.old mark) ≤ length (rows log.old table.old mark)) }
    ensures { Undoes log.old table.old mark (between span.from span.to (rows log.old table.old mark)) version
        key.now result log.new table.new }
{
    let view = View { log, table, mark };
    if !all_writes(&view, span) {
        return Err(Refusal::BadStore);
    }
    let once = view.span_room(Some(view.log.len() - mark.used.len), span);
    let twice = view.span_room(once, span);
    room_after(twice, key.len(), 0).ok_or(Refusal::LogFull)?;
    let n = rows_in(log, table, mark, span);
    let mut store = Store { log, table, mark };
    undo_many(&mut store, span.from, n, version);
    del_key(&mut store, key);
    Ok(store.mark.used)
}
