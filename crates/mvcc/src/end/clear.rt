// Rows ended and one key more deleted, as a commit does it: 7, then the tombstones.
ghost use Rattle.std.specs.Prelude.{◌≡◌, ◌≤◌, length};
ghost use Rattle.bitcask.specs.engine.Views.{shown};
ghost use Rattle.bitcask.specs.engine.Stores.{state_of, kept, SameLent, Counted};
ghost use Rattle.bitcask.specs.engine.Spots.{rank};
ghost use Rattle.bitcask.specs.engine.Ranges.{between};
ghost use Rattle.bitcask.specs.engine.Prefixes.{Prefixes};
ghost use Rattle.mvcc.specs.request.Ranges.{write_prefix};
ghost use Rattle.mvcc.specs.end.Ways.{del_where, Clears};

use crate::payload::VERSION_BYTES;
use bitcask::Used;
use bitcask::append::room_after;
use bitcask::engine::{Span, Store, View};
use keycode::Refusal;
use keycode::number::put_number;

// The first byte of a TxnWrite key.
const WRITE_TAG: u8 = 3;

// The rows of the records of a version's writes.
pub(crate) fn write_span(view: &View, version: u64) -> Span
    ensures { Prefixes (shown view.now) (write_prefix version) result }
{
    let mut bytes = [WRITE_TAG; 1 + VERSION_BYTES];
    put_number(version, VERSION_BYTES, &mut bytes, 1);
    view.prefix_span(&bytes)
}

// A key deleted where there is room. The callers ask before, so that there is none on tables alone that were altered by hand.
pub(crate) fn del_key(store: &mut Store, key: &[u8])
    ensures lent { SameLent store.old store.new }
    ensures state { state_of store.new ≡ del_where (state_of store.old) key.now }
{
    let room = store.log.len() - store.mark.used.len;
    if room < 8 || room - 8 < key.len() {
        return;
    }
    store.append_del(key);
}

// All rows of a span ended, and then one key more deleted, all or none.
pub(crate) fn clear(store: &mut Store, span: Span, key: &[u8]) -> Result<Used, Refusal>
    requires { (Counted store.old) × (rank span.to (kept store.old) ≤ length (kept store.old)) }
    ensures lent { SameLent store.old store.new }
    ensures clears { Clears store.old.log.now store.old.table.now store.old.mark (between span.from span.to (kept store.old))
        key.now result store.new.log.now store.new.table.now }
{
    let room = store.log.len() - store.mark.used.len;
    let room = store.view().span_room(Some(room), span);
    room_after(room, key.len(), 0).ok_or(Refusal::LogFull)?;
    store.end_span(span);
    del_key(store, key);
    Ok(store.mark.used)
}
