// Two sets appended, both or none: one search for each key, by which they are judged and laid.
ghost use Rattle.std.specs.declared.cmp.Ordering.TheVariants.{Less};
ghost use Rattle.std.specs.Prelude.{◌≡◌, [], ◌∷◌, ◌++◌, ◌≤◌, length};
ghost use Rattle.keycode.specs.Limits.{max_value};
ghost use Rattle.keycode.specs.Order.{compare_bytes};
ghost use Rattle.bitcask.specs.entry.Entry.{set as set_entry};
ghost use Rattle.bitcask.specs.engine.Stores.{SameLent, Counted};
ghost use Rattle.mvcc.specs.append.Appends.{AppendsTo};

use bitcask::Used;
use bitcask::append::room_after;
use bitcask::engine::Store;
use bitcask::engine::change::{behind, wants};
use keycode::Refusal;

// The first key with its value, then the second, which is greater, with head and body.
pub(crate) fn append_pair(
    store: &mut Store,
    first: &[u8],
    value: &[u8],
    second: &[u8],
    head: &[u8],
    body: &[u8],
) -> Result<Used, Refusal>
    requires { (Counted store.old) × (compare_bytes first.now second.now ≡ Less)
        × (length head.now ≤ 1) × (length body.now ≤ max_value) }
    ensures lent { SameLent store.old store.new }
    ensures appends { AppendsTo store.old
        (set_entry first.now value.now ∷ set_entry second.now (head.now ++ body.now) ∷ []) result store.new }
{
    let view = store.view();
    let a = view.find(first);
    let b = view.find(second);
    let room = view.room_in();
    let left = room_after(room, first.len(), value.len());
    let rest = room_after(left, second.len(), head.len() + body.len());
    view.judge(rest, wants(a) + wants(b))?;
    let none = &value[..0];
    let before = store.mark;
    store.append_set(a, first, value, none);
    let place = behind(before, store.mark, b);
    store.append_set(place, second, head, body);
    Ok(store.mark.used)
}
