// Three sets appended, all or none: one search for each key, by which they are judged and laid.
ghost use Rattle.std.specs.declared.cmp.Ordering.TheVariants.{Less};
ghost use Rattle.std.specs.Prelude.{◌≡◌, [], ◌∷◌};
ghost use Rattle.keycode.specs.Order.{compare_bytes};
ghost use Rattle.bitcask.specs.entry.Entry.{set as set_entry};
ghost use Rattle.bitcask.specs.engine.Stores.{SameLent, Counted};
ghost use Rattle.mvcc.specs.append.Appends.{AppendsTo};

use bitcask::Used;
use bitcask::append::room_after;
use bitcask::engine::Store;
use bitcask::engine::change::{behind, wants};
use keycode::Refusal;

// The third key has no value, and lies between the two others: the first moves its place on, the second, which is greater, does not.
pub(crate) fn append_three(
    store: &mut Store,
    first: &[u8],
    value: &[u8],
    second: &[u8],
    payload: &[u8],
    third: &[u8],
) -> Result<Used, Refusal>
    requires { (Counted store.old) × (compare_bytes first.now third.now ≡ Less) × (compare_bytes third.now second.now ≡ Less) }
    ensures lent { SameLent store.old store.new }
    ensures appends { AppendsTo store.old
        (set_entry first.now value.now ∷ set_entry second.now payload.now ∷ set_entry third.now [] ∷ []) result store.new }
{
    let view = store.view();
    let a = view.find(first);
    let b = view.find(second);
    let d = view.find(third);
    let room = view.room_in();
    let left = room_after(room, first.len(), value.len());
    let rest = room_after(left, second.len(), payload.len());
    let end = room_after(rest, third.len(), 0);
    view.judge(end, wants(a) + wants(b) + wants(d))?;
    let none = &value[..0];
    let before = store.mark;
    store.append_set(a, first, value, none);
    let place = behind(before, store.mark, b);
    let between = behind(before, store.mark, d);
    store.append_set(place, second, payload, none);
    store.append_set(between, third, none, none);
    Ok(store.mark.used)
}
