// One set appended, or none: one search, by which it is judged and laid.
ghost use Rattle.std.specs.Prelude.{◌≡◌, [], ◌∷◌};
ghost use Rattle.bitcask.specs.entry.Entry.{set as set_entry};
ghost use Rattle.bitcask.specs.engine.Stores.{SameLent, Counted};
ghost use Rattle.mvcc.specs.append.Appends.{AppendsTo};

use bitcask::Used;
use bitcask::append::room_after;
use bitcask::engine::Store;
use bitcask::engine::change::wants;
use keycode::Refusal;

pub(crate) fn append_one(store: &mut Store, key: &[u8], value: &[u8]) -> Result<Used, Refusal>
    requires { Counted store.old }
    ensures lent { SameLent store.old store.new }
    ensures appends { AppendsTo store.old (set_entry key.now value.now ∷ []) result store.new }
{
    let view = store.view();
    let found = view.find(key);
    let room = view.room_in();
    let left = room_after(room, key.len(), value.len());
    view.judge(left, wants(found))?;
    store.append_set(found, key, value, &value[..0]);
    Ok(store.mark.used)
}
