// What a table of slots is a slice of, and slots put in, replaced and taken out, whatever that is. Each contract speaks of the table's
// words, as bitcask::keydir does of its table.
ghost use Rattle.std.specs.Prelude.{◌≡◌, [], ◌∷◌, ◌++◌, ◌+◌, ◌-◌, ◌*◌, ◌/◌, ◌≤◌, ◌<◌, List, ℕ, length, drop, replicate};
ghost use Rattle.keycode.specs.Buffer.{put};
ghost use Rattle.bitcask.specs.keydir.Words.{copied};
ghost use Rattle.bitcask.specs.keydir.Slots.{slot_words, slot_at, slots_of, words_of, insert_at, replace_at, remove_at};

use bitcask::keydir::Slot;

// An element of a table: it says how slots lie in a slice of such.
pub(crate) trait Element: Copy {
    // The words of a table.
    ghost words: { List Self → List ℕ };

    // How many slots a table has room for.
    fn room(table: &[Self]) -> usize
        ensures { result ≡ length (words table.now) / slot_words };

    // The i-th slot.
    fn slot_at(table: &[Self], i: usize) -> Slot
        requires { slot_words * i + slot_words ≤ length (words table.now) }
        ensures { result ≡ slot_at (words table.now) i };

    // The i-th slot anew.
    fn store(table: &mut [Self], i: usize, s: Slot)
        requires { slot_words * i + slot_words ≤ length (words table.old) }
        ensures { words table.new ≡ put (words table.old) (slot_words * i) (words_of (s ∷ [])) };

    // The slots from the `from`-th up to the `to`-th moved to the place of the `at`-th.
    fn shift(table: &mut [Self], from: usize, to: usize, at: usize)
        requires { (from ≤ to) × (slot_words * to ≤ length (words table.old)) × (slot_words * (at + (to - from)) ≤ length (words table.old)) }
        ensures { words table.new ≡ copied (words table.old) (slot_words * from) (slot_words * to) (slot_words * at) };

    // Words take no fewer elements than they are.
    ghost fits: { (table : List Self) → length (words table) ≤ length table };
}

// A slot before the i-th of `count`.
pub(crate) fn insert<E: Element>(table: &mut [E], count: usize, i: usize, s: Slot)
    requires { (i ≤ count) × (slot_words * count + slot_words ≤ length (E.words table.old)) }
    ensures { E.words table.new ≡ words_of (insert_at i s (slots_of count (E.words table.old))) ++ drop (slot_words * count + slot_words) (E.words table.old) }
{
    E::shift(table, i, count, i + 1);
    E::store(table, i, s);
}

// The i-th of `count` slots anew.
pub(crate) fn replace<E: Element>(table: &mut [E], count: usize, i: usize, s: Slot)
    requires { (i < count) × (slot_words * count ≤ length (E.words table.old)) }
    ensures { E.words table.new ≡ words_of (replace_at i s (slots_of count (E.words table.old))) ++ drop (slot_words * count) (E.words table.old) }
{
    E::store(table, i, s);
}

// The i-th of `count` slots gone, the words that it frees at the end cleared.
pub(crate) fn remove<E: Element>(table: &mut [E], count: usize, i: usize)
    requires { (i < count) × (slot_words * count ≤ length (E.words table.old)) }
    ensures { E.words table.new ≡ words_of (remove_at i (slots_of count (E.words table.old))) ++ (replicate slot_words 0 ++ drop (slot_words * count) (E.words table.old)) }
{
    E::shift(table, i + 1, count, i);
    let free = Slot {
        place: 0,
        klen: 0,
        vlen: 0,
    };
    E::store(table, count - 1, free);
}
