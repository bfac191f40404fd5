// The slots of a table, read, put in, replaced and taken out. Any words may arrive: each contract is an equation for all of them.
ghost use Rattle.std.specs.Prelude.{◌≡◌, [], ◌∷◌, ◌++◌, ◌+◌, ◌-◌, ◌*◌, ◌≤◌, ◌<◌, length, drop, replicate};
ghost use Rattle.keycode.specs.Limits.{max_log};
ghost use Rattle.keycode.specs.Buffer.{put};
ghost use Rattle.bitcask.specs.keydir.Slots.{slot_words, slot_at, slots_of, words_of, insert_at, replace_at, remove_at, remove_span, key_of, value_of};
ghost use Rattle.bitcask.specs.keydir.Place.{count_of};

use keycode::parts::clip;

// The words that a slot takes.
pub const SLOT_WORDS: usize = 3;

// A slot's words as they stand in the table: the entry's offset plus 1, so that 0 is a free slot, and the lengths of its key and value.
#[derive(Clone, Copy, Debug, PartialEq, Eq)]
pub struct Slot {
    pub place: u32,
    pub klen: u32,
    pub vlen: u32,
}

impl Slot {
    pub(crate) const FREE: Slot = Slot {
        place: 0,
        klen: 0,
        vlen: 0,
    };

    // The slot of an entry at an offset, by the lengths of its key and its value.
    pub(crate) fn of_entry(at: usize, klen: usize, vlen: usize) -> Slot
        requires { at + 8 + klen + vlen ≤ max_log }
        ensures { result ≡ record { place = at + 1; klen = klen; vlen = vlen } }
    {
        Slot {
            place: (at + 1) as u32,
            klen: klen as u32,
            vlen: vlen as u32,
        }
    }

    // Where the key begins in the log: 8 bytes behind the entry's offset.
    pub(crate) fn key_at(self) -> usize
        ensures { (result ≡ self.place + 7) × (result < 4294967303) }
    {
        self.place as usize + 7
    }

    // Where the value begins.
    pub(crate) fn value_at(self) -> usize
        ensures { (result ≡ self.place + 7 + self.klen) × (result < 8589934599) }
    {
        self.key_at() + self.klen as usize
    }
}

// The first `count` slots of a table that is only read.
#[derive(Clone, Copy, Debug, PartialEq, Eq)]
pub(crate) struct Slots<'a> {
    pub table: &'a [u32],
    pub count: usize,
    ghost within: { slot_words * count ≤ length table.now },
}

// The i-th slot.
pub(crate) fn slot_at(table: &[u32], i: usize) -> Slot
    requires { slot_words * i + slot_words ≤ length table.now }
    ensures { result ≡ slot_at table.now i }
{
    let at = SLOT_WORDS * i;
    Slot {
        place: table[at],
        klen: table[at + 1],
        vlen: table[at + 2],
    }
}

// The words of a slot, from index at on.
pub(crate) fn store(table: &mut [u32], at: usize, s: Slot)
    requires { at + slot_words ≤ length table.old }
    ensures { table.new ≡ put table.old at (words_of (s ∷ [])) }
{
    table[at] = s.place;
    table[at + 1] = s.klen;
    table[at + 2] = s.vlen;
}

// A slot before the i-th of `count`. Here and in `remove` the words move within the part from the slot on: there the distance is a
// constant, so that a compiler takes the move for one memmove, which takes half the time of a move between two indices.
pub(crate) fn insert(table: &mut [u32], count: usize, i: usize, s: Slot)
    requires { (i ≤ count) × (slot_words * count + slot_words ≤ length table.old) }
    ensures { table.new ≡ words_of (insert_at i s (slots_of count table.old)) ++ drop (slot_words * count + slot_words) table.old }
{
    let at = SLOT_WORDS * i;
    table[at..].copy_within(..SLOT_WORDS * (count - i), SLOT_WORDS);
    store(table, at, s);
}

// The i-th of `count` slots anew.
pub(crate) fn replace(table: &mut [u32], count: usize, i: usize, s: Slot)
    requires { (i < count) × (slot_words * count ≤ length table.old) }
    ensures { table.new ≡ words_of (replace_at i s (slots_of count table.old)) ++ drop (slot_words * count) table.old }
{
    store(table, SLOT_WORDS * i, s);
}

// The i-th of `count` slots gone, the words that it frees at the end cleared.
pub(crate) fn remove(table: &mut [u32], count: usize, i: usize)
    requires { (i < count) × (slot_words * count ≤ length table.old) }
    ensures { table.new ≡ words_of (remove_at i (slots_of count table.old)) ++ (replicate slot_words 0 ++ drop (slot_words * count) table.old) }
{
    let at = SLOT_WORDS * i;
    let last = SLOT_WORDS * (count - 1);
    table[at..].copy_within(SLOT_WORDS..SLOT_WORDS * (count - i), 0);
    store(table, last, Slot::FREE);
}

// The slots from the i-th to the j-th of `count` gone with one move, the words that they free at the end cleared.
pub(crate) fn remove_span(table: &mut [u32], count: usize, i: usize, j: usize)
    requires { (i ≤ j) × (j ≤ count) × (slot_words * count ≤ length table.old) }
    ensures { table.new ≡ words_of (remove_span i j (slots_of count table.old)) ++ (replicate (slot_words * (j - i)) 0 ++ drop (slot_words * count) table.old) }
{
    let last = SLOT_WORDS * (i + (count - j));
    let end = SLOT_WORDS * count;
    table.copy_within(SLOT_WORDS * j..end, SLOT_WORDS * i);
    table[last..end].fill(0);
}

// How many slots are in use. By hand: any words may arrive, and the contract says for all of them which index this is; the library's
// `partition_point` promises one only where the slots in use stand before the free ones.
pub(crate) fn count(table: &[u32]) -> usize
    ensures { result ≡ count_of table.now }
{
    let mut low = 0;
    let mut high = table.len() / SLOT_WORDS;
    while low < high {
        let mid = low + (high - low) / 2;
        if table[SLOT_WORDS * mid] == 0 {
            high = mid;
        } else {
            low = mid + 1;
        }
    }
    low
}

// A slot's key, as far as the log goes.
pub fn key_of(log: &[u8], s: Slot) -> &[u8]
    ensures { result.now ≡ key_of log.now s }
{
    clip(log, s.key_at(), s.klen as usize)
}

// A slot's value, as far as the log goes: one line beside that of the key.
pub(crate) fn value_of(log: &[u8], s: Slot) -> &[u8]
    ensures { result.now ≡ value_of log.now s }
{
    clip(log, s.value_at(), s.vlen as usize)
}
