// The handle slots of a tape, in lent words.
ghost use Rattle.std.specs.Prelude.{◌≡◌, ◌+◌, ◌≤◌, ◌<◌, length};
ghost use Rattle.keycode.specs.Buffer.{put};
ghost use Rattle.tape.specs.format.Slots.{all_words, filled as filled_by, handle_at, kind_of, fill as fill_by, empty as empty_by};

use keycode::limits::MAX_OPEN;
use mvcc::Handle;

pub(crate) const SLOT_WORDS: usize = 19;

// Sixteen slots.
pub(crate) const ALL_WORDS: usize = 304;

// Whether a handle is kept there.
pub(crate) fn filled(slots: &[u64], i: usize) -> bool
    requires { (length slots.now ≡ all_words) × (i < 16) }
    ensures { result ≡ filled_by slots.now i }
{
    slots[SLOT_WORDS * i] != 0
}

// The handle that a filled slot keeps.
pub(crate) fn handle_at(slots: &[u64], i: usize) -> Handle
    requires { (length slots.now ≡ all_words) × (i < 16) }
    ensures { result ≡ handle_at slots.now i }
{
    let at = SLOT_WORDS * i;
    let mut set = [0u64; MAX_OPEN];
    set.copy_from_slice(&slots[at + 3..at + SLOT_WORDS]);
    Handle {
        version: slots[at + 1],
        read_only: slots[at] != 1,
        count: slots[at + 2] as usize,
        set,
    }
}

// The first word of a slot that keeps a handle.
fn kind_of(read_only: bool) -> u64
    ensures { result ≡ kind_of read_only }
{
    if read_only { 2 } else { 1 }
}

// A handle put into a slot.
pub(crate) fn fill(slots: &mut [u64], i: usize, handle: Handle)
    requires { (length slots.old ≡ all_words) × (i < 16) }
    ensures { slots.new ≡ fill_by slots.old i handle }
{
    let at = SLOT_WORDS * i;
    slots[at] = kind_of(handle.read_only);
    slots[at + 1] = handle.version;
    slots[at + 2] = handle.count as u64;
    slots[at + 3..at + SLOT_WORDS].copy_from_slice(&handle.set);
}

// A slot's words 0 again.
pub(crate) fn empty(slots: &mut [u64], i: usize)
    requires { (length slots.old ≡ all_words) × (i < 16) }
    ensures { slots.new ≡ empty_by slots.old i }
{
    let at = SLOT_WORDS * i;
    slots[at..at + SLOT_WORDS].fill(0);
}
