// A plain reading of a log over the keys "", "a" and "b": its whole entries, one after the other, each key's last one kept by the key's
// number. It shares no code with the engine, and never moves a slot.
ghost use Rattle.std.specs.Prelude.{◌<◌, ◌≤◌, length, IfSome};

use keycode::Part;

// The keys of the logs, in their order: a key's number is its place.
pub const KEYS: [&[u8]; 3] = [b"", b"a", b"b"];

// Where a live key's entry begins, and the places of its key and its value.
#[derive(Clone, Copy)]
pub struct Live {
    pub entry: usize,
    pub key: Part,
    pub value: Part,
}

// By hand: three keys are all there are, and a map would want a heap.
#[derive(Clone, Copy)]
pub struct Reading {
    // How far the whole entries go; None where a new key found no slot, and then no key is live.
    pub cut: Option<usize>,
    // By the key's number.
    pub live: [Option<Live>; 3],
}

#[derive(Clone, Copy)]
struct Entry<'a> {
    key: &'a [u8],
    // None: a tombstone.
    live: Option<Live>,
    end: usize,
}

fn number(bytes: &[u8]) -> Option<(u32, &[u8])> {
    let (word, rest) = bytes.split_first_chunk::<4>()?;
    Some((u32::from_be_bytes(*word), rest))
}

// None where it is cut short.
fn entry_at(log: &[u8], at: usize) -> Option<Entry<'_>>
    ensures { IfSome result (λ e. (at < e.end) × (e.end ≤ length log.now)) }
{
    let key_at = at.checked_add(8)?;
    let (key_len, rest) = number(log.get(at..key_at)?)?;
    let (written, _) = number(rest)?;
    // Any length with the top bit is a tombstone's, which has no value bytes.
    let gone = written.cast_signed() < 0;
    let key_place = Part {
        at: key_at,
        len: key_len as usize,
    };
    let value_at = key_at.checked_add(key_place.len)?;
    let key = log.get(key_at..value_at)?;
    let value = Part {
        at: value_at,
        len: if gone { 0 } else { written as usize },
    };
    let end = value_at.checked_add(value.len)?;
    log.get(value_at..end)?;
    let live = Live {
        entry: at,
        key: key_place,
        value,
    };
    Some(Entry {
        key,
        live: (!gone).then_some(live),
        end,
    })
}

// One past the last number for a key that no log here has.
fn key_number(key: &[u8]) -> usize {
    KEYS.iter()
        .position(|known| *known == key)
        .unwrap_or(KEYS.len())
}

impl Reading {
    // How many keys are live.
    fn count(&self) -> usize {
        self.live.iter().filter(|live| live.is_some()).count()
    }

    // What is live of a key.
    pub fn of(&self, number: usize) -> Option<&Live> {
        self.live.get(number)?.as_ref()
    }

    // The live key that has n live keys below it.
    pub fn nth(&self, n: usize) -> Option<&Live> {
        self.live.iter().filter_map(|live| live.as_ref()).nth(n)
    }

    // Whether the entry found room.
    fn take(&mut self, entry: Entry<'_>, slots: usize) -> bool {
        let number = key_number(entry.key);
        if entry.live.is_some() && self.of(number).is_none() && slots <= self.count() {
            return false;
        }
        if let Some(place) = self.live.get_mut(number) {
            *place = entry.live;
        }
        true
    }
}

// All entries of the first `used` bytes, into so many slots; a log of fewer bytes has none.
pub fn read_log(log: &[u8], used: usize, slots: usize) -> Reading {
    let bytes = log.get(..used).unwrap_or(&[]);
    let mut reading = Reading {
        cut: None,
        live: [None; 3],
    };
    let mut at = 0;
    while let Some(entry) = entry_at(bytes, at) {
        if !reading.take(entry, slots) {
            return Reading {
                cut: None,
                live: [None; 3],
            };
        }
        at = entry.end;
    }
    reading.cut = Some(at);
    reading
}
