// A table of bytes: four of them, big-endian, for each word that bitcask's table has.
ghost use Rattle.std.specs.Prelude.{◌≡◌, ◌+◌, ◌≤◌, length};
ghost use Rattle.keycode.specs.Buffer.{put};
ghost use Rattle.keycode.specs.Number.{be};
ghost use Rattle.bitcask.specs.entry.Reading.{word_at};
ghost use Rattle.host.specs.Table.{word_bytes, words_in, words_fit};

use crate::table::Element;
use bitcask::keydir::Slot;
use keycode::number::{get_number, put_number};
use keycode::parts::clip;

// The bytes that a word takes, and a slot.
pub const WORD_BYTES: usize = 4;

const SLOT_BYTES: usize = 12;

// The word of the four bytes from index at on.
fn word_at(table: &[u8], at: usize) -> u32
    ensures { result ≡ word_at table.now at }
{
    get_number(clip(table, at, WORD_BYTES)) as u32
}

// A word laid there.
fn put_word(table: &mut [u8], at: usize, word: u32)
    requires { at + word_bytes ≤ length table.old }
    ensures { table.new ≡ put table.old at (be word_bytes word) }
{
    put_number(u64::from(word), WORD_BYTES, table, at);
}

impl Element for u8 {
    ghost words = { words_in };

    fn room(table: &[u8]) -> usize {
        table.len() / SLOT_BYTES
    }

    fn slot_at(table: &[u8], i: usize) -> Slot {
        let at = SLOT_BYTES * i;
        Slot {
            place: word_at(table, at),
            klen: word_at(table, at + 4),
            vlen: word_at(table, at + 8),
        }
    }

    fn store(table: &mut [u8], i: usize, s: Slot) {
        let at = SLOT_BYTES * i;
        put_word(table, at, s.place);
        put_word(table, at + 4, s.klen);
        put_word(table, at + 8, s.vlen);
    }

    fn shift(table: &mut [u8], from: usize, to: usize, at: usize) {
        table.copy_within(SLOT_BYTES * from..SLOT_BYTES * to, SLOT_BYTES * at);
    }

    ghost fits = { words_fit };
}
