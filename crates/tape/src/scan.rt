// A prefix scan to its end: a record a pair, then the count, or a refusal in its place. The last key that was shown is kept unescaped, as
// the next step wants it and the pair's record has it.
ghost use Rattle.std.specs.Prelude.{◌≡◌, false, [], ◌+◌, ◌*◌, ◌/◌, ◌≤◌, ◌<◌, leb, ltb, length, take, Ok};
ghost use Rattle.keycode.specs.Buffer.{put};
ghost use Rattle.keycode.specs.Refusals.{number_of};
ghost use Rattle.tape.specs.format.Layout.{record_len, key_room, value_room};
ghost use Rattle.tape.specs.Answers.{pair_if, end_bytes, shown};
ghost use Rattle.tape.specs.Turns.{world_of, Scanned};
ghost use Rattle.tape.specs.Scans.{ShowsBy, Steps};
ghost use Rattle.tape.specs.Promises.{Lays};

use crate::answers::{put_refusal, put_word};
use crate::format::layout::{KEY_ROOM, RECORD, VALUE_ROOM, put_plain, put_record};
use bitcask::{KeyValue, Used, part};
use keycode::{Part, Refusal, number_of, unescape};
use mvcc::{Handle, scan_prefix_step};

// The pair of a key, the first bytes of those that are kept, and a value. Some: how long the key is; None: 13 stands in its place, since
// an answer has no room for the value, or the lent buffer none for a record behind this one.
fn show_pair(out: &mut [u8], n: usize, kept: &[u8], klen: usize, value: &[u8]) -> Option<usize>
    requires { (record_len * n + record_len ≤ length out.old) × (klen ≤ length kept.now) × (klen ≤ key_room) }
    ensures { ShowsBy (pair_if (leb (length value.now) value_room) (ltb (n + 1) (length out.old / record_len)) (take klen kept.now) value.now) n out.old result kept.now out.new }
{
    let at = RECORD * n;
    if VALUE_ROOM < value.len() {
        put_plain(out, at, 13, 7);
        return None;
    }
    if out.len() / RECORD <= n + 1 {
        put_plain(out, at, 13, 7);
        return None;
    }
    put_record(out, at, 0, 7, 0, &kept[..klen], value);
    Some(klen)
}

// The record behind the last pair: how many there are, or a refusal in its place.
fn show_end(out: &mut [u8], n: usize, r: Refusal)
    requires { record_len * n + record_len ≤ length out.old }
    ensures { out.new ≡ put out.old (record_len * n) (end_bytes n (number_of r)) }
{
    let at = RECORD * n;
    let number = number_of(r);
    if number == 1 {
        put_word(out, at, 7, n as u64);
        return;
    }
    put_plain(out, at, number, 7);
}

// A key and a value of the log. Some: how long the key is, which is kept unescaped; None: a refusal ends the scan.
fn show_next(
    log: &[u8],
    key: Part,
    value: Part,
    kept: &mut [u8],
    out: &mut [u8],
    n: usize,
) -> Option<usize>
    requires { (record_len * n + record_len ≤ length out.old) × (length kept.old ≡ key_room) }
    ensures { ShowsBy (shown log.now (length out.old / record_len) n (Ok (record { key = key; value = value }))) n out.old result kept.new out.new }
{
    match unescape(part(log, key), kept) {
        Ok(k) => show_pair(out, n, kept, k, part(log, value)),
        Err(r) => {
            put_refusal(out, RECORD * n, r, 7);
            None
        }
    }
}

// One step behind the key that is kept, and what it shows. Some: how long the key of its pair is; None: it was the last record.
fn show_step(
    log: &[u8],
    used: Used,
    table: &[u32],
    handle: Handle,
    prefix: &[u8],
    kept: &mut [u8],
    klen: usize,
    out: &mut [u8],
    n: usize,
) -> Option<usize>
    requires { (record_len * n + record_len ≤ length out.old) × (length kept.old ≡ key_room) × (klen ≤ key_room) }
    ensures { Steps (world_of log.now used.len table.now) handle prefix.now n (ltb 0 n) (take klen kept.old) out.old result kept.new out.new }
{
    let given = 0 < n;
    match scan_prefix_step(log, used, table, handle, prefix, given, &kept[..klen]) {
        Ok(KeyValue { key, value }) => show_next(log, key, value, kept, out, n),
        Err(r) => {
            show_end(out, n, r);
            None
        }
    }
}

// Every step; gives how many bytes of answers were laid.
fn show_all(
    log: &[u8],
    used: Used,
    table: &[u32],
    handle: Handle,
    prefix: &[u8],
    kept: &mut [u8],
    out: &mut [u8],
) -> usize
    requires { (record_len ≤ length out.old) × (length kept.old ≡ key_room) }
    ensures { Lays (Scanned (world_of log.now used.len table.now) handle prefix.now (length out.old / record_len) false [] 0) out.old result out.new }
{
    let mut klen = 0;
    let mut n = 0;
    while let Some(k) = show_step(log, used, table, handle, prefix, kept, klen, out, n) {
        klen = k;
        n += 1;
    }
    RECORD * (n + 1)
}

pub(crate) fn scan(
    log: &[u8],
    used: Used,
    table: &[u32],
    handle: Handle,
    prefix: &[u8],
    out: &mut [u8],
) -> usize
    requires { record_len ≤ length out.old }
    ensures { Lays (Scanned (world_of log.now used.len table.now) handle prefix.now (length out.old / record_len) false [] 0) out.old result out.new }
{
    let mut kept = [0u8; KEY_ROOM];
    show_all(log, used, table, handle, prefix, &mut kept, out)
}
