// One kind of call made over and over on a large store, for oracle/bench to time. It is a library, so that whoever asks lends log and table:
// arrays of a program's own lie on its stack, which is too small for a log of some megabytes.
#![tactic(auto)]

mod keys;
mod store;

use crate::keys::Keys;
use crate::store::Store;
use bitcask::Used;
use mvcc::Handle;

// What is timed. `GetBegun` and `ScanBegun` look by a transaction that begins first.
#[derive(Clone, Copy, Debug, PartialEq, Eq)]
enum Call {
    Open,
    Get,
    Scan,
    Set,
    SetCommitted,
    Compact,
    GetBegun,
    ScanBegun,
}

// Any number but the first seven is the last call.
impl From<u64> for Call {
    fn from(number: u64) -> Call {
        match number {
            1 => Call::Open,
            2 => Call::Get,
            3 => Call::Scan,
            4 => Call::Set,
            5 => Call::SetCommitted,
            6 => Call::Compact,
            7 => Call::GetBegun,
            _ => Call::ScanBegun,
        }
    }
}

// What is asked: the call, how often, on which keys, and how many transactions are open before it.
#[derive(Clone, Copy, Debug, PartialEq, Eq)]
struct Request {
    call: Call,
    times: u64,
    others: u64,
    keys: Keys,
}

// The sum of what a call answers, over so many times.
fn total<F: FnMut() -> u64>(times: u64, mut call: F) -> u64
    requires { F.IsAlwaysCallable call }
{
    let mut sum: u64 = 0;
    for _ in 0..times {
        sum = sum.wrapping_add(call());
    }
    sum
}

// A key each, in turn.
fn gets(store: &Store<'_>, handle: Handle, keys: Keys, times: u64) -> u64 {
    let mut n = 0;
    total(times, || {
        let found = store.get(handle, keys, n);
        n = keys.next(n);
        found
    })
}

fn scans(store: &Store<'_>, handle: Handle, times: u64) -> u64 {
    total(times, || store.scan(handle))
}

// As many sets in one transaction: a key each, in turn.
fn sets(store: &mut Store<'_>, keys: Keys, times: u64) -> Handle {
    let handle = store.begin_after(0);
    let mut n = 0;
    for _ in 0..times {
        store.set(handle, keys, n);
        n = keys.next(n);
    }
    handle
}

fn run(request: Request, store: &mut Store<'_>, target: &mut [u8]) -> u64 {
    let Request {
        call,
        times,
        others,
        keys,
    } = request;
    let alone = Handle::fresh(2, true);
    match call {
        Call::Open => total(times, || store.open()),
        Call::Get => gets(store, alone, keys, times),
        Call::Scan => scans(store, alone, times),
        Call::Set => {
            sets(store, keys, times);
            store.used.len as u64
        }
        Call::SetCommitted => {
            let handle = sets(store, keys, times);
            store.commit(handle)
        }
        Call::Compact => total(times, || store.compact_twice(target)),
        Call::GetBegun => {
            let handle = store.begin_after(others);
            gets(store, handle, keys, times)
        }
        Call::ScanBegun => {
            let handle = store.begin_after(others);
            scans(store, handle, times)
        }
    }
}

// Calls 1 to 6 are opening, get, full scan, set, set with a commit at the end, and compaction; 7 and 8 are get and full scan by a
// transaction that begins after `others` that stay open. `skip` bytes of a key's 56 are left out, of which 48 are the same in every key;
// `absent` other than 0 asks for keys that are not there. A sum over the answers, which every side of the bench must reach. By
// hand: whoever calls this over C gives the call and the flag as numbers, and the log's used length beside the log.
#[unsafe(no_mangle)]
pub extern "C" fn tjaldrum_timing(
    call: u64,
    times: u64,
    others: u64,
    count: u64,
    skip: usize,
    absent: u64,
    log: &mut [u8],
    len: usize,
    table: &mut [u32],
    target: &mut [u8],
) -> u64 {
    let keys = Keys {
        count,
        skip,
        absent: absent != 0,
    };
    let request = Request {
        call: Call::from(call),
        times,
        others,
        keys,
    };
    let Ok(used) = bitcask::open(log, Used { len }, table) else {
        return 0;
    };
    run(request, &mut Store { log, table, used }, target)
}
