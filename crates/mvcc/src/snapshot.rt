// What a begin reads: NextVersion, and the versions open, which are all live keys that begin with the tag of TxnActive.
ghost use Rattle.std.specs.Prelude.{◌≡◌, ◌≤◌, length};
ghost use Rattle.bitcask.specs.engine.Views.{shown};
ghost use Rattle.bitcask.specs.engine.Spots.{rank};
ghost use Rattle.bitcask.specs.engine.Ranges.{between};
ghost use Rattle.bitcask.specs.engine.Prefixes.{Prefixes};
ghost use Rattle.mvcc.specs.request.Ranges.{active_prefix};
ghost use Rattle.mvcc.specs.snapshot.Active.{next_by, next_in, active_in, keys_in, versions_in, active_rows, seen_from, seen_by};

use crate::handle::Handle;
use crate::payload::{VERSION_BYTES, read_version};
use bitcask::engine::{Span, View};
use keycode::code::next_version_code;
use keycode::number::get_number;
use keycode::parts::clip;

// The first byte of every TxnActive key.
const ACTIVE_TAG: u8 = 1;

// How many versions are open, and a handle with them, as many as it has room for.
#[derive(Clone, Copy, Debug, PartialEq, Eq)]
pub struct Seen {
    pub tally: usize,
    pub handle: Handle,
}

// No transaction has version 0.
fn positive(read: Option<u64>) -> Option<u64>
    ensures { result ≡ next_by read }
{
    read.filter(|&version| version != 0)
}

// The next version; a missing record means 1, and a payload that is no version None.
pub(crate) fn next_version(view: &View) -> Option<u64>
    ensures { result ≡ next_in (shown view.now) }
{
    let code = next_version_code();
    let Ok(p) = view.find(code.as_slice()) else {
        return Some(1);
    };
    positive(read_version(view.value_at(p)))
}

// The version of a TxnActive key; None of other bytes.
fn version_in(key: &[u8]) -> Option<u64>
    ensures { result ≡ active_in key.now }
{
    if key.len() != 1 + VERSION_BYTES {
        return None;
    }
    Some(get_number(clip(key, 1, VERSION_BYTES)))
}

// The rows of the open versions.
pub(crate) fn open_span(view: &View) -> Span
    ensures { Prefixes (shown view.now) active_prefix result }
{
    view.prefix_span(&[ACTIVE_TAG])
}

// The versions of a span's rows into a handle; None where one is no TxnActive key. All are looked at, however many it has room for.
fn gather(view: &View, span: Span, start: Handle) -> Option<Seen>
    requires { rank span.to (shown view.now) ≤ length (shown view.now) }
    ensures { result ≡ seen_from 0 start (versions_in (keys_in (between span.from span.to (shown view.now)))) }
{
    let mut at = span.from;
    let mut handle = start;
    let mut tally = 0;
    while !view.meet(at, span.to) {
        let version = version_in(view.key_at(at))?;
        handle = handle.with(version);
        tally += 1;
        at = view.next(at);
    }
    Some(Seen { tally, handle })
}

// The open versions into a handle.
fn actives(view: &View, start: Handle) -> Option<Seen>
    ensures { result ≡ seen_from 0 start (versions_in (keys_in (active_rows (shown view.now)))) }
{
    let span = open_span(view);
    gather(view, span, start)
}

// The handle of NextVersion with the versions open; None where one of them is bad.
pub(crate) fn look_round(view: &View, read_only: bool) -> Option<Seen>
    ensures { result ≡ seen_by read_only (next_in (shown view.now))
        (versions_in (keys_in (active_rows (shown view.now)))) }
{
    let version = next_version(view)?;
    actives(view, Handle::fresh(version, read_only))
}
