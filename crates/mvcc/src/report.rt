// The transactions' status: the last version given, and how many keys say that one is open, decodable or not.
ghost use Rattle.mvcc.specs.read_only.Promises.{States};

use crate::snapshot::{next_version, open_span};
use bitcask::Used;
use bitcask::engine::enter;
use keycode::Refusal;

// NextVersion less 1, and the live keys that begin with the tag of TxnActive.
#[derive(Clone, Copy, Debug, PartialEq, Eq)]
pub struct Versions {
    pub last: u64,
    pub open: usize,
}

// 13, then 12.
pub fn status(log: &[u8], used: Used, table: &[u32]) -> Result<Versions, Refusal>
    ensures { States log.now used.len table.now result }
{
    let view = enter(log, used, table)?;
    let next = next_version(&view).ok_or(Refusal::BadStore)?;
    let span = open_span(&view);
    let open = view.rows_in(span);
    Ok(Versions {
        last: next - 1,
        open,
    })
}
