// How transactions end. Part of toydb's storage/mvcc.rs.
pub(crate) mod clear;
pub mod commit;
pub mod rollback;

ghost use Rattle.mvcc.specs.end.Ways.{Closes_from};

use crate::admission::admit;
use crate::end::clear::write_span;
use crate::handle::Handle;
use bitcask::Used;
use bitcask::engine::{Mark, Span};
use keycode::Refusal;
use keycode::code::{Code, active_code};

// What the end of a read-write transaction starts from: the mark, the rows of the records of its version's writes, and the code of its
// TxnActive.
#[derive(Clone, Copy)]
pub struct Closing {
    pub mark: Mark,
    pub span: Span,
    pub code: Code,
}

// 13, then 3. None of a read-only handle, which has no records, so that its transaction ends at once.
pub(crate) fn to_close(
    log: &[u8],
    used: Used,
    table: &[u32],
    handle: Handle,
) -> Result<Option<Closing>, Refusal>
    ensures { Closes_from log.now used table.now handle result }
{
    let view = admit(log, used, table, handle)?;
    if handle.read_only {
        return Ok(None);
    }
    let version = handle.version;
    let span = write_span(&view, version);
    let code = active_code(version);
    Ok(Some(Closing {
        mark: view.mark,
        span,
        code,
    }))
}
