// The way in: the one test of a request's sizes. It gives the view that every call below reads from; the calls that write take its mark.
ghost use Rattle.std.specs.Prelude.{◌≡◌};
ghost use Rattle.bitcask.specs.engine.Marks.{entered_by};
ghost use Rattle.bitcask.specs.engine.Views.{marked, Viewed};

use crate::engine::view::View;
use crate::keydir::count;
use crate::request::{Used, fits};
use keycode::Refusal;

// A store that was entered: the used length with all that it carries, and how many rows there are.
#[derive(Clone, Copy, Debug, PartialEq, Eq)]
pub struct Mark {
    pub used: Used,
    pub count: usize,
}

// Err: 13, where the sizes are not those of a store.
pub fn enter<'a, 't>(log: &'a [u8], used: Used, table: &'t [u32]) -> Result<View<'a, 't>, Refusal>
    ensures mark { marked result ≡ entered_by log.now used table.now }
    ensures view { Viewed log.now table.now result }
{
    if !fits(log.len(), used.len, table.len()) {
        return Err(Refusal::BadRequest);
    }
    let mark = Mark {
        used,
        count: count(table),
    };
    Ok(View { log, table, mark })
}
