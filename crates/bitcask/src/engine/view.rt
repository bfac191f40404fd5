// A store that was entered, to read from: its methods, which stand with the places (spot), rows (row), walks (walk), ranges (span) and
// refusals (judging) that they give, speak of the rows that it shows. That its sizes are sound is a fact that it carries, so that no
// function asks for it. Log and table are lent each for a time of its own: a key or a value is a part of the log, and the table may be
// written while one is held.
ghost use Rattle.bitcask.specs.engine.Marks.{Held};

use crate::engine::mark::Mark;

#[derive(Clone, Copy, Debug, PartialEq, Eq)]
pub struct View<'a, 't> {
    pub log: &'a [u8],
    pub table: &'t [u32],
    pub mark: Mark,
    pub ghost held: { Held log.now table.now mark },
}
