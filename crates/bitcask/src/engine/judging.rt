// 7 and 8 of entries that are appended together, before the first of them is.
ghost use Rattle.std.specs.Prelude.{◌≡◌};
ghost use Rattle.bitcask.specs.engine.Judging.{room_in, judge_in};

use crate::append::judged;
use crate::engine::view::View;
use crate::keydir::SLOT_WORDS;
use keycode::Refusal;

impl View<'_, '_> {
    // The room behind the entries.
    pub fn room_in(&self) -> Option<usize>
        ensures { result ≡ room_in self.now.log.now self.now.mark }
    {
        Some(self.log.len() - self.mark.used.len)
    }

    // Entries that leave so much room and add so many rows.
    pub fn judge(&self, room: Option<usize>, more: usize) -> Result<(), Refusal>
        ensures { result ≡ judge_in self.now.table.now self.now.mark room more }
    {
        judged(room, more, self.table.len() / SLOT_WORDS - self.mark.count)
    }
}
