// A store that was entered, to write to: what is appended to it (change) and how its rows end (ending) are its methods. Its sizes are
// sound, and stay so.
ghost use Rattle.bitcask.specs.engine.Marks.{Held};
ghost use Rattle.bitcask.specs.engine.Views.{Views};

use crate::engine::mark::Mark;
use crate::engine::view::View;

#[derive(Drop)]
pub struct Store<'a> {
    pub log: &'a mut [u8],
    pub table: &'a mut [u32],
    pub mark: Mark,
    pub ghost held: { Held log.now table.now mark },
}

impl Store<'_> {
    // What there is to read, until the next write.
    pub fn view(&self) -> View<'_, '_>
        ensures { Views self.now.log.now self.now.table.now self.now.mark result }
    {
        View {
            log: self.log,
            table: self.table,
            mark: self.mark,
        }
    }
}
