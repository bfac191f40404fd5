// What a case sets before its call: the sizes that are lent, the used length, the hand and the handle in it.
use crate::spelling::names::Setting;
use crate::store::Store;
use mvcc::Handle;

impl Store {
    fn slots_in_use(&self) -> usize {
        let places = self.table.iter().step_by(3);
        places.take_while(|place| **place != 0).count()
    }

    // `n` is the word behind the name. No size is too large to be set: what is not there is not lent.
    pub(crate) fn set_up(&mut self, setting: Setting, n: u64) {
        let size = n as usize;
        match setting {
            Setting::Room => self.size = self.used.wrapping_add(size),
            Setting::Short => self.size = self.used.wrapping_sub(1),
            Setting::Words => self.words = size,
            Setting::Slots => self.words = self.slots_in_use().wrapping_add(size).wrapping_mul(3),
            Setting::Used => self.used = size,
            Setting::Target => self.room = size,
            Setting::Hand => self.hand = size,
            Setting::Writer => self.hold(Handle::fresh(n, false)),
            Setting::Reader => self.hold(Handle::fresh(n, true)),
            Setting::With => self.hold(self.held().with(n)),
            // A set with so many versions, whether it has them or not.
            Setting::Count => self.hold(Handle {
                count: size,
                ..self.held()
            }),
        }
    }
}
