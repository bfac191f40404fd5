// A call on a store: what it leaves, its number, and its answer shown.
use crate::calls::{Lent, Request};
use crate::spelling::names::{Call, Change};
use crate::spelling::show::{Answer, Given, Refused, show, text};
use crate::store::Store;
use bitcask::Used;
use mvcc::Begun;

// The calls that only look have shown themselves what comes with a 0. A handle comes with a refusal too, and is shown.
fn show_answer(call: Call, begun: Begun, kept: bool) {
    match begun.answer {
        Err(refusal) => show(Refused { refusal, kept }),
        Ok(_) if matches!(call, Call::Look(_)) => {}
        Ok(used) => show(Answer::Used(used)),
    }
    if matches!(call, Call::Start(_)) {
        show(Given(begun.handle));
    }
}

impl Store {
    // None where more was to be lent than there is.
    fn lent(&mut self) -> Option<Lent<'_>> {
        let used = Used { len: self.used };
        let handle = self.held();
        let size = self.size;
        let words = self.words;
        let room = self.room;
        let log = &mut self.log;
        let table = &mut self.table;
        let target = &mut self.spare;
        Some(Lent {
            used,
            handle,
            log: log.get_mut(..size)?,
            table: table.get_mut(..words)?,
            target: target.get_mut(..room)?,
        })
    }

    // With a refusal the handle in hand stays.
    fn keep(&mut self, call: Call, begun: Begun) {
        match begun.answer {
            Err(refusal) => self.refused = Some(refusal),
            Ok(used) => {
                self.refused = None;
                self.used = used.len;
                if call == Call::Change(Change::Compact) {
                    self.turn();
                } else {
                    self.hold(begun.handle);
                }
            }
        }
    }

    pub(crate) fn run(&mut self, call: Call, request: &Request, loud: bool) {
        let before = *self;
        let Some(mut lent) = self.lent() else {
            text(b" NOT THERE TO LEND");
            return;
        };
        let begun = lent.answered(call, request, loud);
        if loud {
            show_answer(call, begun, self.is_same(&before));
        }
        self.keep(call, begun);
    }
}
