// Every call of the library, lent the store's bytes and words.
use crate::spelling::names::{Call, Change, Look, Start};
use crate::spelling::show::{Answer, show};
use bitcask::Used;
use keycode::Refusal;
use mvcc::{Begun, Bound, Handle};

// What a line gives a call. In a scan step the key and the value are those of the bounds.
#[derive(Clone, Copy)]
pub(crate) struct Request<'a> {
    pub(crate) lower: Bound,
    pub(crate) upper: Bound,
    pub(crate) key: &'a [u8],
    pub(crate) value: &'a [u8],
    pub(crate) last: Option<&'a [u8]>,
    pub(crate) version: u64,
}

// What of a store is lent to a call.
#[derive(Drop)]
pub(crate) struct Lent<'a> {
    pub(crate) used: Used,
    pub(crate) handle: Handle,
    pub(crate) log: &'a mut [u8],
    pub(crate) table: &'a mut [u32],
    pub(crate) target: &'a mut [u8],
}

// Bytes behind the used length, whatever they are.
fn raw(log: &mut [u8], used: Used, bytes: &[u8]) -> Result<Used, Refusal> {
    let free = log.get_mut(used.len..).ok_or(Refusal::BadRequest)?;
    let place = free.get_mut(..bytes.len()).ok_or(Refusal::LogFull)?;
    place.copy_from_slice(bytes);
    Ok(Used {
        len: used.len + bytes.len(),
    })
}

impl Lent<'_> {
    fn started(&mut self, start: Start, version: u64) -> Begun {
        let log = &mut *self.log;
        let table = &mut *self.table;
        let used = self.used;
        match start {
            Start::Begin => mvcc::begin(log, used, table),
            Start::ReadOnly => mvcc::begin_read_only(log, used, table),
            Start::AsOf => mvcc::begin_as_of(log, used, table, version),
            Start::Resume => mvcc::resume(log, used, table, self.handle),
        }
    }

    fn looked(&self, look: Look, request: &Request) -> Result<Answer<'_>, Refusal> {
        let log = &*self.log;
        let table = &*self.table;
        let used = self.used;
        let handle = self.handle;
        let key = request.key;
        let after = request.last.is_some();
        let last = request.last.unwrap_or(&[]);
        Ok(match look {
            Look::Get => Answer::value(log, mvcc::get(log, used, table, handle, key)?),
            Look::GetUnversioned => {
                Answer::value(log, mvcc::get_unversioned(log, used, table, key)?)
            }
            Look::EngineGet => Answer::value(log, bitcask::get(log, used, table, key)?),
            Look::Scan => {
                let pair = mvcc::scan_step(
                    log,
                    used,
                    table,
                    handle,
                    request.lower,
                    key,
                    request.upper,
                    request.value,
                    after,
                    last,
                )?;
                Answer::pair(log, pair)
            }
            Look::ScanPrefix => {
                let pair = mvcc::scan_prefix_step(log, used, table, handle, key, after, last)?;
                Answer::pair(log, pair)
            }
            Look::EngineStatus => Answer::Counts(bitcask::status(log, used, table)?),
            Look::Status => Answer::Versions(mvcc::status(log, used, table)?),
        })
    }

    fn changed(&mut self, change: Change, request: &Request) -> Result<Used, Refusal> {
        let log = &mut *self.log;
        let table = &mut *self.table;
        let used = self.used;
        let handle = self.handle;
        let key = request.key;
        let value = request.value;
        match change {
            Change::Set => mvcc::set(log, used, table, handle, key, value),
            Change::Delete => mvcc::delete(log, used, table, handle, key),
            Change::SetUnversioned => mvcc::set_unversioned(log, used, table, key, value),
            Change::Commit => mvcc::commit(log, used, table, handle),
            Change::Rollback => mvcc::rollback(log, used, table, handle),
            Change::Lay => bitcask::set(log, used, table, key, value),
            Change::Cut => bitcask::delete(log, used, table, key),
            Change::Raw => raw(log, used, key),
            Change::Open => bitcask::open(log, used, table),
            Change::Compact => bitcask::compact(log, used, table, self.target),
        }
    }

    // A call that gives no handle gives back the one it was given. What a call that only looks shows with a 0 goes out at once where the
    // caller is loud.
    pub(crate) fn answered(&mut self, call: Call, request: &Request, loud: bool) -> Begun {
        let answer = match call {
            Call::Start(start) => return self.started(start, request.version),
            Call::Change(change) => self.changed(change, request),
            Call::Look(look) => self.looked(look, request).map(|answer| {
                if loud {
                    show(answer);
                }
                self.used
            }),
        };
        Begun {
            answer,
            handle: self.handle,
        }
    }
}
