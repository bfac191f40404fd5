// The words of a script that ask for something.

// What sets a scan's bounds, and the key given last.
#[derive(Clone, Copy, Debug, PartialEq, Eq)]
pub(crate) enum Edge {
    From,
    Above,
    To,
    Below,
    After,
}

// The sizes that are lent, the used length, the hand that calls take their handle from, and the handle in it.
#[derive(Clone, Copy, Debug, PartialEq, Eq)]
pub(crate) enum Setting {
    Room,
    Short,
    Words,
    Slots,
    Used,
    Target,
    Hand,
    Writer,
    Reader,
    With,
    Count,
}

// The calls that give a handle.
#[derive(Clone, Copy, Debug, PartialEq, Eq)]
pub(crate) enum Start {
    Begin,
    ReadOnly,
    AsOf,
    Resume,
}

// The calls that only look.
#[derive(Clone, Copy, Debug, PartialEq, Eq)]
pub(crate) enum Look {
    Get,
    GetUnversioned,
    Scan,
    ScanPrefix,
    Status,
    EngineGet,
    EngineStatus,
}

// The calls that change the store. The engine's own set and delete lay records of any kind, raw bytes go behind the log with no table;
// an opening takes the table from the log anew.
#[derive(Clone, Copy, Debug, PartialEq, Eq)]
pub(crate) enum Change {
    Set,
    Delete,
    SetUnversioned,
    Commit,
    Rollback,
    Lay,
    Cut,
    Raw,
    Open,
    Compact,
}

#[derive(Clone, Copy, Debug, PartialEq, Eq)]
pub(crate) enum Call {
    Start(Start),
    Look(Look),
    Change(Change),
}

#[derive(Clone, Copy, Debug, PartialEq, Eq)]
pub(crate) enum Word {
    Edge(Edge),
    Setting(Setting),
    Call(Call),
}

const EDGES: [(&[u8], Edge); 5] = [
    (b"from", Edge::From),
    (b"above", Edge::Above),
    (b"to", Edge::To),
    (b"below", Edge::Below),
    (b"after", Edge::After),
];

const SETTINGS: [(&[u8], Setting); 11] = [
    (b"room", Setting::Room),
    (b"short", Setting::Short),
    (b"words", Setting::Words),
    (b"slots", Setting::Slots),
    (b"used", Setting::Used),
    (b"target", Setting::Target),
    (b"hand", Setting::Hand),
    (b"writer", Setting::Writer),
    (b"reader", Setting::Reader),
    (b"with", Setting::With),
    (b"count", Setting::Count),
];

const CALLS: [(&[u8], Call); 21] = [
    (b"begin", Call::Start(Start::Begin)),
    (b"read-only", Call::Start(Start::ReadOnly)),
    (b"as-of", Call::Start(Start::AsOf)),
    (b"resume", Call::Start(Start::Resume)),
    (b"get", Call::Look(Look::Get)),
    (b"get-unversioned", Call::Look(Look::GetUnversioned)),
    (b"scan", Call::Look(Look::Scan)),
    (b"scan-prefix", Call::Look(Look::ScanPrefix)),
    (b"status", Call::Look(Look::Status)),
    (b"engine-get", Call::Look(Look::EngineGet)),
    (b"engine-status", Call::Look(Look::EngineStatus)),
    (b"set", Call::Change(Change::Set)),
    (b"delete", Call::Change(Change::Delete)),
    (b"set-unversioned", Call::Change(Change::SetUnversioned)),
    (b"commit", Call::Change(Change::Commit)),
    (b"rollback", Call::Change(Change::Rollback)),
    (b"lay", Call::Change(Change::Lay)),
    (b"cut", Call::Change(Change::Cut)),
    (b"raw", Call::Change(Change::Raw)),
    (b"open", Call::Change(Change::Open)),
    (b"compact", Call::Change(Change::Compact)),
];

fn named<T: Copy>(list: &[(&[u8], T)], name: &[u8]) -> Option<T> {
    let entry = list.iter().find(|(text, _)| *text == name)?;
    Some(entry.1)
}

pub(crate) fn word_of(name: &[u8]) -> Option<Word> {
    let edge = named(&EDGES, name).map(Word::Edge);
    let setting = named(&SETTINGS, name).map(Word::Setting);
    let call = named(&CALLS, name).map(Word::Call);
    edge.or(setting).or(call)
}
