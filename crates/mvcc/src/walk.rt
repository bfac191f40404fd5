// A scan's walk over rows in the order of their keys, group by group: a group is the versions of one user key. Its answer is the
// first user key that has a value for the handle. Part of toydb's storage/mvcc.rs.
ghost use Rattle.std.specs.Prelude.{◌≡◌};
ghost use Rattle.bitcask.specs.engine.Views.{shown};
ghost use Rattle.bitcask.specs.engine.Spots.{rank};
ghost use Rattle.mvcc.specs.walk.Walks.{same_string, group_answer, later_by, closed_by, spoilt_by, opened_by, within_by, broken_by, next_walk, ended_by, is_over, up_from, step_rows};

use crate::handle::Handle;
use crate::version::{Record, Seen, record_at};
use bitcask::engine::{Spot, View};
use bitcask::{Bound, KeyValue, part};
use keycode::{Part, Refusal, compare};

// Before the first group; within one, with what it says so far and the place of the key that said it; a pair and, behind it, a key
// that does not decode; and past the end of the step.
#[derive(Clone, Copy, Debug, PartialEq, Eq)]
pub enum Walk {
    Start,
    Within(Record),
    Broken(KeyValue),
    Over(Result<KeyValue, Refusal>),
}

fn same_string(log: &[u8], a: Part, b: Part) -> bool
    ensures { result ≡ same_string log.now a b }
{
    compare(part(log, a), part(log, b)).is_eq()
}

// What a step answers that ends behind a group.
fn group_answer(group: Record) -> Result<KeyValue, Refusal>
    ensures { result ≡ group_answer group.key group.seen }
{
    match group.seen {
        Seen::Hidden | Seen::Gone => Err(Refusal::Absent),
        Seen::Bad => Err(Refusal::BadStore),
        Seen::Value(value) => Ok(KeyValue {
            key: group.key,
            value,
        }),
    }
}

// A group with one version more.
fn later(group: Record, new: Record) -> Walk
    ensures { result ≡ later_by group.key group.seen new.key new.seen }
{
    match new.seen {
        Seen::Hidden => Walk::Within(group),
        _ => Walk::Within(new),
    }
}

// A group is past, and the next begins.
fn closed(group: Record, new: Record) -> Walk
    ensures { result ≡ closed_by group.key new.key new.seen group.seen }
{
    match group.seen {
        Seen::Hidden | Seen::Gone => Walk::Within(new),
        Seen::Bad => Walk::Over(Err(Refusal::BadStore)),
        Seen::Value(value) => Walk::Over(Ok(KeyValue {
            key: group.key,
            value,
        })),
    }
}

// A key that does not decode comes behind a group's versions. It is not read where the group gives a pair and none of its versions follows.
fn spoilt(group: Record) -> Walk
    ensures { result ≡ spoilt_by group.key group.seen }
{
    match group.seen {
        Seen::Value(value) => Walk::Broken(KeyValue {
            key: group.key,
            value,
        }),
        _ => Walk::Over(Err(Refusal::BadStore)),
    }
}

fn opened(row: Option<Record>) -> Walk
    ensures { result ≡ opened_by row }
{
    match row {
        None => Walk::Over(Err(Refusal::BadStore)),
        Some(new) => Walk::Within(new),
    }
}

fn within(log: &[u8], group: Record, row: Option<Record>) -> Walk
    ensures { result ≡ within_by log.now group.key group.seen row }
{
    let Some(new) = row else {
        return spoilt(group);
    };
    if same_string(log, group.key, new.key) {
        later(group, new)
    } else {
        closed(group, new)
    }
}

fn broken(log: &[u8], pair: KeyValue, row: Option<Record>) -> Walk
    ensures { result ≡ broken_by log.now pair.key pair.value row }
{
    let Some(new) = row else {
        return Walk::Broken(pair);
    };
    if same_string(log, pair.key, new.key) {
        Walk::Over(Err(Refusal::BadStore))
    } else {
        Walk::Over(Ok(pair))
    }
}

impl Walk {
    // One row more; None of a row whose key is no Version key.
    fn next(self, log: &[u8], row: Option<Record>) -> Walk
        ensures { result ≡ next_walk log.now self row }
    {
        match self {
            Walk::Start => opened(row),
            Walk::Within(group) => within(log, group, row),
            Walk::Broken(pair) => broken(log, pair, row),
            Walk::Over(_) => self,
        }
    }

    // What the step answers where no row follows.
    fn answer(self) -> Result<KeyValue, Refusal>
        ensures { result ≡ ended_by self }
    {
        match self {
            Walk::Start => Err(Refusal::Absent),
            Walk::Within(group) => group_answer(group),
            Walk::Broken(pair) => Ok(pair),
            Walk::Over(answer) => answer,
        }
    }

    // Whether the step's answer is known: it reads no further than that.
    fn is_over(self) -> bool
        ensures { result ≡ is_over self }
    {
        matches!(self, Walk::Over(_))
    }
}

// The rows from a place on, as far as an upper bound admits them or to where the answer is known.
pub(crate) fn step_from(
    view: &View,
    from: Spot,
    upper: Bound,
    high: &[u8],
    handle: Handle,
) -> Result<KeyValue, Refusal>
    ensures { result
        ≡ step_rows handle view.now.log.now (up_from upper high.now (shown view.now) (rank from (shown view.now))) }
{
    let mut walk = Walk::Start;
    let mut at = from;
    while let Some(p) = view.row_from(at, upper, high) {
        let row = record_at(view, p, handle);
        walk = walk.next(view.log, row);
        if walk.is_over() {
            return walk.answer();
        }
        at = view.next(p);
    }
    walk.answer()
}
