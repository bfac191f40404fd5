// What a line has asked so far.
use crate::spelling::names::{Call, Edge, Look, Word};
use mvcc::Bound;

// A scan has no words behind it: `first` and `second` are the keys of its bounds.
#[derive(Clone, Copy)]
pub(crate) struct Asked<'a> {
    pub(crate) lower: Bound,
    pub(crate) upper: Bound,
    pub(crate) first: &'a [u8],
    pub(crate) second: &'a [u8],
    pub(crate) last: Option<&'a [u8]>,
}

impl<'a> Asked<'a> {
    pub(crate) fn nothing() -> Self {
        Asked {
            lower: Bound::Unbounded,
            upper: Bound::Unbounded,
            first: &[],
            second: &[],
            last: None,
        }
    }

    // A word and the two behind it, after what was asked before: bounds stay.
    pub(crate) fn take(&mut self, word: Option<Word>, first: &'a [u8], second: &'a [u8]) {
        match word {
            Some(Word::Edge(edge)) => self.set_edge(edge, first),
            Some(Word::Call(Call::Look(Look::Scan))) => {}
            _ => {
                self.first = first;
                self.second = second;
            }
        }
    }

    fn set_edge(&mut self, edge: Edge, key: &'a [u8]) {
        match edge {
            Edge::From => {
                self.lower = Bound::Included;
                self.first = key;
            }
            Edge::Above => {
                self.lower = Bound::Excluded;
                self.first = key;
            }
            Edge::To => {
                self.upper = Bound::Included;
                self.second = key;
            }
            Edge::Below => {
                self.upper = Bound::Excluded;
                self.second = key;
            }
            Edge::After => self.last = Some(key),
        }
    }
}
