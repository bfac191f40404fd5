// What the engine calls answer.
use keycode::Part;

// One end of a scan.
#[derive(Clone, Copy, Debug, PartialEq, Eq)]
pub enum Bound {
    Included,
    Excluded,
    Unbounded,
}

// The places of a key and its value in the log.
#[derive(Clone, Copy, Debug, PartialEq, Eq)]
pub struct KeyValue {
    pub key: Part,
    pub value: Part,
}
