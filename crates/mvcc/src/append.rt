// What a transaction's write and the unversioned set share: the lengths that they may have, and up to three entries appended, all or none.
pub(crate) mod one;
pub(crate) mod pair;
pub(crate) mod size;
pub(crate) mod three;
