// The words of a script of calls: what a line asks, the numbers and strings that its words spell, and what an answer is written as.
// docs/SCRIPT.md has them all.
pub(crate) mod asked;
pub(crate) mod names;
pub(crate) mod show;
pub(crate) mod spell;
