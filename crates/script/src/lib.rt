// A script of calls, run: each line is written again with what its last call answered. docs/SCRIPT.md has the words.
#![tactic(auto)]

mod calls;
mod input;
mod lines;
mod run;
mod setting;
mod spelling;
mod store;

pub use input::run_input;
