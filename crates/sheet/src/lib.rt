// A sheet of records, run from start to end.

#![tactic(auto)]

mod answers;
mod bench;
mod runs;

pub use runs::{Unfinished, run};
