// Wishes, and the commands that meet them.

#![tactic(auto)]

mod choose;
mod commands;
mod planner;
mod sink;
pub mod wish;

pub use planner::plan;
