// The two parts as simulated chips.

#![tactic(auto)]

pub mod any;
mod held;
pub mod jw;
pub mod jw_memory;
mod line;
mod memory;
pub mod simulated;
pub mod xa;
pub mod xa_memory;
