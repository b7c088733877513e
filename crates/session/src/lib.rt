// A session over any chip.

#![tactic(auto)]

mod asking;
mod look;
mod rest;
mod send;
mod session;

pub use session::Session;
