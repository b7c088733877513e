// What a session knows of its chip, and what follows from it.

#![tactic(auto)]

pub mod array;
pub mod picture;
pub mod protection;
pub mod reading;
