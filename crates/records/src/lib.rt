// The records of a sheet: which fields a line has, and what they say.

#![tactic(auto)]

pub mod record;
pub mod values;
