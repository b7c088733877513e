// What a chip is to this project: the values that describe it, the effect of each command, and the interface behind
// which chips stand.

#![tactic(auto)]

pub mod effect;
pub mod interface;
pub mod model;
