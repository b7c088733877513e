// The text of a sheet: lines parted by a line feed, fields of a line parted by a tab, words and numbers.
//
// Nothing here knows what a line means. Each reader answers for every input, and tells a refusal with its place in
// the line.

#![tactic(auto)]

pub mod fields;
pub mod lines;
pub mod numbers;
mod scan;
