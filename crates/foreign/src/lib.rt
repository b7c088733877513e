// A chip with a part number that is not known, to try sessions on: it keeps what such a chip owes, which is its
// number, the count of its cable, /WP and SR1, and behaves as it likes in all else.

#![tactic(auto)]

pub mod chip_of_another_part;
mod memory;
#[cfg(test)]
mod tests;
