// Wishes tried on the simulated parts.

#![tactic(auto)]

#[cfg(test)]
mod refusing;
#[cfg(test)]
mod tests;
#[cfg(test)]
mod wishing;
