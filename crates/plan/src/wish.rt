// A wish, and the way it is met.

// How long a wish is to hold.
#[derive(Clone, Copy, Debug, PartialEq, Eq)]
pub enum Term {
    // until power is cycled
    Now,
    // after that too
    Kept,
}

// Just these units are to be protected.
#[derive(Clone, Copy, Debug, PartialEq, Eq)]
pub struct Wish {
    pub set: u64,
    pub term: Term,
}

// The way a wish is met.
// Stays `pub`, though only this crate makes one: the laws over plans go by the route, in crates of their own.
#[derive(Clone, Copy, Debug, PartialEq, Eq)]
pub enum Route {
    // the set is protected already
    Nothing,
    // by the block protection code
    // Stays a number: definitions make routes, and they cannot make a struct with an invariant.
    Settings(u8),
    // by the lock bits
    Locks,
}
