//! Blocks that end in a check number: the struct.

/// The blocks of the store below without their last two bytes, which hold a check number.
#[derive(Drop)]
pub struct Check<S> {
    below: S,
    tally: u64,
}

pub mod calls;
mod seal;
