//! A part of the blocks of a store below: the struct.

/// Some blocks of the store below, in their order, numbered anew from 0.
#[derive(Drop)]
pub struct Window<S> {
    below: S,
    start: u32,
    most: u32,
    tally: u64,
}

pub mod calls;
