//! Keys of an index: what a kind of keys is, and the three kinds.
#![tactic(auto)]

mod bytes;
pub mod key;
pub mod lot;
pub mod moment;
pub mod name;
pub mod rows;
pub mod text;
