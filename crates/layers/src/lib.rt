//! Stores made of the blocks of a store below: a part of them, and blocks with check numbers.
#![tactic(auto)]

pub mod check;
pub mod window;
