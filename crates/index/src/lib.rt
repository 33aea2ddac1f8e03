//! The calls of the index, over any store and any key kind.
#![tactic(auto)]

pub mod count;
pub mod find;
pub mod format;
mod leaf;
pub mod range;
pub mod reading;
pub mod telling;
