//! The calls that change an index, over any store and any key kind.
#![tactic(auto)]

pub mod batch;
pub mod free;
pub mod grow;
pub mod growth;
pub mod rows;
pub mod shape;
pub mod spare;
