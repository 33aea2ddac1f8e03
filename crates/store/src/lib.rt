//! Stores of numbered blocks: what a store is, and two that keep blocks.
#![tactic(auto)]

pub mod bench;
pub mod bytes;
pub mod fault;
pub mod plain;
pub mod store;
