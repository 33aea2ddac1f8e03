//! What an index file and the calls on it mean.
#![tactic(auto)]

pub mod cases;
pub mod head;
pub mod refusal;
pub mod rule;
