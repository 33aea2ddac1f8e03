//! Numbers and bytes as text.
#![tactic(auto)]

pub mod decimal;
pub mod hex;
