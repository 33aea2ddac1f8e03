//! One block's bytes: the head, a node, a free block.
#![tactic(auto)]

pub mod fields;
pub mod fill;
pub mod gather;
pub mod head;
pub mod node;
pub mod rows;
pub mod tag;
