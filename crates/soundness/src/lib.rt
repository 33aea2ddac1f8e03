//! What insert and remove do to the tree that a sound file shows: theorems, and no code.
#![tactic(auto)]
