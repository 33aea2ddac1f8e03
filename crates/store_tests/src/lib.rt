//! Examples of the stores and layers at work.
#![tactic(auto)]

#[cfg(test)]
mod tests;
