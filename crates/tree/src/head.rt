//! The head of an index file.

/// What block 0 holds besides the letters, the version and the key kind's code.
#[derive(Clone, Copy, PartialEq, Eq, Debug)]
pub struct Head {
    /// The most entries of a node.
    pub order: u8,
    /// The nodes from the root to a leaf.
    pub levels: u8,
    pub root: u32,
    /// The first block of the free list, or 0.
    // A number and no `Option`: 0 is the file's own, and the definitions speak of it.
    pub first_free: u32,
    pub free_count: u32,
    pub key_count: u32,
}
