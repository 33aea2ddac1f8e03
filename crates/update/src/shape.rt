//! How large the nodes of an index are.

ghost use Rattle.std.specs.Prelude.{◌+◌, ◌*◌, ◌≤◌};

use keys::key::Key;
use std::marker::PhantomData;

/// The bytes of a block, and the most entries of a node.
#[derive(Drop)]
pub struct Shape<K: Key> {
    pub size: usize,
    pub order: u8,
    pub kind: PhantomData<K>,
    ghost least: { 3 ≤ order },
    ghost fits: { 8 + order * (K.Key.kind.width + 4) ≤ size },
    ghost short: { size ≤ 512 },
}
