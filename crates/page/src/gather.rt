//! The entries of a leaf from one key to another, copied into a buffer.

ghost use Rattle.std.specs.Prelude.{◌≡◌, ℕ, ◌+◌, ◌*◌, ◌≤◌, true, length, drop};
ghost use Rattle.page.specs.Gathers.{Gathered, gather_on};
ghost use Rattle.tree.specs.Fields.{u8_at};
ghost use Rattle.tree.specs.Nodes.{Node, see_node};
ghost use Rattle.tree.specs.Nodes.Seen.{right};

use crate::rows::{NUMBER, NodeView, entry_key};
use keys::key::Key;
use store::bytes::overlay;

/// Copies the entries that are from `lo` to `hi`, until one does not fit.
// Apart from `gather`: here the walk over the bytes is proved, there what it means for a leaf that keeps the rules.
// Two keys side by side, as `range` takes them: a struct of both would be made for one call and taken apart at each comparison.
// A buffer and how many entries stand in it: the caller's memory is filled leaf by leaf, and there is no heap.
fn gather_rows<K: Key>(
    node: &NodeView<K>,
    lo: &K,
    hi: &K,
    buffer: &mut [u8],
    taken: usize,
) -> (usize, Option<bool>)
    requires fits { taken * (K.Key.kind.width + 4) ≤ length buffer.old }
    ensures walked { (result.0, result.1, buffer.new) ≡ gather_on K.Key.kind lo.now hi.now (u8_at 1 node.now.page.now) (drop 8 node.now.page.now) taken buffer.old }
    ensures within { result.0 * (K.Key.kind.width + 4) ≤ length buffer.new }
{
    let size = K::key_width() + NUMBER;
    let mut number = taken;
    for entry in node.entries().each_to_last() {
        let Some(k) = entry_key::<K>(entry) else {
            return (number, None);
        };
        if k < *lo {
            continue;
        }
        if *hi < k {
            return (number, Some(false));
        }
        let at = number * size;
        if buffer.len() - at < size {
            return (number, Some(true));
        }
        overlay(buffer, at, entry);
        number += 1;
    }
    (number, None)
}

/// Copies the entries of a leaf from `lo` to `hi` into the buffer, after those that stand there already.
/// Answers how many stand there then, and how the range ends: with more to come, without, or not in this leaf.
// Both are answers: the number stands wherever the range ends.
pub fn gather<K: Key>(
    leaf: &NodeView<K>,
    lo: &K,
    hi: &K,
    buffer: &mut [u8],
    taken: usize,
) -> (usize, Option<bool>)
    requires { taken * (K.Key.kind.width + 4) ≤ length buffer.old }
    ensures gathered { (n m low : ℕ) (d : Node K) → see_node K.Key.kind n m true low leaf.now.page.now ≡ right d → Gathered K.Key.kind lo.now hi.now d taken buffer.old result buffer.new }
    ensures within { result.0 * (K.Key.kind.width + 4) ≤ length buffer.new }
{
    gather_rows(leaf, lo, hi, buffer, taken)
}
