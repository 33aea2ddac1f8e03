//! Nodes that take one entry more, split where that is too many.

ghost use Rattle.std.specs.Prelude.{◌≡◌, ℕ, ◌+◌, ◌≤◌, cond, List, [], ◌∷◌, ◌++◌, length, drop, nat_le};
ghost use Rattle.keys.specs.Bytes.{big_endian};
ghost use Rattle.tree.specs.Entries.{write_entries};
ghost use Rattle.tree.specs.Fields.{padded};
ghost use Rattle.tree.specs.Inserts.{grow_leaf};
ghost use Rattle.tree.specs.Nodes.{tag_of};
ghost use Rattle.update.specs.Batches.{stacked};
ghost use Rattle.update.specs.Memory.{Sprung};

use crate::batch::Batch;
use crate::growth::Growth;
use crate::rows::Row;
use crate::shape::Shape;
use keys::key::Key;
use page::fill::{Image, fill_node};
use store::store::LONGEST;

/// A node to be written.
pub fn push_node(batch: &mut Batch, size: usize, block: u32, image: &Image)
    requires fits { 8 + length image.now.entries.now ≤ size }
    requires short { size ≤ 512 }
    requires room { length batch.old + 1 ≤ 24 }
    ensures pushed { stacked batch.new size ≡ (block, padded size (tag_of image.now.leaf ∷ image.now.count ∷ 0 ∷ 0 ∷ (big_endian 4 image.now.link ++ image.now.entries.now))) ∷ stacked batch.old size }
    ensures len { length batch.new ≡ length batch.old + 1 }
{
    // On the stack: the cabinet has no heap.
    let mut page = [0; LONGEST];
    fill_node(&mut page[..size], image);
    batch.push(block, &page);
}

/// A leaf of the entries in the row, or two where they are too many. Answers the key and the block that go up, where it was split.
fn grow_leaf<K: Key>(
    growth: &mut Growth,
    shape: &Shape<K>,
    block: u32,
    link: u32,
    row: &Row<K>,
) -> Option<(K, u32)>
    requires count { row.now.count ≤ shape.now.order + 1 }
    requires room { length growth.old.batch + 2 ≤ 24 }
    ensures grown { (n : ℕ) (es : List (K × ℕ)) → row.now.bytes.now ≡ write_entries K.Key.kind es → length es ≡ row.now.count → stacked growth.old.batch shape.now.size ≡ [] → Sprung shape.now.size (grow_leaf K.Key.kind n shape.now.size shape.now.order block link es growth.old.spare) growth.new result }
    ensures len { length growth.new.batch ≤ length growth.old.batch + 2 }
    ensures rest { growth.new.rest ≡ growth.old.rest }
    ensures spare { growth.new.spare ≡ cond (nat_le row.now.count shape.now.order) growth.old.spare (drop 1 growth.old.spare) }
{
    if row.count <= shape.order as usize {
        push_node(&mut growth.batch, shape.size, block, &row.leaf(link));
        return None;
    }
    let new = growth.spare.next();
    let (front, back) = row.split_at((shape.order as usize + 2) / 2);
    push_node(&mut growth.batch, shape.size, new, &back.leaf(link));
    push_node(&mut growth.batch, shape.size, block, &front.leaf(new));
    // a row of entries begins with a key that can be read
    K::read(&back.bytes[..K::key_width()]).map(|key| (key, new))
}
