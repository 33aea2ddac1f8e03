//! Whole blocks written out: the head, a node, a free block.

ghost use Rattle.std.specs.Prelude.{◌≡◌, ◌+◌, ◌≤◌, true, [], ◌∷◌, ◌++◌, length};
ghost use Rattle.keys.specs.Bytes.{big_endian};
ghost use Rattle.page.specs.Tags.{byte_of};
ghost use Rattle.tree.specs.Fields.{padded};
ghost use Rattle.tree.specs.Heads.{write_head};
ghost use Rattle.tree.specs.Nodes.{tag_of, write_free, write_node};

use crate::fields::number_bytes;
use crate::head::VERSION;
use crate::node::ENTRIES;
use crate::tag::Tag;
use keys::key::Key;
use tree::head::Head;

/// Puts bytes at the front of the page, and zeros after them.
fn put_front(page: &mut [u8], front: &[u8])
    requires { length front.now ≤ length page.old }
    ensures { page.new ≡ padded (length page.old) front.now }
{
    let (start, rest) = page.split_at_mut(front.len());
    start.copy_from_slice(front);
    rest.fill(0);
}

/// Fills the page with a head.
pub fn fill_head<K: Key>(page: &mut [u8], head: &Head)
    requires { 18 ≤ length page.old }
    ensures { page.new ≡ write_head K.Key.kind (length page.old) head.now }
{
    let mut front = [0; 18];
    front[0..3].copy_from_slice(b"PIX");
    front[3..5].copy_from_slice(&number_bytes::<2>(VERSION));
    front[5] = K::key_code();
    front[6] = head.order;
    front[7] = head.levels;
    front[8..10].copy_from_slice(&number_bytes::<2>(head.root));
    front[10..12].copy_from_slice(&number_bytes::<2>(head.first_free));
    front[12..14].copy_from_slice(&number_bytes::<2>(head.free_count));
    front[14..18].copy_from_slice(&number_bytes::<4>(head.key_count));
    put_front(page, &front);
}

/// Fills the page with a tag, a count, a link and the bytes of entries.
fn put_block(page: &mut [u8], tag: Tag, count: u8, link: u32, entries: &[u8])
    requires { 8 + length entries.now ≤ length page.old }
    ensures { page.new ≡ padded (length page.old) (byte_of tag ∷ count ∷ 0 ∷ 0 ∷ (big_endian 4 link ++ entries.now)) }
{
    let [a, b, c, d] = number_bytes::<4>(link);
    let (start, rest) = page.split_at_mut(ENTRIES);
    start.copy_from_slice(&[tag as u8, count, 0, 0, a, b, c, d]);
    put_front(rest, entries);
}

/// Fills the page with a leaf of no entries and no next leaf.
#[tactic(auto, unfolding(tree::specs::Entries::write_entries))]
pub fn fill_empty_leaf<K: Key>(page: &mut [u8])
    requires { 8 ≤ length page.old }
    ensures { page.new ≡ write_node K.Key.kind (length page.old) true (record { link = 0; entries = [] }) }
{
    put_block(page, Tag::Leaf, 0, 0, &[]);
}

/// What a node's block is to show, its entries in bytes.
// A boolean and two numbers, as they stand in the block: 0 in the link is how the file writes that there is none, and
// the count is not the entries' length, which is counted by a width that is known at run time alone.
#[derive(Clone, Copy)]
pub struct Image<'a> {
    pub leaf: bool,
    pub count: u8,
    pub link: u32,
    pub entries: &'a [u8],
}

/// Fills the page with a node.
pub fn fill_node(page: &mut [u8], image: &Image)
    requires { 8 + length image.now.entries.now ≤ length page.old }
    ensures { page.new ≡ padded (length page.old) (tag_of image.now.leaf ∷ image.now.count ∷ 0 ∷ 0 ∷ (big_endian 4 image.now.link ++ image.now.entries.now)) }
{
    let tag = Tag::of_node(image.leaf);
    put_block(page, tag, image.count, image.link, image.entries);
}

/// Fills the page with a free block.
pub fn fill_free(page: &mut [u8], link: u32)
    requires { 8 ≤ length page.old }
    ensures { page.new ≡ write_free (length page.old) link }
{
    put_block(page, Tag::Free, 0, link, &[]);
}
