//! Rows of entries in memory.

ghost use Rattle.std.specs.Prelude.{◌≡◌, ◌+◌, ◌-◌, ◌*◌, ◌≤◌, true, ◌++◌, length, take, drop};

use keys::key::Key;
use page::fill::Image;
use page::rows::NUMBER;
use std::marker::PhantomData;
use store::bytes::overlay;

/// Entries of a node, one after another in bytes.
// The count is held: an entry's width is known at run time alone, so no slice of entries can have their number as its length.
#[derive(Drop)]
pub struct Row<'a, K: Key> {
    pub bytes: &'a [u8],
    pub count: usize,
    pub kind: PhantomData<K>,
    ghost whole: { length bytes.now ≡ count * (K.Key.kind.width + 4) },
}

impl<'a, K: Key> Row<'a, K> {
    /// The entries as a leaf's.
    pub(crate) fn leaf(&self, link: u32) -> Image<'a>
        requires { self.now.count ≤ 255 }
        ensures { result ≡ record { leaf = true; count = self.now.count; link = link; entries = self.now.bytes } }
    {
        Image {
            leaf: true,
            count: self.count as u8,
            link,
            entries: self.bytes,
        }
    }

    /// The first entries, and the others.
    pub(crate) fn split_at(&self, count: usize) -> (Row<'a, K>, Row<'a, K>)
        requires { count ≤ self.now.count }
        ensures front { result.0.bytes.now ≡ take (count * (K.Key.kind.width + 4)) self.now.bytes.now }
        ensures back { result.1.bytes.now ≡ drop (count * (K.Key.kind.width + 4)) self.now.bytes.now }
        ensures front_count { result.0.count ≡ count }
        ensures back_count { result.1.count ≡ self.now.count - count }
    {
        let (front, back) = self.bytes.split_at(count * (K::key_width() + NUMBER));
        (
            Row {
                bytes: front,
                count,
                kind: PhantomData,
            },
            Row {
                bytes: back,
                count: self.count - count,
                kind: PhantomData,
            },
        )
    }
}

/// Fills the row with three parts, one after another.
pub fn join(row: &mut [u8], front: &[u8], middle: &[u8], back: &[u8])
    requires { length front.now + (length middle.now + length back.now) ≡ length row.old }
    ensures { row.new ≡ front.now ++ (middle.now ++ back.now) }
{
    overlay(row, 0, front);
    overlay(row, front.len(), middle);
    overlay(row, front.len() + middle.len(), back);
}
