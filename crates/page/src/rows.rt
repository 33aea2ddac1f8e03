//! A node's entries, one after another in its block, gone through from the front.

ghost use Rattle.std.specs.Prelude.{◌≡◌, ◌+◌, ◌*◌, ◌≤◌, length, take, drop};
ghost use Rattle.std.specs.Iterator.Adapters.{take_count, take_source};
ghost use Rattle.std.specs.Slice.Iter.{chunks_exact_rest, chunks_exact_size};
ghost use Rattle.page.specs.Rows.{kid_at, kids_within, place_at, record_at};
ghost use Rattle.store.specs.Bytes.{Bytes};
ghost use Rattle.tree.specs.Entries.{key_of, number_of};
ghost use Rattle.tree.specs.Fields.{u8_at, u32_at};

use crate::fields::number_at;
use crate::node::ENTRIES;
use keys::key::Key;
use std::iter::Take;
use std::marker::PhantomData;
use std::slice::ChunksExact;

/// The bytes of an entry's number.
pub const NUMBER: usize = 4;

/// Entries one after another, and how many of them there are.
#[derive(Drop)]
pub struct Entries<'a, K: Key> {
    pub(crate) rows: &'a [u8],
    pub(crate) count: usize,
    keys: PhantomData<K>,
    ghost whole: { count * (K.Key.kind.width + 4) ≤ length rows.now },
}

impl<'a, K: Key> Entries<'a, K> {
    /// The first `count` entries in bytes that have room for them.
    pub fn of(rows: &'a [u8], count: usize) -> Entries<'a, K>
        requires { count * (K.Key.kind.width + 4) ≤ length rows.now }
        ensures rows { result.rows.now ≡ rows.now }
        ensures count { result.count ≡ count }
    {
        Entries {
            rows,
            count,
            keys: PhantomData,
        }
    }

    /// The bytes of each entry, cut from all the bytes that were lent.
    pub fn each(&self) -> Take<ChunksExact<'a, u8>>
        ensures size { chunks_exact_size (take_source result) ≡ K.Key.kind.width + 4 }
        ensures count { take_count result ≡ self.now.count }
        ensures rest { chunks_exact_rest (take_source result) ≡ self.now.rows.now }
    {
        let size = K::key_width() + NUMBER;
        self.rows.chunks_exact(size).take(self.count)
    }

    /// The bytes of each entry, cut from bytes that end with the last.
    // What is left says when to stop: the count that `each` keeps beside it would be tested at each entry too.
    pub fn each_to_last(&self) -> ChunksExact<'a, u8>
        ensures size { chunks_exact_size result ≡ K.Key.kind.width + 4 }
        ensures count { length (chunks_exact_rest result) ≡ self.now.count * (K.Key.kind.width + 4) }
        ensures rest { chunks_exact_rest result ≡ take (self.now.count * (K.Key.kind.width + 4)) self.now.rows.now }
    {
        let size = K::key_width() + NUMBER;
        self.rows[..self.count * size].chunks_exact(size)
    }

    /// Whether the numbers of the entries are blocks past the head.
    pub fn all_blocks(&self, count: u32) -> bool
        ensures { result ≡ kids_within K.Key.kind count self.now.count self.now.rows.now }
    {
        for entry in self.each_to_last() {
            let block = entry_number::<K>(entry);
            if block < 1 || block >= count {
                return false;
            }
        }
        true
    }

    /// The child for a key, where `first` is the child before the entries.
    pub fn child(&self, first: u32, key: &K) -> u32
        ensures { result ≡ kid_at K.Key.kind key.now first self.now.count self.now.rows.now }
    {
        let mut child = first;
        for entry in self.each_to_last() {
            let Some(k) = entry_key::<K>(entry) else {
                return child;
            };
            if *key < k {
                return child;
            }
            child = entry_number::<K>(entry);
        }
        child
    }

    /// How many entries are up to a key.
    pub fn place(&self, key: &K) -> usize
        ensures { result ≡ place_at K.Key.kind key.now 0 self.now.count self.now.rows.now }
    {
        for (i, entry) in self.each_to_last().enumerate() {
            let Some(k) = entry_key::<K>(entry) else {
                return i;
            };
            if *key < k {
                return i;
            }
        }
        self.count
    }

    /// The record of a key.
    pub fn record(&self, key: &K) -> Option<u32>
        ensures { result ≡ record_at K.Key.kind key.now self.now.count self.now.rows.now }
    {
        for entry in self.each_to_last() {
            let k = entry_key::<K>(entry)?;
            // Two tests and no `cmp`, which would put its three answers together at each entry.
            if k < *key {
                continue;
            }
            if *key < k {
                return None;
            }
            return Some(entry_number::<K>(entry));
        }
        None
    }
}

/// A node where it stands, in a block that has room for its entries.
#[derive(Drop)]
pub struct NodeView<'a, K: Key> {
    pub(crate) page: &'a [u8],
    keys: PhantomData<K>,
    ghost whole: { 8 + u8_at 1 page.now * (K.Key.kind.width + 4) ≤ length page.now },
    ghost bytes: { Bytes page.now },
}

impl<'a, K: Key> NodeView<'a, K> {
    /// The node in a block.
    pub fn of(page: &'a [u8]) -> NodeView<'a, K>
        requires { 8 + u8_at 1 page.now * (K.Key.kind.width + 4) ≤ length page.now }
        ensures { result.page.now ≡ page.now }
    {
        NodeView {
            page,
            keys: PhantomData,
        }
    }

    /// A leaf's next leaf, or an inner node's first child.
    pub fn link(&self) -> u32
        ensures { result ≡ u32_at 4 self.now.page.now }
    {
        number_at::<4>(self.page, 4)
    }

    /// The entries, as many as the count says.
    pub fn entries(&self) -> Entries<'a, K>
        ensures rows { result.rows.now ≡ drop 8 self.now.page.now }
        ensures count { result.count ≡ u8_at 1 self.now.page.now }
    {
        let (_, rows) = self.page.split_at(ENTRIES);
        Entries::of(rows, self.page[1] as usize)
    }

    /// The child for a key.
    pub fn child(&self, key: &K) -> u32
        ensures { result ≡ kid_at K.Key.kind key.now (u32_at 4 self.now.page.now) (u8_at 1 self.now.page.now) (drop 8 self.now.page.now) }
    {
        self.entries().child(self.link(), key)
    }

    /// How many entries are up to a key.
    pub fn place(&self, key: &K) -> usize
        ensures { result ≡ place_at K.Key.kind key.now 0 (u8_at 1 self.now.page.now) (drop 8 self.now.page.now) }
    {
        self.entries().place(key)
    }

    /// The record of a key.
    pub fn record(&self, key: &K) -> Option<u32>
        ensures { result ≡ record_at K.Key.kind key.now (u8_at 1 self.now.page.now) (drop 8 self.now.page.now) }
    {
        self.entries().record(key)
    }
}

/// The key of an entry, which may have bytes after it.
pub fn entry_key<K: Key>(entry: &[u8]) -> Option<K>
    requires { K.Key.kind.width + 4 ≤ length entry.now }
    ensures { result ≡ key_of K.Key.kind entry.now }
{
    K::read(&entry[..K::key_width()])
}

/// The number of an entry, which may have bytes after it.
pub fn entry_number<K: Key>(entry: &[u8]) -> u32
    requires { K.Key.kind.width + 4 ≤ length entry.now }
    ensures { result ≡ number_of K.Key.kind entry.now }
{
    number_at::<4>(entry, K::key_width())
}
