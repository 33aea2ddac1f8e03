//! Reading blocks into a page and examining them.

ghost use Rattle.std.specs.Prelude.{◌≡◌, true, false, ◌+◌, ◌*◌, ◌≤◌, length};
ghost use Rattle.index.specs.Readings.{Reading, head_answer, order_after};
ghost use Rattle.store.specs.Calls.{refusal};
ghost use Rattle.store.specs.Meaning.{tallied};
ghost use Rattle.std.specs.Result.{MatchResult};
ghost use Rattle.tree.specs.Heads.{see_head};
ghost use Rattle.tree.specs.Walks.{is_fit};
ghost use Rattle.tree.specs.declared.refusal.Refusal.TheVariants.{Unfit};

use keys::key::Key;
use page::head::{examine_head, is_fit};
use page::node::{flaw, least_entries};
use std::marker::PhantomData;
use store::store::Store;
use tree::head::Head;
use tree::refusal::Refusal;

/// The length of a store's blocks, where it has room for an index.
pub(crate) fn fit_size<S: Store>(store: &S) -> Result<u32, Refusal>
    ensures { MatchResult result (λ s. (s ≡ (S.Store.meaning store.now).size) × (is_fit (S.Store.meaning store.now).count (S.Store.meaning store.now).size ≡ true)) (λ e. (e ≡ Unfit) × (is_fit (S.Store.meaning store.now).count (S.Store.meaning store.now).size ≡ false)) }
{
    let size = store.size();
    if !is_fit(store.count(), size) {
        return Err(Refusal::Unfit);
    }
    Ok(size)
}

/// A store, a page as long as its blocks, and the most entries of a node: what the head says, or 0, of no head yet.
// A number and not an Option: the rooms of a block are counted by it, and 0 asks for none.
#[derive(Drop)]
pub struct BlockReader<'a, S: Store, K: Key> {
    pub(crate) store: &'a mut S,
    pub(crate) page: &'a mut [u8],
    pub(crate) order: u8,
    keys: PhantomData<K>,
    ghost fits: { length page.now ≡ (S.Store.meaning store.now).size },
    ghost room: { 8 + order * (K.Key.kind.width + 4) ≤ (S.Store.meaning store.now).size },
}

// Each function says that both borrows keep their ghost names: by that a caller knows what it has back.
impl<'a, S: Store, K: Key> BlockReader<'a, S, K> {
    /// No block read yet. Where the head is still to be read, `order` is 0.
    pub fn new(store: &'a mut S, page: &'a mut [u8], order: u8) -> BlockReader<'a, S, K>
        requires fits { length page.old ≡ (S.Store.meaning store.old).size }
        requires room { 8 + order * (K.Key.kind.width + 4) ≤ (S.Store.meaning store.old).size }
        ensures same_store { result.store.ghost_name ≡ store.entry.ghost_name }
        ensures same_page { result.page.ghost_name ≡ page.entry.ghost_name }
        ensures store { S.Store.meaning result.store.now ≡ S.Store.meaning store.old }
        ensures page { result.page.now ≡ page.old }
        ensures order { result.order ≡ order }
    {
        BlockReader {
            store,
            page,
            order,
            keys: PhantomData,
        }
    }

    /// The page.
    pub fn page(&self) -> &[u8]
        ensures { result.now ≡ self.now.page.now }
    {
        self.page
    }

    /// Reads the head into the page and examines it.
    // Asked here and not held by the reader, which would ask it of those too who read nodes alone.
    pub fn head(&mut self) -> Result<Head, Refusal>
        requires wide { 64 ≤ (S.Store.meaning self.old.store.now).size }
        ensures answer { result ≡ head_answer (refusal (S.Store.meaning self.old.store.now) 0 (S.Store.meaning self.old.store.now).size) (see_head K.Key.kind (S.Store.meaning self.old.store.now).count (S.Store.meaning self.old.store.now).size ((S.Store.meaning self.old.store.now).contents 0)) }
        ensures after { S.Store.meaning self.new.store.now ≡ tallied (S.Store.meaning self.old.store.now) }
        ensures order { self.new.order ≡ order_after result self.old.order }
        ensures same_store { self.new.store.ghost_name ≡ self.old.store.ghost_name }
        ensures same_page { self.new.page.ghost_name ≡ self.old.page.ghost_name }
    {
        let count = self.store.count();
        self.store.read(0, self.page)?;
        let head = examine_head::<K>(self.page, count)?;
        self.order = head.order;
        Ok(head)
    }

    /// Reads a node into the page and examines it.
    // Booleans, as the definitions have them: a node is a leaf or not, and the first of its way or not.
    pub fn node(&mut self, block: u32, leaf: bool, top: bool) -> Result<(), Refusal>
        ensures read { Reading K.Key.kind leaf (S.Store.meaning self.old.store.now) top self.old.order block self.old.page.now self.new.page.now (S.Store.meaning self.new.store.now) result }
        ensures order { self.new.order ≡ self.old.order }
        ensures same_store { self.new.store.ghost_name ≡ self.old.store.ghost_name }
        ensures same_page { self.new.page.ghost_name ≡ self.old.page.ghost_name }
    {
        let count = self.store.count();
        let page = &mut *self.page;
        self.store.read(block, page)?;
        let low = least_entries(self.order, top, leaf);
        match flaw::<K>(page, leaf, low, self.order, count) {
            Some(rule) => Err(Refusal::Broken(rule, block)),
            None => Ok(()),
        }
    }
}
