//! The way from the root to the leaf of a key.

ghost use Rattle.std.specs.Prelude.{◌≡◌, ◌-◌, ◌≤◌};
ghost use Rattle.index.specs.Leaves.{Reached};

use crate::reading::BlockReader;
use keys::key::Key;
use page::rows::NodeView;
use store::store::Store;
use tree::refusal::Refusal;

impl<'a, S: Store, K: Key> BlockReader<'a, S, K> {
    /// Goes from the root to the leaf of a key, which then stands in the page.
    pub(crate) fn reach_leaf(&mut self, key: &K, levels: u8, root: u32) -> Result<(), Refusal>
        requires { 1 ≤ levels }
        ensures reached { Reached K.Key.kind (S.Store.meaning self.old.store.now) self.old.order key.now (levels - 1) root result self.new.page.now (S.Store.meaning self.new.store.now) }
        ensures size { (S.Store.meaning self.new.store.now).size ≡ (S.Store.meaning self.old.store.now).size }
        ensures count { (S.Store.meaning self.new.store.now).count ≡ (S.Store.meaning self.old.store.now).count }
        ensures order { self.new.order ≡ self.old.order }
        ensures same_store { self.new.store.ghost_name ≡ self.old.store.ghost_name }
        ensures same_page { self.new.page.ghost_name ≡ self.old.page.ghost_name }
    {
        let mut block = root;
        let mut top = true;
        for _level in 1..levels {
            self.node(block, false, top)?;
            block = NodeView::of(self.page()).child(key);
            top = false;
        }
        self.node(block, true, top)
    }
}
