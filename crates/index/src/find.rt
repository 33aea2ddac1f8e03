//! Find: the record of a key.

ghost use Rattle.tree.specs.SoundCalls.{Finds};
ghost use Rattle.tree.specs.Sound.{Sound};
ghost use Rattle.std.specs.Prelude.{◌≡◌, ◌≤◌};
ghost use Rattle.tree.specs.Laws.{Exactly, Kept};
ghost use Rattle.tree.specs.Calls.{find_below, find_plan};
ghost use Rattle.tree.specs.Plans.{bare, run, told};
ghost use Rattle.tree.specs.Walks.{with_head};

use crate::reading::{BlockReader, fit_size};
use crate::telling::tell;
use keys::key::Key;
use page::rows::NodeView;
use store::store::{LONGEST, Store};
use tree::refusal::{Refusal, Refused};

/// Reads the head, and from there on to the leaf.
fn find_below<S: Store, K: Key>(
    reader: &mut BlockReader<S, K>,
    key: &K,
) -> Result<Option<u32>, Refusal>
    requires wide { 64 ≤ (S.Store.meaning reader.old.store.now).size }
    ensures found { run (S.Store.meaning reader.old.store.now) (with_head K.Key.kind (S.Store.meaning reader.old.store.now).count (S.Store.meaning reader.old.store.now).size tt (find_below K.Key.kind (S.Store.meaning reader.old.store.now).count (S.Store.meaning reader.old.store.now).size key.now)) ≡ (bare result, S.Store.meaning reader.new.store.now) }
    ensures same_store { reader.new.store.ghost_name ≡ reader.old.store.ghost_name }
    ensures same_page { reader.new.page.ghost_name ≡ reader.old.page.ghost_name }
{
    let head = reader.head()?;
    reader.reach_leaf(key, head.levels, head.root)?;
    Ok(NodeView::of(reader.page()).record(key))
}

/// The record of a key, by its plan alone.
fn find_record<S: Store, K: Key>(store: &mut S, key: &K) -> Result<Option<u32>, Refusal>
    ensures { run (S.Store.meaning store.old) (find_plan K.Key.kind (S.Store.meaning store.old).count (S.Store.meaning store.old).size key.now) ≡ (bare result, S.Store.meaning store.new) }
{
    let size = fit_size(store)?;
    // On the stack: the cabinet has no heap.
    let mut page = [0u8; LONGEST];
    find_below(
        &mut BlockReader::new(store, &mut page[..size as usize], 0),
        key,
    )
}

/// The record of a key, or none, with the reads made.
pub fn find<S: Store, K: Key>(store: &mut S, key: &K) -> Result<(Option<u32>, u64), Refused>
    ensures answer { result ≡ told (S.Store.meaning store.old).tally (run (S.Store.meaning store.old) (find_plan K.Key.kind (S.Store.meaning store.old).count (S.Store.meaning store.old).size key.now)) }
    ensures after { S.Store.meaning store.new ≡ (run (S.Store.meaning store.old) (find_plan K.Key.kind (S.Store.meaning store.old).count (S.Store.meaning store.old).size key.now)).1 }
    ensures course { Kept (S.Store.meaning store.old) (find_plan K.Key.kind (S.Store.meaning store.old).count (S.Store.meaning store.old).size key.now) }
    ensures unreadable { Exactly (S.Store.meaning store.old) (find_plan K.Key.kind (S.Store.meaning store.old).count (S.Store.meaning store.old).size key.now) }
    ensures sound { (s : Sound K.Key.kind (S.Store.meaning store.old).count (S.Store.meaning store.old).size (S.Store.meaning store.old).contents) → Finds (S.Store.meaning store.old) s key.now result }
{
    let before = store.tally();
    let answer = find_record(store, key);
    tell(store, before, answer)
}
