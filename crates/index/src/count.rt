//! Count: how many keys there are.

ghost use Rattle.tree.specs.SoundCalls.{Counts};
ghost use Rattle.tree.specs.Sound.{Sound};
ghost use Rattle.tree.specs.Laws.{Exactly, Kept};
ghost use Rattle.std.specs.Prelude.{◌≡◌, ◌≤◌};
ghost use Rattle.tree.specs.Calls.{count_plan};
ghost use Rattle.tree.specs.Plans.{bare, run, told};
ghost use Rattle.tree.specs.Plans.Plan.{done};
ghost use Rattle.tree.specs.Walks.{with_head};

use crate::reading::{BlockReader, fit_size};
use crate::telling::tell;
use keys::key::Key;
use store::store::{LONGEST, Store};
use tree::refusal::{Refusal, Refused};

/// What the head says.
fn counted<S: Store, K: Key>(reader: &mut BlockReader<S, K>) -> Result<u32, Refusal>
    requires wide { 64 ≤ (S.Store.meaning reader.old.store.now).size }
    ensures counted { run (S.Store.meaning reader.old.store.now) (with_head K.Key.kind (S.Store.meaning reader.old.store.now).count (S.Store.meaning reader.old.store.now).size tt (λ h. done h.key_count)) ≡ (bare result, S.Store.meaning reader.new.store.now) }
    ensures same_store { reader.new.store.ghost_name ≡ reader.old.store.ghost_name }
    ensures same_page { reader.new.page.ghost_name ≡ reader.old.page.ghost_name }
{
    let head = reader.head()?;
    Ok(head.key_count)
}

/// The number of keys, by its plan alone.
fn count_keys<S: Store, K: Key>(store: &mut S) -> Result<u32, Refusal>
    ensures { run (S.Store.meaning store.old) (count_plan K.Key.kind (S.Store.meaning store.old).count (S.Store.meaning store.old).size) ≡ (bare result, S.Store.meaning store.new) }
{
    let size = fit_size(store)?;
    // On the stack: the cabinet has no heap.
    let mut page = [0u8; LONGEST];
    counted::<S, K>(&mut BlockReader::new(store, &mut page[..size as usize], 0))
}

/// The number of keys, with the reads made.
pub fn count<S: Store, K: Key>(store: &mut S) -> Result<(u32, u64), Refused>
    ensures answer { result ≡ told (S.Store.meaning store.old).tally (run (S.Store.meaning store.old) (count_plan K.Key.kind (S.Store.meaning store.old).count (S.Store.meaning store.old).size)) }
    ensures after { S.Store.meaning store.new ≡ (run (S.Store.meaning store.old) (count_plan K.Key.kind (S.Store.meaning store.old).count (S.Store.meaning store.old).size)).1 }
    ensures course { Kept (S.Store.meaning store.old) (count_plan K.Key.kind (S.Store.meaning store.old).count (S.Store.meaning store.old).size) }
    ensures unreadable { Exactly (S.Store.meaning store.old) (count_plan K.Key.kind (S.Store.meaning store.old).count (S.Store.meaning store.old).size) }
    ensures sound { (s : Sound K.Key.kind (S.Store.meaning store.old).count (S.Store.meaning store.old).size (S.Store.meaning store.old).contents) → Counts (S.Store.meaning store.old) s result }
{
    let before = store.tally();
    let answer = count_keys::<S, K>(store);
    tell(store, before, answer)
}
