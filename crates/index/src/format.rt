//! Format: an empty index on all blocks of a store.

ghost use Rattle.std.specs.Prelude.{◌≡◌, ℕ, ◌<◌, ◌≤◌, length, Ok};
ghost use Rattle.tree.specs.SoundCalls.{Empty};
ghost use Rattle.tree.specs.Calls.{format_after, format_plan, formatted, laid, next_free};
ghost use Rattle.tree.specs.Plans.{bare, run, told};

use crate::reading::fit_size;
use crate::telling::tell;
use keys::key::Key;
use page::fill::{fill_empty_leaf, fill_free, fill_head};
use page::head::order_fits;
use store::store::{LONGEST, Store};
use tree::head::Head;
use tree::refusal::{Refusal, Refused};

/// The free block after block b, or 0 after the last.
fn next_free(block: u32, count: u32) -> u32
    requires { (count ≤ 1024) × (block < count) }
    ensures { result ≡ next_free count block }
{
    // 0 is how the file writes that there is none.
    if block + 1 < count { block + 1 } else { 0 }
}

/// Fills the page with what a block holds after a format.
fn fill_block<K: Key>(page: &mut [u8], block: u32, count: u32, order: u8)
    requires { (64 ≤ length page.old) × ((2 ≤ count) × ((count ≤ 1024) × (block < count))) }
    ensures { page.new ≡ formatted K.Key.kind count (length page.old) order block }
{
    if block == 0 {
        let head = Head {
            order,
            levels: 1,
            root: 1,
            first_free: next_free(1, count),
            free_count: count - 2,
            key_count: 0,
        };
        fill_head::<K>(page, &head);
    } else if block == 1 {
        fill_empty_leaf::<K>(page);
    } else {
        fill_free(page, next_free(block, count));
    }
}

/// Writes all blocks, by way of the page.
fn lay<S: Store, K: Key>(store: &mut S, order: u8, page: &mut [u8])
    requires { (length page.old ≡ (S.Store.meaning store.old).size) × ((64 ≤ (S.Store.meaning store.old).size) × (2 ≤ (S.Store.meaning store.old).count)) }
    ensures { S.Store.meaning store.new ≡ laid (S.Store.meaning store.old).count (S.Store.meaning store.old) (formatted K.Key.kind (S.Store.meaning store.old).count (S.Store.meaning store.old).size order) }
{
    let count = store.count();
    for block in 0..count {
        fill_block::<K>(page, block, count, order);
        let _ = store.write(block, page);
    }
}

/// Writes an empty index, where there is room for one.
fn format_blocks<S: Store, K: Key>(store: &mut S, order: u8) -> Result<(), Refusal>
    ensures answer { run (S.Store.meaning store.old) (format_plan K.Key.kind (S.Store.meaning store.old).count (S.Store.meaning store.old).size order) ≡ (bare result, S.Store.meaning store.old) }
    ensures after { S.Store.meaning store.new ≡ format_after K.Key.kind (S.Store.meaning store.old) order }
    ensures tally { (S.Store.meaning store.new).tally ≡ (S.Store.meaning store.old).tally }
{
    let size = fit_size(store)?;
    if !order_fits::<K>(order, size as usize) {
        return Err(Refusal::Unfit);
    }
    // On the stack: the cabinet has no heap.
    let mut page = [0u8; LONGEST];
    lay::<S, K>(store, order, &mut page[0..size as usize]);
    Ok(())
}

/// Makes an empty index of nodes of at most `order` entries. It reads nothing.
pub fn format<S: Store, K: Key>(store: &mut S, order: u8) -> Result<((), u64), Refused>
    ensures answer { result ≡ told (S.Store.meaning store.old).tally (run (S.Store.meaning store.old) (format_plan K.Key.kind (S.Store.meaning store.old).count (S.Store.meaning store.old).size order)) }
    ensures after { S.Store.meaning store.new ≡ format_after K.Key.kind (S.Store.meaning store.old) order }
    ensures sound { (i : ℕ) → result ≡ Ok (tt, i) → Empty K.Key.kind (S.Store.meaning store.new) }
{
    let before = store.tally();
    let answer = format_blocks::<S, K>(store, order);
    tell(store, before, answer)
}
