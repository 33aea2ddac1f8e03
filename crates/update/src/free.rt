//! Blocks of the free list, read and examined.

ghost use Rattle.std.specs.Prelude.{◌≡◌, ℕ, ◌≤◌, [], length, None, Ok};
ghost use Rattle.store.specs.Calls.{refusal};
ghost use Rattle.store.specs.Meaning.{tallied};
ghost use Rattle.tree.specs.Nodes.{see_free};
ghost use Rattle.update.specs.Frees.{FreesRead, free_answer, frees_seen};

use crate::spare::Spare;
use keys::key::Key;
use page::fields::number_at;
use page::tag::Tag;
use store::store::Store;
use tree::refusal::Refusal;
use tree::rule::Rule;

/// The block after a free block, where the page shows one that keeps rules 2, 3 and 5.
fn examine_free(page: &[u8], block: u32, count: u32) -> Result<u32, Refusal>
    requires { 8 ≤ length page.now }
    ensures { result ≡ free_answer None block (see_free count page.now) }
{
    if page[0] != Tag::Free as u8 {
        return Err(Refusal::Broken(Rule::Tag, block));
    }
    if page[1] != 0 {
        return Err(Refusal::Broken(Rule::Count, block));
    }
    let link = number_at::<4>(page, 4);
    if link >= count {
        return Err(Refusal::Broken(Rule::Links, block));
    }
    Ok(link)
}

/// Reads a free block into the page, examines it, and answers the block after it.
// The store and the page side by side, as `lay` of `index` takes them: the reader, made of both, reads heads and nodes, and a free block is neither.
fn read_free<S: Store>(store: &mut S, block: u32, page: &mut [u8]) -> Result<u32, Refusal>
    requires { (length page.old ≡ (S.Store.meaning store.old).size) × (64 ≤ (S.Store.meaning store.old).size) }
    ensures answer { result ≡ free_answer (refusal (S.Store.meaning store.old) block (S.Store.meaning store.old).size) block (see_free (S.Store.meaning store.old).count ((S.Store.meaning store.old).contents block)) }
    ensures after { S.Store.meaning store.new ≡ tallied (S.Store.meaning store.old) }
{
    let count = store.count();
    store.read(block, page)?;
    examine_free(page, block, count)
}

/// Reads `need` blocks of the free list from `first` on, by way of the page, and answers the block after them.
/// On a refusal too the spare blocks are those that were read and examined before it.
pub fn read_frees<S: Store, K: Key>(
    store: &mut S,
    need: usize,
    first: u32,
    page: &mut [u8],
    spare: &mut Spare,
) -> Result<u32, Refusal>
    requires page { length page.old ≡ (S.Store.meaning store.old).size }
    requires size { 64 ≤ (S.Store.meaning store.old).size }
    requires few { need ≤ 12 }
    requires empty { spare.old ≡ [] }
    ensures read { FreesRead K.Key.kind (S.Store.meaning store.old) need first result spare.new (S.Store.meaning store.new) }
    ensures spare { spare.new ≡ frees_seen (S.Store.meaning store.old) need first }
    ensures len { (rest : ℕ) → result ≡ Ok rest → length spare.new ≡ need }
{
    let mut block = first;
    for _i in 0..need {
        // 0 is how the file writes that there is none.
        if block == 0 {
            return Err(Refusal::Broken(Rule::FreeList, 0));
        }
        let next = read_free(store, block, page)?;
        spare.push(block);
        block = next;
    }
    Ok(block)
}
