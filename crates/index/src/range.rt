//! Range: the entries from one key to another.

ghost use Rattle.std.specs.Prelude.{◌≡◌, ◌+◌, ◌-◌, ◌*◌, ◌/◌, ◌≤◌, [], length};
ghost use Rattle.index.specs.Leaves.{Leaf};
ghost use Rattle.index.specs.Rangings.{RangeEnd};
ghost use Rattle.store.specs.Bytes.{overlaid};
ghost use Rattle.tree.specs.Entries.{write_entries};
ghost use Rattle.tree.specs.Fields.{u8_at};
ghost use Rattle.tree.specs.Laws.{Exactly, Kept};
ghost use Rattle.tree.specs.Nodes.{Node};
ghost use Rattle.tree.specs.Plans.{run};
ghost use Rattle.tree.specs.Walks.{with_head};
ghost use Rattle.tree.specs.Ranges.{chase, follow, range_below, range_plan, range_told, standing};

use crate::reading::{BlockReader, fit_size};
use crate::telling::tell;
use keys::key::Key;
use page::fields::number_at;
use page::gather::gather;
use page::rows::NodeView;
use store::store::{LONGEST, Store};
use tree::refusal::{RangeRefusal, Refusal, Refused};
use tree::rule::Rule;

// `lo` and `hi` side by side, as the public call takes them: a struct of both would be made here and taken apart in `page`.
/// Goes from leaf to leaf, the first of which stands in the page, and says how many entries then stand in the buffer.
fn follow_leaves<S: Store, K: Key>(
    reader: &mut BlockReader<S, K>,
    lo: &K,
    hi: &K,
    buffer: &mut [u8],
) -> Result<(usize, bool), RangeRefusal>
    requires { 8 + u8_at 1 reader.old.page.now * (K.Key.kind.width + 4) ≤ length reader.old.page.now × 2 ≤ (S.Store.meaning reader.old.store.now).count }
    ensures followed { (d : Node K) → Leaf K.Key.kind (S.Store.meaning reader.old.store.now).count reader.old.order reader.old.page.now d → RangeEnd K.Key.kind buffer.old result buffer.new (S.Store.meaning reader.new.store.now) (run (S.Store.meaning reader.old.store.now) (follow K.Key.kind lo.now hi.now (length buffer.old / (K.Key.kind.width + 4)) [] d (chase K.Key.kind (S.Store.meaning reader.old.store.now).count reader.old.order lo.now hi.now ((S.Store.meaning reader.old.store.now).count - 2)))) }
    ensures same_store { reader.new.store.ghost_name ≡ reader.old.store.ghost_name }
    ensures same_page { reader.new.page.ghost_name ≡ reader.old.page.ghost_name }
{
    let mut taken = 0;
    let mut fuel = reader.store.count() - 2;
    // Counted down by hand: a `for` over the leaves would end at a place that is never reached.
    'leaves: loop {
        let (number, end) = gather(&NodeView::of(reader.page()), lo, hi, buffer, taken);
        taken = number;
        if let Some(more) = end {
            return Ok((taken, more));
        }
        let link = number_at::<4>(reader.page(), 4);
        // 0 is how the file writes that there is none.
        if link == 0 {
            return Ok((taken, false));
        }
        // Here and below the refusal says what stands in the buffer; `?` alone would say that nothing does.
        if fuel == 0 {
            return Err(RangeRefusal {
                refusal: Refusal::Broken(Rule::Chain, link),
                entries: taken,
            });
        }
        reader
            .node(link, true, false)
            .map_err(|refusal| RangeRefusal {
                refusal,
                entries: taken,
            })?;
        fuel -= 1;
    }
}

/// Reads the head and the way to the first leaf, and goes on from there.
fn range_below<S: Store, K: Key>(
    reader: &mut BlockReader<S, K>,
    lo: &K,
    hi: &K,
    buffer: &mut [u8],
) -> Result<(usize, bool), RangeRefusal>
    requires wide { 64 ≤ (S.Store.meaning reader.old.store.now).size }
    requires blocks { 2 ≤ (S.Store.meaning reader.old.store.now).count }
    ensures ranged { RangeEnd K.Key.kind buffer.old result buffer.new (S.Store.meaning reader.new.store.now) (run (S.Store.meaning reader.old.store.now) (with_head K.Key.kind (S.Store.meaning reader.old.store.now).count (S.Store.meaning reader.old.store.now).size [] (range_below K.Key.kind (S.Store.meaning reader.old.store.now).count lo.now hi.now (length buffer.old / (K.Key.kind.width + 4))))) }
    ensures same_store { reader.new.store.ghost_name ≡ reader.old.store.ghost_name }
    ensures same_page { reader.new.page.ghost_name ≡ reader.old.page.ghost_name }
{
    let head = reader.head()?;
    reader.reach_leaf(lo, head.levels, head.root)?;
    follow_leaves(reader, lo, hi, buffer)
}

/// The entries of a range, by its plan alone.
fn range_entries<S: Store, K: Key>(
    store: &mut S,
    lo: &K,
    hi: &K,
    buffer: &mut [u8],
) -> Result<(usize, bool), RangeRefusal>
    ensures { RangeEnd K.Key.kind buffer.old result buffer.new (S.Store.meaning store.new) (run (S.Store.meaning store.old) (range_plan K.Key.kind (S.Store.meaning store.old).count (S.Store.meaning store.old).size lo.now hi.now (length buffer.old / (K.Key.kind.width + 4)))) }
{
    let size = fit_size(store)?;
    if hi < lo {
        return Err(Refusal::Crossed.into());
    }
    // On the stack: the cabinet has no heap.
    let mut page = [0u8; LONGEST];
    let mut reader = BlockReader::new(store, &mut page[..size as usize], 0);
    range_below(&mut reader, lo, hi, buffer)
}

/// Fills the buffer with the entries from `lo` to `hi`, both included, as far as they fit, and answers how many there are and
/// whether more remain, with the reads made.
// How many and whether more remain: a pair and not a struct, as the answer of every call is one, and its plan's too.
pub fn range<S: Store, K: Key>(
    store: &mut S,
    lo: &K,
    hi: &K,
    buffer: &mut [u8],
) -> Result<((usize, bool), u64), Refused<RangeRefusal>>
    ensures answer { result ≡ range_told (S.Store.meaning store.old).tally (run (S.Store.meaning store.old) (range_plan K.Key.kind (S.Store.meaning store.old).count (S.Store.meaning store.old).size lo.now hi.now (length buffer.old / (K.Key.kind.width + 4)))) }
    ensures buffer { buffer.new ≡ overlaid buffer.old 0 (write_entries K.Key.kind (standing (run (S.Store.meaning store.old) (range_plan K.Key.kind (S.Store.meaning store.old).count (S.Store.meaning store.old).size lo.now hi.now (length buffer.old / (K.Key.kind.width + 4)))).0)) }
    ensures after { S.Store.meaning store.new ≡ (run (S.Store.meaning store.old) (range_plan K.Key.kind (S.Store.meaning store.old).count (S.Store.meaning store.old).size lo.now hi.now (length buffer.old / (K.Key.kind.width + 4)))).1 }
    ensures course { Kept (S.Store.meaning store.old) (range_plan K.Key.kind (S.Store.meaning store.old).count (S.Store.meaning store.old).size lo.now hi.now (length buffer.old / (K.Key.kind.width + 4))) }
    ensures unreadable { Exactly (S.Store.meaning store.old) (range_plan K.Key.kind (S.Store.meaning store.old).count (S.Store.meaning store.old).size lo.now hi.now (length buffer.old / (K.Key.kind.width + 4))) }
{
    let before = store.tally();
    let answer = range_entries(store, lo, hi, buffer);
    tell(store, before, answer)
}
