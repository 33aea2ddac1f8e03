//! Answers with the reads that were made for them.

ghost use Rattle.std.specs.Prelude.{◌≡◌};
ghost use Rattle.tree.specs.Plans.{rise, with_reads};

use store::store::Store;
use tree::refusal::Refused;

/// An answer or a refusal of a call that began when the tally was `before`, with the reads that it made.
// A match: two closures, for the value and for the refusal, would say the reads twice as well.
// Every call stands between a tally and this: taken as a closure, a call would need its whole contract said again here.
pub fn tell<S: Store, A, R>(
    store: &S,
    before: u64,
    answer: Result<A, R>,
) -> Result<(A, u64), Refused<R>>
    ensures { result ≡ with_reads (rise before (S.Store.meaning store.now).tally) answer }
{
    let reads = store.tally().wrapping_sub(before);
    match answer {
        Ok(value) => Ok((value, reads)),
        Err(refusal) => Err(Refused { refusal, reads }),
    }
}
