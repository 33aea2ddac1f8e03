//! Blocks that end in a check number: the calls.

ghost use Rattle.std.specs.Borrow.{follows, sem};
ghost use Rattle.std.specs.Prelude.{◌≡◌, length};
ghost use Rattle.store.specs.Calls.{misuse, unless, Read, Wrote};
ghost use Rattle.layers.specs.Checks.{check, checked, sealed};
ghost use Rattle.layers.specs.contracts.check.Check.{the_row};
ghost use Rattle.store.specs.Meaning.{tallied, written};
ghost use Rattle.layers.specs.Limits.{check_limits};

use crate::check::Check;
use store::fault::Fault;
use store::store::{LONGEST, Store};

/// The bytes of a check number.
const NUMBER: u32 = 2;

impl<S: Store> Check<S> {
    /// The blocks of `below`, each less its check number.
    pub fn new(below: S) -> Check<S>
        ensures value { checked S.Store.meaning result ≡ check (S.Store.meaning below) 0 }
        ensures below { result.below ≡ below }
    {
        Check { below, tally: 0 }
    }

    /// The store below.
    // Its clause names the fields of this struct, so a trait for both layers would be no plainer.
    pub fn below(&mut self) -> &mut S
        ensures value { result.now ≡ self.old.below }
        ensures* follows { sem 𝓛 (follows (the_row S.row) S.row self.entry.ghost_name result.ghost_name (λ s. record { below = s; tally = self.old.tally })) }
    {
        &mut self.below
    }
}

impl<S: Store> Store for Check<S> {
    ghost meaning = { checked S.Store.meaning };

    ghost limits = { λ s. check_limits (S.Store.meaning s.below) s.tally (S.Store.limits s.below) };

    fn count(&self) -> u32 {
        if self.below.size() <= NUMBER {
            0
        } else {
            self.below.count()
        }
    }

    fn size(&self) -> u32 {
        self.below.size().saturating_sub(NUMBER)
    }

    fn tally(&self) -> u64 {
        self.tally
    }

    fn read(&mut self, block: u32, buffer: &mut [u8]) -> Result<(), Fault>
        ensures call { Read (checked S.Store.meaning self.old) block buffer.old result buffer.new (checked S.Store.meaning self.new) }
        ensures below { S.Store.meaning self.new.below ≡ unless (misuse (checked S.Store.meaning self.old) block (length buffer.old)) (tallied (S.Store.meaning self.old.below)) (S.Store.meaning self.old.below) }
    {
        self.tally = self.tally.wrapping_add(1);
        self.check_fit(block, buffer.len())?;
        // On the stack: the cabinet has no heap.
        let mut page = [0u8; LONGEST];
        self.get_sealed(block, &mut page[..buffer.len() + NUMBER as usize], buffer)
    }

    fn write(&mut self, block: u32, buffer: &[u8]) -> Result<(), Fault>
        ensures call { Wrote (checked S.Store.meaning self.old) block buffer.now result (checked S.Store.meaning self.new) }
        ensures below { S.Store.meaning self.new.below ≡ unless (misuse (checked S.Store.meaning self.old) block (length buffer.now)) (written (S.Store.meaning self.old.below) block (sealed buffer.now block)) (S.Store.meaning self.old.below) }
    {
        self.check_fit(block, buffer.len())?;
        // On the stack: the cabinet has no heap.
        let mut page = [0u8; LONGEST];
        self.put_sealed(block, &mut page[..buffer.len() + NUMBER as usize], buffer)
    }
}
