//! A part of the blocks of a store below: its calls.

ghost use Rattle.std.specs.Borrow.{follows, sem};
ghost use Rattle.std.specs.Prelude.{◌≡◌, ◌+◌, length};
ghost use Rattle.store.specs.Calls.{misuse, unless, Read, Wrote};
ghost use Rattle.layers.specs.contracts.window.Window.{the_row};
ghost use Rattle.store.specs.Meaning.{tallied, written};
ghost use Rattle.layers.specs.Windows.{window, windowed};
ghost use Rattle.layers.specs.Limits.{window_limits};

use crate::window::Window;
use store::fault::Fault;
use store::store::Store;

impl<S: Store> Window<S> {
    /// The blocks of `below` from `start` on, at most `most` of them.
    pub fn new(below: S, start: u32, most: u32) -> Window<S>
        ensures value { windowed S.Store.meaning result ≡ window (S.Store.meaning below) start most 0 }
        ensures below { result.below ≡ below }
    {
        Window {
            below,
            start,
            most,
            tally: 0,
        }
    }

    /// The store below.
    // Its clause names the fields of this struct, so a trait for both layers would be no plainer.
    pub fn below(&mut self) -> &mut S
        ensures value { result.now ≡ self.old.below }
        ensures* follows { sem 𝓛 (follows (the_row S.row) S.row self.entry.ghost_name result.ghost_name (λ s. record { below = s; start = self.old.start; most = self.old.most; tally = self.old.tally })) }
    {
        &mut self.below
    }
}

impl<S: Store> Store for Window<S> {
    ghost meaning = { windowed S.Store.meaning };

    ghost limits = { λ w. window_limits (S.Store.meaning w.below) w.start w.most w.tally (S.Store.limits w.below) };

    fn count(&self) -> u32 {
        self.below.count().saturating_sub(self.start).min(self.most)
    }

    fn size(&self) -> u32 {
        self.below.size()
    }

    fn tally(&self) -> u64 {
        self.tally
    }

    fn read(&mut self, block: u32, buffer: &mut [u8]) -> Result<(), Fault>
        ensures call { Read (windowed S.Store.meaning self.old) block buffer.old result buffer.new (windowed S.Store.meaning self.new) }
        ensures below { S.Store.meaning self.new.below ≡ unless (misuse (windowed S.Store.meaning self.old) block (length buffer.old)) (tallied (S.Store.meaning self.old.below)) (S.Store.meaning self.old.below) }
    {
        self.tally = self.tally.wrapping_add(1);
        self.check_fit(block, buffer.len())?;
        self.below
            .read(self.start + block, buffer)
            .map_err(Fault::raised)
    }

    fn write(&mut self, block: u32, buffer: &[u8]) -> Result<(), Fault>
        ensures call { Wrote (windowed S.Store.meaning self.old) block buffer.now result (windowed S.Store.meaning self.new) }
        ensures below { S.Store.meaning self.new.below ≡ unless (misuse (windowed S.Store.meaning self.old) block (length buffer.now)) (written (S.Store.meaning self.old.below) (self.old.start + block) buffer.now) (S.Store.meaning self.old.below) }
    {
        self.check_fit(block, buffer.len())?;
        self.below
            .write(self.start + block, buffer)
            .map_err(Fault::raised)
    }
}
