//! Check numbers, and blocks read and written with them.

ghost use Rattle.std.specs.Prelude.{◌≡◌, ◌+◌, ◌<◌, ◌≤◌, length, take, Ok};
ghost use Rattle.store.specs.Calls.{answered, unless};
ghost use Rattle.layers.specs.Checks.{check_mark, check_number, checked, holds, sealed};
ghost use Rattle.store.specs.Meaning.{tallied, written};

use crate::check::Check;
use store::fault::{Cause, Fault};
use store::store::Store;

/// The check number of a block that begins with these bytes.
pub(crate) fn number_of(bytes: &[u8], block: u32) -> u16
    ensures { result ≡ check_number bytes.now block }
{
    // `sum` asks that the sum fits, and this one goes round.
    let start = (block % 65536) as u16;
    bytes
        .iter()
        .fold(start, |total, byte| total.wrapping_add(u16::from(*byte)))
}

/// Whether the last two bytes are the check number of the others.
pub(crate) fn verify(whole: &[u8], block: u32) -> bool
    requires { 2 ≤ length whole.now }
    ensures { result ≡ holds whole.now block }
{
    match whole.split_last_chunk() {
        Some((bytes, number)) => number_of(bytes, block) == u16::from_be_bytes(*number),
        None => false,
    }
}

/// Puts the bytes and then their check number into `whole`.
pub(crate) fn seal(whole: &mut [u8], bytes: &[u8], block: u32)
    requires { length whole.old ≡ length bytes.now + 2 }
    ensures { whole.new ≡ sealed bytes.now block }
{
    let (front, back) = whole.split_at_mut(bytes.len());
    front.copy_from_slice(bytes);
    back.copy_from_slice(&number_of(bytes, block).to_be_bytes());
}

// Two buffers of one call, made and dropped in it: a struct of both would be taken apart at once.
impl<S: Store> Check<S> {
    /// Reads a block below into `whole`, and from there without its check number into `bytes`.
    pub(crate) fn get_sealed(
        &mut self,
        block: u32,
        whole: &mut [u8],
        bytes: &mut [u8],
    ) -> Result<(), Fault>
        requires { (length whole.old ≡ length bytes.old + 2) × ((length whole.old ≡ (S.Store.meaning self.old.below).size) × (block < (S.Store.meaning self.old.below).count)) }
        ensures answer { result ≡ answered (check_mark (S.Store.meaning self.old.below) block) }
        ensures filled { bytes.new ≡ unless (check_mark (S.Store.meaning self.old.below) block) (take (length bytes.old) ((S.Store.meaning self.old.below).contents block)) bytes.old }
        ensures below { S.Store.meaning self.new.below ≡ tallied (S.Store.meaning self.old.below) }
        ensures tally { self.new.tally ≡ self.old.tally }
    {
        self.below.read(block, whole).map_err(Fault::raised)?;
        if !verify(whole, block) {
            return Err(Fault::new(Cause::WrongCheck, block));
        }
        bytes.copy_from_slice(&whole[..bytes.len()]);
        Ok(())
    }

    /// Writes the bytes with their check number to a block below, by way of `whole`.
    pub(crate) fn put_sealed(
        &mut self,
        block: u32,
        whole: &mut [u8],
        bytes: &[u8],
    ) -> Result<(), Fault>
        requires { (length whole.old ≡ length bytes.now + 2) × ((length whole.old ≡ (S.Store.meaning self.old.below).size) × ((block < (S.Store.meaning self.old.below).count) × (3 ≤ length whole.old))) }
        ensures answer { result ≡ Ok tt }
        ensures after { checked S.Store.meaning self.new ≡ written (checked S.Store.meaning self.old) block bytes.now }
        ensures below { S.Store.meaning self.new.below ≡ written (S.Store.meaning self.old.below) block (sealed bytes.now block) }
    {
        seal(whole, bytes, block);
        self.below.write(block, whole)
    }
}
