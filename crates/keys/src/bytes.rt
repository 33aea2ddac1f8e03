//! Bytes of a known number.
ghost use Rattle.std.specs.Prelude.{◌≡◌, ◌==◌, true, false, cond, length, MatchOption, Ok, Err};
ghost use Rattle.keys.specs.Bytes.{are_bytes};

use crate::key::WrongLength;

/// The bytes, if there are N.
// Lent and not copied: a copy of an odd number of bytes is put together by shifts before any of them is read.
pub(crate) fn exactly<const N: usize>(bytes: &[u8]) -> Option<&[u8; N]>
    ensures { MatchOption result (are_bytes N bytes.now ≡ false) (λ all. (are_bytes N bytes.now ≡ true) × (all.now ≡ bytes.now)) }
{
    bytes.try_into().ok()
}

/// Puts bytes into a buffer of their length. Another buffer is refused, and stays as it is.
pub(crate) fn put<const N: usize>(out: &mut [u8], all: &[u8; N]) -> Result<(), WrongLength>
    ensures answer { result ≡ cond (length out.old == N) (Ok tt) (Err (record {})) }
    ensures after { out.new ≡ cond (length out.old == N) all.now out.old }
{
    if out.len() != N {
        return Err(WrongLength);
    }
    out.copy_from_slice(all);
    Ok(())
}
