//! Numbers in the bytes of a block, the highest byte first.

ghost use Rattle.std.specs.Prelude.{◌≡◌, ◌+◌, ◌≤◌, length, take, drop};
ghost use Rattle.keys.specs.Bytes.{big_endian, from_bytes};
ghost use Rattle.tree.specs.Fields.{u16_at};

/// The number in the N bytes from a place on.
#[tactic(auto, using(crate::proofs::Numbers::four_bytes, crate::proofs::Numbers::two_bytes))]
pub fn number_at<const N: usize>(bytes: &[u8], at: usize) -> u32
    requires short { N ≤ 4 }
    requires within { at + N ≤ length bytes.now }
    ensures bytes { result ≡ from_bytes (take N (drop at bytes.now)) }
    ensures two { N ≡ 2 → result ≡ u16_at at bytes.now }
{
    let mut four = [0; 4];
    let (_, low) = four.split_at_mut(4 - N);
    low.copy_from_slice(&bytes[at..at + N]);
    u32::from_be_bytes(four)
}

/// A number's lowest N bytes.
pub fn number_bytes<const N: usize>(number: u32) -> [u8; N]
    requires { N ≤ 4 }
    ensures { result ≡ big_endian N number }
{
    *number.to_be_bytes().last_chunk().unwrap()
}
