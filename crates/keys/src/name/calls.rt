//! Names as keys.
ghost use Rattle.std.specs.Prelude.{◌≡◌};
ghost use Rattle.keys.specs.Names.{name_bytes, first_eight, name_in, name_kind, spelled};
ghost use Rattle.keys.specs.Padding.{all_characters, is_character, may_follow, padded};
ghost use Rattle.keys.specs.NameLaws.{name_lawful, name_ordered};

use crate::bytes::{exactly, put};
use crate::key::{Key, WrongLength};
use crate::name::Name;

/// Whether a byte may stand in a name, before its padding.
fn is_character(byte: u8) -> bool
    ensures { result ≡ is_character byte }
{
    (0x20..=0x7e).contains(&byte)
}

/// Whether a byte may stand after another: padding after anything, a character after a character.
fn may_follow(before: u8, byte: u8) -> bool
    ensures { result ≡ may_follow before byte }
{
    byte == 0 || (is_character(before) && is_character(byte))
}

// Pair by pair, as the rule reads: a loop over neighbours would need an invariant beside it, and be no plainer.
fn is_padded(all: [u8; 8]) -> bool
    ensures { result ≡ padded (first_eight all) }
{
    is_character(all[0])
        && may_follow(all[0], all[1])
        && may_follow(all[1], all[2])
        && may_follow(all[2], all[3])
        && may_follow(all[3], all[4])
        && may_follow(all[4], all[5])
        && may_follow(all[5], all[6])
        && may_follow(all[6], all[7])
}

// A loop and no `all`: of a chain with this test the check finds no proof.
fn are_characters(bytes: &[u8]) -> bool
    ensures { result ≡ all_characters bytes.now }
{
    for byte in bytes {
        if !is_character(*byte) {
            return false;
        }
    }
    true
}

impl Name {
    /// The name of one to eight characters.
    pub fn new(text: &[u8]) -> Option<Name>
        ensures { result ≡ spelled text.now }
    {
        if text.len() > 8 || !are_characters(text) {
            return None;
        }
        let mut all = [0; 8];
        all[..text.len()].copy_from_slice(text);
        Name::of(all)
    }

    /// The name that stands in eight bytes.
    fn of(all: [u8; 8]) -> Option<Name>
        ensures { result ≡ name_in all }
    {
        if !is_padded(all) {
            return None;
        }
        let [first, second, third, fourth, fifth, sixth, seventh, eighth] = all;
        Some(Name {
            first,
            second,
            third,
            fourth,
            fifth,
            sixth,
            seventh,
            eighth,
        })
    }

    /// The eight bytes.
    pub(crate) fn to_bytes(&self) -> [u8; 8]
        ensures { result ≡ name_bytes self.now }
    {
        [
            self.first,
            self.second,
            self.third,
            self.fourth,
            self.fifth,
            self.sixth,
            self.seventh,
            self.eighth,
        ]
    }
}

impl Key for Name {
    const WIDTH: usize = 8;

    const CODE: u8 = 3;

    ghost kind = { name_kind };

    ghost ordered = { name_ordered };

    ghost lawful = { name_lawful };

    fn key_width() -> usize {
        Self::WIDTH
    }

    fn key_code() -> u8 {
        Self::CODE
    }

    fn write(&self, out: &mut [u8]) -> Result<(), WrongLength> {
        put(out, &self.to_bytes())
    }

    fn read(bytes: &[u8]) -> Option<Name> {
        Name::of(*exactly(bytes)?)
    }
}
