//! Moments as keys.
ghost use Rattle.std.specs.Prelude.{◌≡◌, Some};
ghost use Rattle.keys.specs.Moments.{moment_at, moment_bytes, moment_kind, moment_of};
ghost use Rattle.keys.specs.MomentLaws.{moment_lawful, moment_ordered};

use crate::bytes::{exactly, put};
use crate::key::{Key, WrongLength};
use crate::moment::Moment;

impl Moment {
    pub fn new(seconds: i64) -> Moment
        ensures value { Some result ≡ moment_of seconds }
        ensures parts { result.seconds ≡ seconds }
    {
        Moment { seconds }
    }

    /// The moment that stands in 64 bits.
    fn of_bits(bits: u64) -> Moment
        ensures { result ≡ moment_at bits }
    {
        Moment {
            seconds: bits.cast_signed(),
        }
    }

    fn to_bytes(&self) -> [u8; 8]
        ensures { result ≡ moment_bytes self.now }
    {
        self.seconds.to_be_bytes()
    }
}

impl Key for Moment {
    const WIDTH: usize = 8;

    const CODE: u8 = 2;

    ghost kind = { moment_kind };

    ghost ordered = { moment_ordered };

    ghost lawful = { moment_lawful };

    fn key_width() -> usize {
        Self::WIDTH
    }

    fn key_code() -> u8 {
        Self::CODE
    }

    fn write(&self, out: &mut [u8]) -> Result<(), WrongLength> {
        put(out, &self.to_bytes())
    }

    fn read(bytes: &[u8]) -> Option<Moment> {
        let all = *exactly(bytes)?;
        Some(Moment::of_bits(u64::from_be_bytes(all)))
    }
}
