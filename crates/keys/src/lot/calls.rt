//! Lots as keys.
ghost use Rattle.std.specs.Prelude.{◌≡◌};
ghost use Rattle.keys.specs.Lots.{lot_at, lot_kind};
ghost use Rattle.keys.specs.LotLaws.{lot_lawful, lot_ordered};

use crate::bytes::{exactly, put};
use crate::key::{Key, WrongLength};
use crate::lot::Lot;

impl Lot {
    pub fn new(year: u16, press: u8, number: u32) -> Lot
        ensures value { result ≡ lot_at year press number }
        ensures parts { (result.year ≡ year) × (result.press ≡ press) × (result.number ≡ number) }
    {
        Lot {
            year,
            press,
            number,
        }
    }
}

impl Key for Lot {
    const WIDTH: usize = 7;

    const CODE: u8 = 1;

    ghost kind = { lot_kind };

    ghost ordered = { lot_ordered };

    ghost lawful = { lot_lawful };

    fn key_width() -> usize {
        Self::WIDTH
    }

    fn key_code() -> u8 {
        Self::CODE
    }

    fn write(&self, out: &mut [u8]) -> Result<(), WrongLength> {
        let [y0, y1] = self.year.to_be_bytes();
        let [n0, n1, n2, n3] = self.number.to_be_bytes();
        put(out, &[y0, y1, self.press, n0, n1, n2, n3])
    }

    fn read(bytes: &[u8]) -> Option<Lot> {
        let [y0, y1, press, n0, n1, n2, n3] = *exactly::<7>(bytes)?;
        let year = u16::from_be_bytes([y0, y1]);
        let number = u32::from_be_bytes([n0, n1, n2, n3]);
        Some(Lot::new(year, press, number))
    }
}
