//! Lots as text: `2026-3-17`.
ghost use Rattle.std.specs.Prelude.{Some};
ghost use Rattle.keys.specs.LotText.{lot_shown, lot_text};
ghost use Rattle.keys.specs.NumbersBack.{lot_shown_back};

use crate::lot::Lot;
use crate::text::Text;
use crate::text::dash::cut_at_dash;
use numerals::decimal::number_below;
use std::fmt;

impl fmt::Display for Lot {
    ghost output = { λ k. Some (lot_shown k) };

    fn fmt<W: fmt::Write>(&self, f: &mut fmt::Formatter<W>) -> fmt::Result {
        let Lot {
            year,
            press,
            number,
        } = *self;
        write!(f, "{year}-{press}-{number}")
    }
}

impl Text for Lot {
    ghost text = { lot_text };

    ghost back = { lot_shown_back };

    fn parse(word: &[u8]) -> Option<Lot> {
        let (year, rest) = cut_at_dash(word);
        let (press, number) = cut_at_dash(rest);
        let year = number_below(year, 1 << 16)?;
        let press = number_below(press, 1 << 8)?;
        let number = number_below(number, 1 << 32)?;
        Some(Lot::new(year as u16, press as u8, number as u32))
    }
}
