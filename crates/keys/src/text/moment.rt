//! Moments as text: `-1`.
ghost use Rattle.std.specs.Prelude.{◌≡◌, pos, neg_ℤ, Some};
ghost use Rattle.keys.specs.Moments.{moment_of};
ghost use Rattle.keys.specs.MomentText.{moment_shown, moment_text};
ghost use Rattle.keys.specs.NumbersBack.{moment_shown_back};

use crate::moment::Moment;
use crate::text::Text;
use numerals::decimal::number_below;
use std::fmt;

/// The magnitude of the lowest moment.
const LOWEST: u64 = 1 << 63;

impl fmt::Display for Moment {
    ghost output = { λ k. Some (moment_shown k) };

    fn fmt<W: fmt::Write>(&self, f: &mut fmt::Formatter<W>) -> fmt::Result {
        let seconds = self.seconds;
        write!(f, "{seconds}")
    }
}

impl Text for Moment {
    ghost text = { moment_text };

    ghost back = { moment_shown_back };

    fn parse(word: &[u8]) -> Option<Moment> {
        match word {
            [b'-', digits @ ..] => before(number_below(digits, LOWEST + 1)?),
            digits => after(number_below(digits, LOWEST)?),
        }
    }
}

/// The moment of a number of seconds before zero.
fn before(number: u64) -> Option<Moment>
    ensures { result ≡ moment_of (neg_ℤ (pos number)) }
{
    Some(Moment::new(0i64.checked_sub_unsigned(number)?))
}

/// The moment of a number of seconds after zero.
fn after(number: u64) -> Option<Moment>
    ensures { result ≡ moment_of (pos number) }
{
    Some(Moment::new(0i64.checked_add_unsigned(number)?))
}
