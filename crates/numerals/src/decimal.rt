//! Decimal numbers as text.

ghost use Rattle.std.specs.Prelude.{◌≡◌, ◌+◌, ◌*◌, ◌^◌, ◌<◌, IfSome};
ghost use Rattle.std.specs.Option.{SomeIff};
ghost use Rattle.numerals.specs.Decimals.{below, number_in};

/// A number with one more digit after it, if 64 bits hold it.
fn appended(number: u64, digit: u8) -> Option<u64>
    ensures { SomeIff result (number * 10 + digit < 2 ^ 64) (number * 10 + digit) }
{
    number.checked_mul(10)?.checked_add(u64::from(digit))
}

/// The number that digits write, if it is less than a limit.
pub fn number_below(digits: &[u8], limit: u64) -> Option<u64>
    ensures value { result ≡ below limit (number_in digits.now) }
    ensures bound { IfSome result (λ n. n < limit) }
{
    if digits.is_empty() {
        return None;
    }
    let mut number: u64 = 0;
    for digit in digits {
        if !digit.is_ascii_digit() {
            return None;
        }
        // A subtraction: `to_digit` would go by way of a `char` and a `u32`, and be no plainer.
        number = appended(number, *digit - b'0')?;
    }
    if number < limit { Some(number) } else { None }
}
