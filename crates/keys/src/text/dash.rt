//! Text cut at a dash.

ghost use Rattle.std.specs.Prelude.{◌≡◌, ◌==◌};
ghost use Rattle.std.specs.List.{position};
ghost use Rattle.keys.specs.Dashes.{dash, past_dash, to_dash};

/// What stands before the first dash, and what after it.
pub(crate) fn cut_at_dash(text: &[u8]) -> (&[u8], &[u8])
    ensures before { result.0.now ≡ to_dash text.now }
    ensures after { result.1.now ≡ past_dash text.now }
{
    match first_dash(text) {
        Some(at) => (&text[..at], &text[at + 1..]),
        None => (text, &[]),
    }
}

/// Where the first dash stands.
fn first_dash(text: &[u8]) -> Option<usize>
    ensures { result ≡ position (λ b. b == dash) text.now }
{
    text.iter().position(|byte| *byte == b'-')
}
