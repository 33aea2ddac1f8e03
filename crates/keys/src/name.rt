//! A name.
ghost use Rattle.std.specs.Prelude.{◌≡◌, true, [], ◌∷◌};
ghost use Rattle.keys.specs.Padding.{padded};

/// One to eight characters, and zeros after them.
// A name keeps its eight byte fields: it stands so in the file, and the derived order takes them in turn.
#[derive(Clone, Copy, PartialEq, Eq, PartialOrd, Ord, Debug)]
pub struct Name {
    first: u8,
    second: u8,
    third: u8,
    fourth: u8,
    fifth: u8,
    sixth: u8,
    seventh: u8,
    eighth: u8,
    ghost rule: { padded (first ∷ second ∷ third ∷ fourth ∷ fifth ∷ sixth ∷ seventh ∷ eighth ∷ []) ≡ true },
}

pub mod calls;
