//! Keys as text: one word of a command line.
ghost use Rattle.std.specs.Prelude.{◌≡◌, ℕ, List, Some, Option as Maybe, MatchOption};

use crate::key::Key;
use std::fmt::Display;

mod dash;
pub mod lot;
pub mod moment;
pub mod name;

/// A kind of keys that is read from text, and shown as text.
pub trait Text: Key + Display {
    ghost text: { List ℕ → Maybe Self };

    /// The key that a word is, if it is one.
    fn parse(word: &[u8]) -> Option<Self>
        ensures { result ≡ text word.now };

    // what is shown of a key is known, and is read as that key
    ghost back: { (k : Self) → MatchOption (Self.Display.output k) ⊥ (λ bs. text bs ≡ Some k) };
}
