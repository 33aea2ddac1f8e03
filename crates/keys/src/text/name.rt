//! Names as text: `Red%20oak`.
ghost use Rattle.std.specs.Prelude.{◌≡◌, ◌<◌, length, drop, Some, None, MatchOption};
ghost use Rattle.keys.specs.NameText.{first_byte, first_length, name_shown, name_text, shown_byte, unescaped};
ghost use Rattle.keys.specs.NameBack.{name_shown_back};

use crate::name::Name;
use crate::text::Text;
use arrayvec::ArrayVec;
use numerals::hex::byte_of;
use std::fmt;

/// One byte of a name, to be shown.
#[derive(Clone, Copy)]
struct Character(u8);

impl fmt::Display for Character {
    ghost output = { λ c. Some (shown_byte c.0) };

    fn fmt<W: fmt::Write>(&self, f: &mut fmt::Formatter<W>) -> fmt::Result {
        if self.0 == 0 {
            return write!(f, "");
        }
        if self.0 == b' ' {
            return write!(f, "%20");
        }
        if self.0 == b'%' {
            return write!(f, "%25");
        }
        let character = char::from(self.0);
        write!(f, "{character}")
    }
}

impl fmt::Display for Name {
    ghost output = { λ k. Some (name_shown k) };

    fn fmt<W: fmt::Write>(&self, f: &mut fmt::Formatter<W>) -> fmt::Result {
        let [a, b, c, d, e, g, h, i] = self.to_bytes().map(Character);
        write!(f, "{a}{b}{c}{d}{e}{g}{h}{i}")
    }
}

impl Text for Name {
    ghost text = { name_text };

    ghost back = { name_shown_back };

    fn parse(word: &[u8]) -> Option<Name> {
        Name::new(unescape(word)?.as_slice())
    }
}

/// The bytes that text gives, if there are at most eight.
fn unescape(word: &[u8]) -> Option<ArrayVec<u8, 8>>
    ensures { MatchOption result (unescaped 8 word.now ≡ None) (λ bytes. unescaped 8 word.now ≡ Some bytes.items) }
{
    let mut bytes = ArrayVec::new();
    let mut rest = word;
    while !rest.is_empty() {
        let (byte, after) = first(rest)?;
        bytes.try_push(byte).ok()?;
        rest = after;
    }
    Some(bytes)
}

/// The byte that text begins with, plain or escaped, and the text after it.
fn first(text: &[u8]) -> Option<(u8, &[u8])>
    requires { 0 < length text.now }
    ensures { MatchOption result (first_byte text.now ≡ None) (λ p. (first_byte text.now ≡ Some p.0) × (p.1.now ≡ drop (first_length text.now) text.now)) }
{
    let (first, rest) = text.split_first()?;
    if *first == b' ' {
        return None;
    }
    if *first != b'%' {
        return Some((*first, rest));
    }
    let [high, low, rest @ ..] = rest else {
        return None;
    };
    Some((byte_of(*high, *low)?, rest))
}
