//! The rules of a sound file.

ghost use Rattle.std.specs.Prelude.{◌≡◌, Some, decimal};
ghost use Rattle.tree.specs.Refusals.{rule_number};

use std::fmt;

/// A rule that a block of a file breaks.
#[derive(Clone, Copy, PartialEq, Eq, Debug)]
pub enum Rule {
    /// The head's numbers are within their bounds.
    HeadNumbers = 1,
    /// A block's tag says what it is.
    Tag = 2,
    /// A block's count is within its bounds.
    Count = 3,
    /// The keys of a node can be read and rise strictly.
    Keys = 4,
    /// Links and children are blocks of the store.
    Links = 5,
    /// The keys below a child lie between the separators beside it.
    Bounds = 6,
    /// No block is met twice.
    MetOnce = 7,
    /// Each leaf's link is the next leaf.
    Chain = 8,
    /// Every block is a node or on the free list, which is as long as the head says.
    FreeList = 9,
    /// The key count is the number of the leaves' entries.
    KeyCount = 10,
}

impl Rule {
    /// The number by which tools name the rule.
    // A method and no `From`: it is the interface that tools and docs go by.
    pub fn number(self) -> u8
        ensures { result ≡ rule_number self }
    {
        self as u8
    }
}

impl fmt::Display for Rule {
    ghost output = { λ r. Some (decimal (rule_number r)) };

    fn fmt<W: fmt::Write>(&self, f: &mut fmt::Formatter<W>) -> fmt::Result {
        let number = self.number();
        write!(f, "{number}")
    }
}
