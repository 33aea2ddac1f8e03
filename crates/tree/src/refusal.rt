//! Why the index refuses a call.

ghost use Rattle.std.specs.Prelude.{◌≡◌, Some};
ghost use Rattle.tree.specs.declared.refusal.Refusal.TheVariants.{Unreadable};
ghost use Rattle.tree.specs.Refusals.{before_entries, numbered, refusal_shown};

use crate::rule::Rule;
use std::fmt;
use store::fault::Fault;

/// Why the index refuses a call.
#[derive(Clone, Copy, PartialEq, Eq, Debug)]
pub enum Refusal {
    /// The store has fewer than two blocks, or blocks of fewer than 64 bytes; to format, also an order that does not fit.
    Unfit,
    /// A range's low key is above its high key.
    Crossed,
    /// The audit's list is shorter than the store has blocks.
    ShortList,
    /// A block is marked, by this fault.
    Unreadable(Fault),
    /// The head does not begin with the letters.
    NoLetters,
    /// The head has another version.
    OtherVersion,
    /// The head has another key kind's code.
    OtherKind,
    /// A rule is broken at this block.
    Broken(Rule, u32),
    /// The key to insert is there.
    KeyThere,
    /// The key to remove is absent.
    KeyAbsent,
    /// More blocks are needed than are free.
    NoRoom,
}

impl Refusal {
    /// The number by which tools name the refusal.
    // A method and no `From`: it is the interface that tools and docs go by.
    pub fn number(self) -> u8
        ensures { result ≡ numbered self }
    {
        match self {
            Refusal::Unfit => 1,
            Refusal::Crossed => 2,
            Refusal::ShortList => 3,
            Refusal::Unreadable(_) => 4,
            Refusal::NoLetters => 5,
            Refusal::OtherVersion => 6,
            Refusal::OtherKind => 7,
            Refusal::Broken(_, _) => 8,
            Refusal::KeyThere => 9,
            Refusal::KeyAbsent => 10,
            Refusal::NoRoom => 11,
        }
    }
}

impl From<Fault> for Refusal {
    ghost from_gives = { λ f r. r ≡ Unreadable f };

    fn from(fault: Fault) -> Refusal {
        Refusal::Unreadable(fault)
    }
}

impl fmt::Display for Refusal {
    ghost output = { λ r. Some (refusal_shown r) };

    fn fmt<W: fmt::Write>(&self, f: &mut fmt::Formatter<W>) -> fmt::Result {
        let number = self.number();
        match self {
            Refusal::Unreadable(fault) => write!(f, "{number} {fault}"),
            Refusal::Broken(rule, block) => write!(f, "{number} rule={rule} block={block}"),
            _ => write!(f, "{number}"),
        }
    }
}

/// A refusal of a range, and how many entries stand in the buffer.
#[derive(Clone, Copy, PartialEq, Eq, Debug)]
pub struct RangeRefusal {
    pub refusal: Refusal,
    pub entries: usize,
}

impl From<Refusal> for RangeRefusal {
    ghost from_gives = { λ r s. s ≡ before_entries r };

    /// A refusal before the first entry.
    fn from(refusal: Refusal) -> RangeRefusal {
        RangeRefusal {
            refusal,
            entries: 0,
        }
    }
}

/// Why a call was refused, and the reads that were made before it.
#[derive(Clone, Copy, PartialEq, Eq, Debug)]
pub struct Refused<R = Refusal> {
    pub refusal: R,
    pub reads: u64,
}
