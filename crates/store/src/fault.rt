//! Why a store refuses a call.

ghost use Rattle.std.specs.Prelude.{◌≡◌, Some};
ghost use Rattle.store.specs.Faults.{numbered, fault, deeper, fault_shown};

use std::fmt;

/// The cause of a refusal.
#[derive(Clone, Copy, PartialEq, Eq, Debug)]
pub enum Cause {
    /// The store has no block of that number.
    NoSuchBlock = 1,
    /// The buffer is not as long as a block.
    WrongBuffer = 2,
    /// The block cannot be read.
    BadBlock = 3,
    /// The block's check number is not that of its bytes.
    WrongCheck = 4,
}

/// A refusal: its cause, the block, and how many layers it came up through.
#[derive(Clone, Copy, PartialEq, Eq, Debug)]
pub struct Fault {
    pub cause: Cause,
    pub block: u32,
    pub depth: u8,
}

impl Cause {
    /// The number by which files and tools name the cause.
    // A method and no `From`: it is the interface that tools and docs go by.
    pub fn number(self) -> u8
        ensures { result ≡ numbered self }
    {
        self as u8
    }
}

impl Fault {
    /// A fault that was met in this very layer.
    pub fn new(cause: Cause, block: u32) -> Fault
        ensures { result ≡ fault cause block }
    {
        Fault {
            cause,
            block,
            depth: 0,
        }
    }

    /// The same fault one layer up.
    pub fn raised(self) -> Fault
        ensures { result ≡ deeper self }
    {
        Fault {
            depth: self.depth.saturating_add(1),
            ..self
        }
    }
}

impl fmt::Display for Fault {
    ghost output = { λ f. Some (fault_shown f) };

    fn fmt<W: fmt::Write>(&self, f: &mut fmt::Formatter<W>) -> fmt::Result {
        let Fault {
            cause,
            block,
            depth,
        } = *self;
        let number = cause.number();
        write!(f, "cause={number} block={block} depth={depth}")
    }
}
