//! What a command line can have wrong with it.

ghost use Rattle.std.specs.Prelude.{Some};
ghost use Rattle.pix.specs.Texts.{complaint_text};

use std::alloc::{AllocError, AllocFailed};
use std::io::Write;
use std::{fmt, io};

/// Why a line is not carried out.
#[derive(Clone, Copy, PartialEq, Eq, Debug)]
pub enum Complaint {
    UnknownCommand,
    NoCard,
    BadNumber,
    BadKey,
    NoSuchBlock,
    NoSuchByte,
    NoMarks,
    NoPoke,
    CannotOpen,
    CannotSave,
}

impl fmt::Display for Complaint {
    ghost output = { λ c. Some (complaint_text c) };

    fn fmt<W: fmt::Write>(&self, f: &mut fmt::Formatter<W>) -> fmt::Result {
        f.write_str(match self {
            Complaint::UnknownCommand => "unknown command",
            Complaint::NoCard => "no card",
            Complaint::BadNumber => "bad number",
            Complaint::BadKey => "bad key",
            Complaint::NoSuchBlock => "no such block",
            Complaint::NoSuchByte => "no such byte",
            Complaint::NoMarks => "no marks",
            Complaint::NoPoke => "no poke",
            Complaint::CannotOpen => "cannot open",
            Complaint::CannotSave => "cannot save",
        })
    }
}

/// Why a command came to nothing.
#[derive(Drop)]
pub enum Failure {
    /// The line is at fault, and the tool goes on.
    Line(Complaint),
    /// There is no memory or no output, and the tool ends.
    Tool(io::Error),
}

impl From<Complaint> for Failure {
    fn from(complaint: Complaint) -> Failure {
        Failure::Line(complaint)
    }
}

impl From<io::Error> for Failure {
    fn from(error: io::Error) -> Failure {
        Failure::Tool(error)
    }
}

impl From<AllocError> for Failure {
    fn from(error: AllocError) -> Failure {
        Failure::Tool(error.into())
    }
}

impl<T: Drop> From<AllocFailed<T>> for Failure {
    fn from(refused: AllocFailed<T>) -> Failure {
        Failure::Tool(refused.into())
    }
}

/// Prints the error line of a complaint about the command of these words.
pub fn explain(rt: &HostRuntime, complaint: Complaint, words: &[&[u8]]) -> io::Result<()> {
    if let Complaint::CannotOpen | Complaint::CannotSave = complaint
        && let Some(file) = words.get(1)
    {
        print!(rt; "error {complaint} ")?;
        // In the bytes in which it came: the name of a file need not be text.
        rt.stdout().write_all(file)?;
        return rt.println("");
    }
    println!(rt; "error {complaint}")
}
