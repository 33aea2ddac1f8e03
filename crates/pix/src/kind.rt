//! The key kinds that the tool knows.

ghost use Rattle.std.specs.Prelude.{◌≡◌, ◌≢◌, MatchResult, Some};
ghost use Rattle.pix.specs.declared.complaint.Complaint.TheVariants.{UnknownCommand};
ghost use Rattle.pix.specs.declared.kind.KeyKind.{KeyKind};
ghost use Rattle.pix.specs.Texts.{kind_name};

use crate::complaint::Complaint;
use keys::key::Key;
use keys::lot::Lot;
use keys::moment::Moment;
use keys::name::Name;
use std::{fmt, io};

#[derive(Clone, Copy, PartialEq, Eq, Debug)]
pub enum KeyKind {
    Lot,
    Moment,
    Name,
}

impl TryFrom<&[u8]> for KeyKind {
    type Error = Complaint;

    ghost try_from_gives = { λ name r. MatchResult r (λ k. kind_name k ≡ name.now) (λ e. (e ≡ UnknownCommand) × ((k : KeyKind) → kind_name k ≢ name.now)) };

    fn try_from(name: &[u8]) -> Result<KeyKind, Complaint> {
        match name {
            b"lot" => Ok(KeyKind::Lot),
            b"moment" => Ok(KeyKind::Moment),
            b"name" => Ok(KeyKind::Name),
            _ => Err(Complaint::UnknownCommand),
        }
    }
}

impl fmt::Display for KeyKind {
    ghost output = { λ k. Some (kind_name k) };

    fn fmt<W: fmt::Write>(&self, f: &mut fmt::Formatter<W>) -> fmt::Result {
        f.write_str(match self {
            KeyKind::Lot => "lot",
            KeyKind::Moment => "moment",
            KeyKind::Name => "name",
        })
    }
}

impl KeyKind {
    /// Prints the kind with its code and width.
    pub fn print(self, rt: &HostRuntime) -> io::Result<()> {
        // The kind becomes a type here, and where a command is carried out.
        match self {
            KeyKind::Lot => self.print_as::<Lot>(rt),
            KeyKind::Moment => self.print_as::<Moment>(rt),
            KeyKind::Name => self.print_as::<Name>(rt),
        }
    }

    fn print_as<K: Key>(self, rt: &HostRuntime) -> io::Result<()> {
        let code = K::key_code();
        let width = K::key_width();
        println!(rt; "kind {self} code={code} width={width}")
    }
}
