//! The tool: a card, and the commands on it.

use crate::blocks::{clear, dump, mark, poke, save, tally, write};
use crate::card::Card;
use crate::complaint::{Complaint, Failure};
use crate::kind::KeyKind;
use crate::lookups::{count, find, format, range};
use crate::making::{named_card, opened_card};
use keys::lot::Lot;
use keys::moment::Moment;
use keys::name::Name;
use keys::text::Text;
use store::store::Store;

/// The card that the commands work on, if there is one yet, and the kind of its keys.
#[derive(Drop)]
pub struct Tool {
    card: Option<Card>,
    kind: KeyKind,
}

impl Tool {
    pub fn new() -> Tool {
        Tool {
            card: None,
            kind: KeyKind::Lot,
        }
    }

    /// Carries out the command of these words.
    pub fn run(&mut self, rt: &HostRuntime, words: &[&[u8]]) -> Result<(), Failure> {
        // The runtime and the card go side by side: a struct of both would be made anew at each command.
        match words {
            [] => Ok(()),
            [b"card", words @ ..] => self.take(rt, named_card(rt.alloc(), words)?),
            [b"open", file, size] => self.take(rt, opened_card(rt, file, size)?),
            [b"kind", name] => self.choose(rt, KeyKind::try_from(*name)?),
            [b"save", file] => save(rt, self.card()?, file),
            [b"mark", block] => mark(rt, self.card()?, block),
            [b"clear", block] => clear(rt, self.card()?, block),
            [b"poke", block, at, part] => poke(rt, self.card()?, block, at, part),
            [b"dump", block] => dump(rt, self.card()?, block),
            [b"write", block, part] => write(rt, self.card()?, block, part),
            [b"tally"] => tally(rt, self.card()?),
            // The kind becomes a type here, and where it is printed.
            _ => match self.kind {
                KeyKind::Lot => self.run_on_index::<Lot>(rt, words),
                KeyKind::Moment => self.run_on_index::<Moment>(rt, words),
                KeyKind::Name => self.run_on_index::<Name>(rt, words),
            },
        }
    }

    /// Carries out a command on the index of the card, whose keys are of one kind.
    fn run_on_index<K: Text>(&mut self, rt: &HostRuntime, words: &[&[u8]]) -> Result<(), Failure> {
        match words {
            [b"format", order] => format::<K>(rt, self.card()?, order),
            [b"find", key] => find::<K>(rt, self.card()?, key),
            [b"range", lo, hi, length] => range::<K>(rt, self.card()?, lo, hi, length),
            [b"count"] => count::<K>(rt, self.card()?),
            _ => Err(Complaint::UnknownCommand.into()),
        }
    }

    /// The card to work on.
    fn card(&mut self) -> Result<&mut Card, Complaint> {
        self.card.as_mut().ok_or(Complaint::NoCard)
    }

    /// Makes a card the one to work on, and says how large it is.
    fn take(&mut self, rt: &HostRuntime, card: Card) -> Result<(), Failure> {
        let count = card.count();
        let size = card.size();
        self.card = Some(card);
        println!(rt; "card blocks={count} size={size}")?;
        Ok(())
    }

    /// Makes a kind the one of the keys from here on.
    fn choose(&mut self, rt: &HostRuntime, kind: KeyKind) -> Result<(), Failure> {
        self.kind = kind;
        Ok(kind.print(rt)?)
    }
}
