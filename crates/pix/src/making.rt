//! Cards made from the words of a command.

use crate::card::Card;
use crate::complaint::{Complaint, Failure};
use crate::words::{number, number_to};
use layers::check::Check;
use layers::window::Window;
use std::alloc::Global;
use std::fs;
use store::bench::BenchStore;
use store::plain::PlainStore;
use store::store::{LONGEST, MOST_BLOCKS};

/// The card that the words after `card` name.
pub fn named_card(heap: Global, words: &[&[u8]]) -> Result<Card, Failure> {
    let card = match words {
        [b"plain", n, b] => Card::Plain(blank(heap, n, b)?),
        [b"checked", n, b] => Card::Checked(Check::new(blank(heap, n, b)?)),
        [b"window", n, b, s, t] => Card::Windowed(window(blank(heap, n, b)?, s, t)?),
        [b"piled", n, b, s, t] => Card::Piled(Check::new(window(blank(heap, n, b)?, s, t)?)),
        [b"bench"] => Card::Bench(BenchStore::new()),
        [b"benchchecked"] => Card::CheckedBench(Check::new(BenchStore::new())),
        _ => return Err(Complaint::UnknownCommand.into()),
    };
    Ok(card)
}

/// A plain store of `n` blocks of `b` zero bytes.
fn blank(heap: Global, n: &[u8], b: &[u8]) -> Result<PlainStore, Failure> {
    let count = number_to(n, MOST_BLOCKS as u32)?;
    let size = number_to(b, LONGEST as u32)?;
    let bytes = vec![in heap; 0u8; count as usize * size as usize]?;
    let marks = vec![in heap; 0u8; count as usize]?;
    Ok(PlainStore::new(bytes, marks, size))
}

/// A window over a store, of `t` blocks from block `s` on.
fn window(store: PlainStore, s: &[u8], t: &[u8]) -> Result<Window<PlainStore>, Complaint> {
    let start = number(s)?;
    let most = number(t)?;
    Ok(Window::new(store, start, most))
}

/// The card that the words after `open` name: a file's bytes.
pub fn opened_card(rt: &HostRuntime, file: &[u8], b: &[u8]) -> Result<Card, Failure> {
    let size = number_to(b, LONGEST as u32)?;
    let name = std::str::from_utf8(file).map_err(|_| Complaint::CannotOpen)?;
    let bytes = fs::read(rt, name).map_err(|_| Complaint::CannotOpen)?;
    let marks = vec![in rt.alloc(); 0u8; MOST_BLOCKS]?;
    Ok(Card::Plain(PlainStore::new(bytes, marks, size)))
}
