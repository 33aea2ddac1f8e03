//! The commands on the blocks of a card.

use crate::card::Card;
use crate::complaint::{Complaint, Failure};
use crate::words::{bytes, number};
use numerals::hex::text_of;
use std::fs;
use store::fault::{Cause, Fault};
use store::store::Store;

/// Writes the blocks of the plain store to a file.
pub fn save(rt: &HostRuntime, card: &mut Card, file: &[u8]) -> Result<(), Failure> {
    let blocks = card.plain().ok_or(Complaint::CannotSave)?.blocks();
    let name = std::str::from_utf8(file).map_err(|_| Complaint::CannotSave)?;
    fs::write(rt, name, blocks).map_err(|_| Complaint::CannotSave)?;
    let length = blocks.len();
    println!(rt; "saved {length}")?;
    Ok(())
}

/// Marks a block of the plain store.
// This and `clear` differ in one call: one function for both would take that call as a closure, for three lines saved.
pub fn mark(rt: &HostRuntime, card: &mut Card, block: &[u8]) -> Result<(), Failure> {
    let block = number(block)?;
    let store = card.plain().ok_or(Complaint::NoMarks)?;
    told(rt, store.mark(block))
}

/// Takes the mark of a block of the plain store away.
pub fn clear(rt: &HostRuntime, card: &mut Card, block: &[u8]) -> Result<(), Failure> {
    let block = number(block)?;
    let store = card.plain().ok_or(Complaint::NoMarks)?;
    told(rt, store.clear(block))
}

/// Changes bytes of a block of the plain store.
pub fn poke(
    rt: &HostRuntime,
    card: &mut Card,
    block: &[u8],
    at: &[u8],
    part: &[u8],
) -> Result<(), Failure> {
    let block = number(block)?;
    let at = number(at)?;
    let part = bytes(rt.alloc(), part)?;
    let store = card.plain().ok_or(Complaint::NoPoke)?;
    told(rt, store.patch(block, at as usize, part.as_slice()))
}

/// Says that a change of the plain store was made, or why not.
fn told(rt: &HostRuntime, answer: Result<(), Fault>) -> Result<(), Failure> {
    match answer {
        Ok(()) => Ok(rt.println("ok")?),
        Err(fault) if fault.cause == Cause::NoSuchBlock => Err(Complaint::NoSuchBlock.into()),
        Err(_) => Err(Complaint::NoSuchByte.into()),
    }
}

/// Reads a block through the top store.
pub fn dump<S: Store>(rt: &HostRuntime, store: &mut S, block: &[u8]) -> Result<(), Failure> {
    let block = number(block)?;
    let mut page = vec![in rt.alloc(); 0u8; store.size() as usize]?;
    match store.read(block, page.as_mut_slice()) {
        Ok(()) => {
            let bytes = text_of(rt.alloc(), page.as_slice())?;
            println!(rt; "block {block} {bytes}")?;
            Ok(())
        }
        Err(fault) => print_fault(rt, fault),
    }
}

/// Writes a block through the top store, zeros after the given bytes.
pub fn write<S: Store>(
    rt: &HostRuntime,
    store: &mut S,
    block: &[u8],
    part: &[u8],
) -> Result<(), Failure> {
    let block = number(block)?;
    let mut page = bytes(rt.alloc(), part)?;
    let size = store.size() as usize;
    if page.len() > size {
        return Err(Complaint::NoSuchByte.into());
    }
    page.resize(size, 0)?;
    match store.write(block, page.as_slice()) {
        Ok(()) => Ok(rt.println("ok")?),
        Err(fault) => print_fault(rt, fault),
    }
}

/// Says what the top store's tally is.
pub fn tally<S: Store>(rt: &HostRuntime, store: &S) -> Result<(), Failure> {
    let tally = store.tally();
    println!(rt; "tally {tally}")?;
    Ok(())
}

fn print_fault(rt: &HostRuntime, fault: Fault) -> Result<(), Failure> {
    Ok(println!(rt; "fault {fault}")?)
}
