//! The commands that make an index and look into it.

use crate::card::Card;
use crate::complaint::Failure;
use crate::words::{key, number, number_to};
use keys::text::Text;
use page::rows::NUMBER;
use store::store::Store;
use tree::refusal::{RangeRefusal, Refusal, Refused};

/// The longest buffer of a range.
const LONGEST_BUFFER: u32 = 1_048_576;

/// Makes an empty index.
pub fn format<K: Text>(rt: &HostRuntime, card: &mut Card, order: &[u8]) -> Result<(), Failure> {
    // An order above 255 fits no block, as 255 does not.
    let order = number(order)?.min(255) as u8;
    match index::format::format::<Card, K>(card, order) {
        Ok(((), reads)) => Ok(println!(rt; "formatted reads={reads}")?),
        Err(refused) => print_refused(rt, refused),
    }
}

/// Looks a key up.
pub fn find<K: Text>(rt: &HostRuntime, card: &mut Card, word: &[u8]) -> Result<(), Failure> {
    let key = key::<K>(word)?;
    match index::find::find(card, &key) {
        Ok((Some(record), reads)) => Ok(println!(rt; "found {record} reads={reads}")?),
        Ok((None, reads)) => Ok(println!(rt; "absent reads={reads}")?),
        Err(refused) => print_refused(rt, refused),
    }
}

/// Lists the entries from one key to another.
pub fn range<K: Text>(
    rt: &HostRuntime,
    card: &mut Card,
    lo: &[u8],
    hi: &[u8],
    length: &[u8],
) -> Result<(), Failure> {
    let lo = key::<K>(lo)?;
    let hi = key::<K>(hi)?;
    let length = number_to(length, LONGEST_BUFFER)?;
    let mut buffer = vec![in rt.alloc(); 0u8; length as usize]?;
    match index::range::range(card, &lo, &hi, buffer.as_mut_slice()) {
        Ok(((entries, more), reads)) => {
            let more = if more { "yes" } else { "no" };
            println!(rt; "range entries={entries} more={more} reads={reads}")?;
            print_entries::<K>(rt, buffer.as_slice(), entries)
        }
        Err(
            Refused {
                refusal: RangeRefusal { refusal, entries },
                reads,
            },
        ) => {
            match refusal {
                Refusal::Unfit | Refusal::Crossed => {
                    println!(rt; "refused {refusal} reads={reads}")?
                }
                _ => println!(rt; "refused {refusal} entries={entries} reads={reads}")?,
            }
            print_entries::<K>(rt, buffer.as_slice(), entries)
        }
    }
}

/// Prints the entries at the front of the buffer, a line each.
fn print_entries<K: Text>(rt: &HostRuntime, buffer: &[u8], entries: usize) -> Result<(), Failure> {
    for entry in buffer.chunks_exact(K::key_width() + NUMBER).take(entries) {
        if let Some((key, number)) = entry.split_last_chunk::<NUMBER>()
            && let Some(key) = K::read(key)
        {
            let record = u32::from_be_bytes(*number);
            println!(rt; "  {key} {record}")?;
        }
    }
    Ok(())
}

/// Counts the keys.
pub fn count<K: Text>(rt: &HostRuntime, card: &mut Card) -> Result<(), Failure> {
    match index::count::count::<Card, K>(card) {
        Ok((keys, reads)) => Ok(println!(rt; "count {keys} reads={reads}")?),
        Err(refused) => print_refused(rt, refused),
    }
}

/// Prints a refusal with the reads made before it.
fn print_refused(rt: &HostRuntime, refused: Refused) -> Result<(), Failure> {
    let Refused { refusal, reads } = refused;
    Ok(println!(rt; "refused {refusal} reads={reads}")?)
}
