//! The words of a command line, and what they stand for.

use crate::complaint::{Complaint, Failure};
use keys::text::Text;
use numerals::decimal::number_below;
use numerals::hex::bytes_of;
use std::alloc::{AllocError, Global};

/// The words of a line, which spaces separate.
pub fn split_words(heap: Global, line: &[u8]) -> Result<Vec<&[u8]>, AllocError> {
    line.split(|byte| *byte == b' ')
        .filter(|word| !word.is_empty())
        .collect(heap)
}

/// A decimal number of at most 32 bits.
pub fn number(word: &[u8]) -> Result<u32, Complaint> {
    number_to(word, u32::MAX)
}

/// A decimal number that is not above `most`.
pub fn number_to(word: &[u8], most: u32) -> Result<u32, Complaint> {
    let number = number_below(word, u64::from(most) + 1).ok_or(Complaint::BadNumber)?;
    Ok(number as u32)
}

/// A key of a kind.
pub fn key<K: Text>(word: &[u8]) -> Result<K, Complaint> {
    K::parse(word).ok_or(Complaint::BadKey)
}

/// Bytes in hexadecimal digits.
pub fn bytes(heap: Global, word: &[u8]) -> Result<Vec<u8>, Failure> {
    Ok(bytes_of(heap, word)?.ok_or(Complaint::BadNumber)?)
}
