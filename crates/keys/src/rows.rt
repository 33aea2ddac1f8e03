//! Keys one after another, each at the front of an entry.
ghost use Rattle.std.specs.Prelude.{◌≡◌, ◌+◌, ◌*◌, ◌≤◌, true, false, length, drop, nat_le};
ghost use Rattle.keys.specs.Rows.{front_key, rows_fit, rows_rise};

use crate::key::Key;

/// Whether the keys of `count` entries, `stride` bytes apart, can all be read, and each is less than the next.
// Three values of one call: a struct of them would be made for this call and taken apart in it.
pub fn rising<K: Key>(rows: &[u8], stride: usize, count: usize) -> bool
    ensures { result ≡ rows_rise K.Key.kind stride count rows.now }
{
    fit::<K>(rows, stride, count) && climb::<K>(rows, stride, count)
}

/// Whether the bytes reach to the end of the last key.
fn fit<K: Key>(rows: &[u8], stride: usize, count: usize) -> bool
    ensures value { result ≡ rows_fit K.Key.kind stride count rows.now }
    ensures short { result ≡ false → rows_rise K.Key.kind stride count rows.now ≡ false }
{
    count == 0 || reaches(rows.len(), count - 1, stride, K::key_width())
}

/// Whether a length has room for so many steps and a width after them.
fn reaches(length: usize, steps: usize, step: usize, width: usize) -> bool
    ensures { result ≡ nat_le (steps * step + width) length }
{
    match steps.checked_mul(step) {
        Some(start) => start <= length && width <= length - start,
        None => false,
    }
}

/// Whether the keys rise, where the bytes reach to the end of the last.
fn climb<K: Key>(rows: &[u8], stride: usize, count: usize) -> bool
    requires { rows_fit K.Key.kind stride count rows.now ≡ true }
    ensures { result ≡ rows_rise K.Key.kind stride count rows.now }
{
    if count == 0 {
        return true;
    }
    let Some(first) = key_at::<K>(rows, 0) else {
        return false;
    };
    let mut last = first;
    // By index and not by chunks: entries may overlap, or all stand at one place.
    for i in 1..count {
        let Some(key) = key_at::<K>(rows, i * stride) else {
            return false;
        };
        // `<` and not `>=`, which tests both ends of a derived order at each key.
        if last < key {
            last = key;
        } else {
            return false;
        }
    }
    true
}

/// The key that begins at a place.
fn key_at<K: Key>(rows: &[u8], at: usize) -> Option<K>
    requires { at + K.Key.kind.width ≤ length rows.now }
    ensures { result ≡ front_key K.Key.kind (drop at rows.now) }
{
    K::read(&rows[at..at + K::key_width()])
}
