//! A lot.
ghost use Rattle.std.specs.Prelude.{◌^◌, ◌<◌};

/// A lot that a press made in a year.
#[derive(Clone, Copy, PartialEq, Eq, PartialOrd, Ord, Debug)]
pub struct Lot {
    pub year: u16,
    pub press: u8,
    pub number: u32,
    ghost fits: { (year < 2 ^ 16) × (press < 2 ^ 8) × (number < 2 ^ 32) },
}

pub mod calls;
