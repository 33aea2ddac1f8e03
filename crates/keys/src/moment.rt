//! A moment.
ghost use Rattle.std.specs.Prelude.{◌≡◌, ◌^◌, true, nat_lt};
ghost use Rattle.std.specs.Int.Signed.{mag};

/// A moment, in seconds before or after a fixed one.
#[derive(Clone, Copy, PartialEq, Eq, PartialOrd, Ord, Debug)]
pub struct Moment {
    pub seconds: i64,
    ghost fits: { nat_lt (mag seconds) (2 ^ 63) ≡ true },
}

pub mod calls;
