//! What a kind of keys is.
ghost use Rattle.std.specs.Prelude.{◌≡◌};
ghost use Rattle.keys.specs.Kind.{Kind, Lawful, order, write_answer, written};

/// A buffer is not as long as a key.
#[derive(Clone, Copy, PartialEq, Eq, Debug)]
pub struct WrongLength;

/// A kind of keys: how they are ordered, and how they stand in bytes.
pub trait Key: Copy + Ord {
    /// How many bytes a key takes.
    const WIDTH: usize;
    /// The number of the kind.
    const CODE: u8;

    ghost kind: { Kind Self };

    /// The width, where the kind is not known.
    // Beside the constants: a clause that cites a bound's constant is refused, so generic code asks these two.
    fn key_width() -> usize
        ensures { result ≡ kind.width };

    /// The code, where the kind is not known.
    fn key_code() -> u8
        ensures { result ≡ kind.code };

    /// Writes the key. A buffer of another length is refused, and stays as it is.
    fn write(&self, out: &mut [u8]) -> Result<(), WrongLength>
        ensures answer { result ≡ write_answer kind out.old }
        ensures after { out.new ≡ written kind self.now out.old };

    /// The key that the bytes are, if they are one.
    fn read(bytes: &[u8]) -> Option<Self>
        ensures { result ≡ kind.read bytes.now };

    // keys stand to one another as the kind says
    ghost ordered: { (a b : Self) → Self.Ord.cmp a b ≡ order kind a b };

    ghost lawful: { Lawful kind };
}
