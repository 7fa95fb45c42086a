ghost use Rattle.std.specs.Prelude.{◌≡◌, ℕ, List, Option};
ghost use Rattle.outside.specs.Causes.{HasCause, Takes};

use thiserror::Error;

/// A call to the outside failed.
#[derive(Clone, Copy, Debug, PartialEq, Eq, Error)]
#[error("outside fault")]
pub struct Failed;

/// Something that takes bytes.
pub trait Sink {
    /// The bytes written so far, where the sink tells them.
    ghost written: { Self → Option (List ℕ) };

    /// How many calls failed. The count stays at the last value of 64 bits.
    ghost faults: { Self → ℕ };

    /// What no write changes. A sink that writes to a part of something says here what the rest is.
    ghost Kept: { Type 0 } = { Unit {0} };

    ghost kept: { Self → Self.Kept };

    /// Takes bytes from the front of `piece`, and gives their number: not 0 where `piece` has some.
    /// Where it succeeds, the count of faults stays.
    ///
    /// # Errors
    ///
    /// `Failed` only where the count of faults rises. Nothing is written then.
    fn write(&mut self, piece: &[u8]) -> Result<usize, Failed>
        ensures bytes { Takes (written self.old) piece.now result (written self.new) }
        ensures cause { HasCause (faults self.old) (faults self.new) result }
        ensures kept { kept self.new ≡ kept self.old };
}
