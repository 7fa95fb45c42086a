ghost use Rattle.std.specs.Prelude.{IsTrue};
ghost use Rattle.outside.specs.Causes.{HasCause, HasCauseOr};
ghost use Rattle.outside.specs.Told.{Told, BeginsRead, Reads, BeginsWrite, Writes, IsMissing};

use crate::sink::Failed;

/// Where files are read by name and outputs are written.
pub trait Desk {
    /// What the desk tells of its files, of the file that is read, of its outputs and of its faults.
    ghost told: { Self → Told };

    /// Begins to read the file `name` from its front; `-` is standard input. Where it succeeds, the
    /// count of faults stays.
    ///
    /// # Errors
    ///
    /// `Failed` only where the count of faults rises, or where the desk tells its files and none has
    /// the name. What was read before is read on.
    fn begin_read(&mut self, name: &str) -> Result<(), Failed>
        ensures desk { BeginsRead (told self.old) name.now result (told self.new) }
        ensures cause { HasCauseOr (IsMissing (told self.old).files name.now) (told self.old).faults (told self.new).faults result };

    /// Puts the next bytes of the file to the front of `piece`, and gives their number: 0 at the end
    /// of the file, for an empty piece, and where no file was begun. Where it succeeds, the count of
    /// faults stays.
    ///
    /// # Errors
    ///
    /// `Failed` only where the count of faults rises. Nothing is read then.
    fn read(&mut self, piece: &mut [u8]) -> Result<usize, Failed>
        ensures desk { Reads (told self.old) piece.new result (told self.new) }
        ensures cause { HasCause (told self.old).faults (told self.new).faults result };

    /// Begins an output of that name, behind those begun before. Where it succeeds, the count of
    /// faults stays.
    ///
    /// # Errors
    ///
    /// `Failed` only where the count of faults rises. No output is begun then.
    fn begin_write(&mut self, name: &str) -> Result<(), Failed>
        ensures desk { BeginsWrite (told self.old) name.now result (told self.new) }
        ensures cause { HasCause (told self.old).faults (told self.new).faults result };

    /// Adds bytes from the front of `piece` to the output begun last, and gives their number: not 0
    /// where `piece` has some. Where it succeeds, the count of faults stays.
    ///
    /// # Errors
    ///
    /// `Failed` only where the count of faults rises. Nothing is written then.
    fn write(&mut self, piece: &[u8]) -> Result<usize, Failed>
        requires begun { IsTrue (told self.old).begun }
        ensures desk { Writes (told self.old) piece.now result (told self.new) }
        ensures cause { HasCause (told self.old).faults (told self.new).faults result };
}
