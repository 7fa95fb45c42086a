ghost use Rattle.std.specs.Prelude.{◌≡◌, ℕ, ◌≤◌, ◌<◌, ◌^◌, ◌⊎◌, List, [], Err, IsTrue, IfOk, IfErr, OnOk, length};
ghost use Rattle.outside.specs.Causes.{HasCause, Rose};
ghost use Rattle.outside.specs.Told.{KeepsOutputs, IsMissing};
ghost use Rattle.word_base.specs.Words.{bytes_of};
ghost use Rattle.translator.specs.Shown.{module_words};
ghost use Rattle.compiler_cli.specs.Streams.{WritesBytes, WritesLast, CameWhole, FileCame, NothingLeft, StoppedBy};
ghost use Rattle.compiler_cli.specs.Streams.{most_read};

use outside::{Desk, Failed, LastOutput, Sink, outside_laws};
use std::alloc::Global;
use translator::ModuleView;

/// The size in bytes of the pieces that are read and offered to an output.
pub(crate) const PIECE: usize = 4096;

/// How many bytes of a file are read at most: one more than the longest file that is taken.
const MOST_READ: usize = 16_777_217;

/// Why a file was not read.
#[derive(Clone, Copy, Debug, PartialEq, Eq)]
pub(crate) enum Stop {
    /// A call to the desk failed.
    Fault,
    /// Memory was wanted and could not be had.
    NoMemory,
}

/// Reads the bytes that are left of the file that was begun, at most `MOST_READ` of them.
fn read_left<D: Desk>(alloc: Global, desk: &mut D) -> Result<Vec<u8>, Stop>
    ensures whole { IfOk result (λ b. CameWhole (D.told desk.old).left b.items (D.told desk.new).left) }
    ensures limit { IfOk result (λ b. length b.items ≤ most_read) }
    ensures quiet { OnOk result ((D.told desk.new).faults ≡ (D.told desk.old).faults) }
    ensures failed { IfErr result (λ e. StoppedBy e (Rose (D.told desk.old).faults (D.told desk.new).faults)) }
    ensures kept { KeepsOutputs (D.told desk.old) (D.told desk.new) }
    ensures later { (D.told desk.old).faults ≤ (D.told desk.new).faults }
    ensures within { (D.told desk.old).faults < 2 ^ 64 → (D.told desk.new).faults < 2 ^ 64 }
{
    let mut bytes = Vec::new(alloc);
    let mut piece = [0; PIECE];
    while bytes.len() < MOST_READ {
        let want = (MOST_READ - bytes.len()).min(PIECE);
        let Ok(count) = desk.read(&mut piece[..want]) else {
            return Err(Stop::Fault);
        };
        if count == 0 {
            return Ok(bytes);
        }
        if bytes.extend_from_slice(&piece[..count]).is_err() {
            return Err(Stop::NoMemory);
        }
    }
    Ok(bytes)
}

/// Reads a file from its front, at most `MOST_READ` bytes of it. Stops with `Fault` where a call
/// fails, as it does where the desk tells its files and none has the name.
pub(crate) fn read_file<D: Desk>(alloc: Global, desk: &mut D, name: &str) -> Result<Vec<u8>, Stop>
    ensures whole { IfOk result (λ b. FileCame (D.told desk.old).files name.now b.items (D.told desk.new).left) }
    ensures limit { IfOk result (λ b. length b.items ≤ most_read) }
    ensures ended { IfOk result (λ b. length b.items < most_read → NothingLeft (D.told desk.new).left) }
    ensures missing { IsMissing (D.told desk.old).files name.now → result ≡ Err Stop.Fault }
    ensures quiet { OnOk result ((D.told desk.new).faults ≡ (D.told desk.old).faults) }
    ensures failed { IfErr result (λ e. StoppedBy e
        (Rose (D.told desk.old).faults (D.told desk.new).faults ⊎ IsMissing (D.told desk.old).files name.now)) }
    ensures kept { KeepsOutputs (D.told desk.old) (D.told desk.new) }
    ensures later { (D.told desk.old).faults ≤ (D.told desk.new).faults }
    ensures within { (D.told desk.old).faults < 2 ^ 64 → (D.told desk.new).faults < 2 ^ 64 }
{
    let Ok(()) = desk.begin_read(name) else {
        return Err(Stop::Fault);
    };
    read_left(alloc, desk)
}

/// Writes a piece, and its rest where it is taken in part. No bytes make no call.
pub(crate) fn write_piece<K: Sink>(sink: &mut K, piece: &[u8]) -> Result<(), Failed>
    ensures bytes { WritesBytes (K.written sink.old) piece.now result (K.written sink.new) }
    ensures cause { HasCause (K.faults sink.old) (K.faults sink.new) result }
    ensures kept { K.kept sink.new ≡ K.kept sink.old }
    ensures nothing { piece.now ≡ [] → sink.new ≡ sink.old }
{
    outside_laws();
    let mut done = 0;
    while done < piece.len() {
        done += sink.write(&piece[done..])?;
    }
    Ok(())
}

/// Writes the bytes of a module, in pieces of which only the last may be shorter. It puts each into the buffer, and
/// takes
/// no memory.
pub(crate) fn write_module<K: Sink>(
    sink: &mut K,
    view: &ModuleView,
    buffer: &mut [u8; PIECE],
) -> Result<(), Failed>
    ensures bytes { WritesBytes (K.written sink.old) (bytes_of (module_words view.now)) result (K.written sink.new) }
    ensures cause { HasCause (K.faults sink.old) (K.faults sink.new) result }
    ensures kept { K.kept sink.new ≡ K.kept sink.old }
    ensures nothing { module_words view.now ≡ [] → sink.new ≡ sink.old }
{
    outside_laws();
    let size = 4 * view.len();
    let mut done = 0;
    while done < size {
        let count = view.fill(done, buffer);
        write_piece(sink, &buffer[..count])?;
        done += count as u32;
    }
    Ok(())
}

/// Writes the bytes of a module to the last output of a desk, as `write_module` does.
pub(crate) fn write_module_to_desk<D: Desk>(
    desk: &mut D,
    view: &ModuleView,
    buffer: &mut [u8; PIECE],
) -> Result<(), Failed>
    requires begun { IsTrue (D.told desk.old).begun }
    ensures bytes { WritesLast (D.told desk.old) (bytes_of (module_words view.now)) result (D.told desk.new) }
    ensures cause { HasCause (D.told desk.old).faults (D.told desk.new).faults result }
    ensures nothing { module_words view.now ≡ [] → desk.new ≡ desk.old }
{
    outside_laws();
    write_module(&mut LastOutput { desk }, view, buffer)
}
