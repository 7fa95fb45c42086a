ghost use Rattle.std.specs.Prelude.{◌≡◌};
ghost use Rattle.outside.specs.Causes.{HasCause};
ghost use Rattle.compiler_cli.specs.Streams.{WritesBytes};
ghost use Rattle.compiler_cli.specs.Run.{Reports, line_of, status_of, stream};
ghost use Rattle.compiler_cli.specs.Texts.{joined, refusal_line, usage_line};

use crate::failure::{Failure, Status};
use crate::streams::write_piece;
use itoa::Buffer;
use outside::{Failed, Sink};
use word_base::Refusal;

/// Writes the parts of a line, one after the other.
fn write_parts<K: Sink>(sink: &mut K, parts: &[&str]) -> Result<(), Failed>
    ensures bytes { WritesBytes (K.written sink.old) (joined parts.entry.now) result (K.written sink.new) }
    ensures cause { HasCause (K.faults sink.old) (K.faults sink.new) result }
{
    for part in parts {
        write_piece(sink, part.as_bytes())?;
    }
    Ok(())
}

/// Writes the line of words that ask for nothing.
pub(crate) fn report_usage<K: Sink>(sink: &mut K) -> Status
    ensures status { result ≡ Status.Usage }
    ensures line { Reports
        (stream (K.written sink.old) (K.faults sink.old)) (stream (K.written sink.new) (K.faults sink.new)) usage_line }
{
    let _ = write_piece(sink, b"vkd3d-compiler: wrong words\n");
    Status::Usage
}

/// Writes the line of a failure, and gives its status.
pub(crate) fn report<K: Sink>(sink: &mut K, failure: Failure) -> Status
    ensures status { result ≡ status_of failure }
    ensures line { Reports
        (stream (K.written sink.old) (K.faults sink.old)) (stream (K.written sink.new) (K.faults sink.new))
        (line_of failure) }
{
    match failure {
        Failure::Refused(refusal) => {
            let _ = write_refusal(sink, refusal);
            Status::Refused
        }
        Failure::Fault => {
            let _ = write_piece(sink, b"vkd3d-compiler: outside fault\n");
            Status::Fault
        }
        Failure::NoMemory => {
            let _ = write_piece(sink, b"vkd3d-compiler: no memory\n");
            Status::NoMemory
        }
    }
}

/// Writes the line of a broken rule.
fn write_refusal<K: Sink>(sink: &mut K, refusal: Refusal) -> Result<(), Failed>
    ensures bytes { WritesBytes (K.written sink.old) (refusal_line refusal) result (K.written sink.new) }
    ensures cause { HasCause (K.faults sink.old) (K.faults sink.new) result }
{
    let mut buffer = Buffer::new();
    let place = buffer.format(refusal.place);
    write_parts(
        sink,
        &[
            "vkd3d-compiler: ",
            refusal.rule.name(),
            " at ",
            place,
            ": ",
            refusal.rule.text(),
            "\n",
        ],
    )
}
