ghost use Rattle.std.specs.Prelude.{◌≡◌, ◌≤◌, ◌<◌, ◌⊎◌, Some, IfOk, IfErr, OnOk, length};
ghost use Rattle.word_base.specs.Rules.{IsFirst};
ghost use Rattle.word_base.specs.Words.{bytes_of};
ghost use Rattle.word_base.specs.declared.rule.Refusal.{Refusal};
ghost use Rattle.outside.specs.Causes.{Rose};
ghost use Rattle.outside.specs.Told.{KeepsOutputs};
ghost use Rattle.outside.specs.Texts.{texts_of};
ghost use Rattle.command_line.specs.Job.{Job, is_stream, job_of};
ghost use Rattle.command_line.specs.Shown.{choice_shown, job_shown};
ghost use Rattle.translator.specs.Shown.{module_words};
ghost use Rattle.compiler_cli.specs.Output.{BreaksIn, LacksBindingFile, LacksFile};
ghost use Rattle.compiler_cli.specs.Parts.{Came, FailsToCome, HasBindingsCome};
ghost use Rattle.compiler_cli.specs.Run.{Answers, DeliversBy, Ends, IsFree, IsOrWantsMemory, IsRefused, IsUsage};
ghost use Rattle.compiler_cli.specs.Run.{outside as seen, stream};
ghost use Rattle.compiler_cli.specs.Streams.{NothingLeft, StoppedBy, most_read};

use crate::failure::{Failure, Status};
use crate::report::{report, report_usage};
use crate::streams::{PIECE, Stop, read_file, write_module, write_module_to_desk};
use crate::translating::translate_to;
use command_line::{BindingChoice, Command, read_words};
use outside::{Desk, Failed, Sink, Words, outside_laws};
use std::alloc::Global;
use translator::ModuleView;
use word_base::{Refusal, Rule};

/// The most bytes that a file may have.
const MOST_BYTES: usize = 16_777_216;

/// The answer to a file with more.
const TOO_LARGE: Failure = Failure::Refused(Refusal {
    rule: Rule::M1,
    place: 16_777_216,
});

/// The name of the standard streams.
const STREAM: &str = "-";

/// Does what the words ask for: reads the input and the file of its binding map through the desk,
/// translates the input, and writes the module to `out`, or to the desk where the words name an
/// output. Where that fails, one line on `err` says why.
///
/// The module is whole before its first byte is written, and no memory is taken from then on. Before
/// `Refused`, `Usage` and `NoMemory` nothing is written and no output is begun.
pub fn run<D: Desk, O: Sink, E: Sink>(
    alloc: Global,
    words: &Words,
    desk: &mut D,
    out: &mut O,
    err: &mut E,
) -> Status
    ensures usage { IsUsage (texts_of words.now) result }
    ensures answer { Answers (texts_of words.now)
        (seen (D.told desk.old) (O.written out.old) (O.faults out.old))
        (seen (D.told desk.new) (O.written out.new) (O.faults out.new))
        (stream (E.written err.old) (E.faults err.old)) (stream (E.written err.new) (E.faults err.new)) result }
    ensures missing { (job : Job) → job_of (texts_of words.now) ≡ Some job
        → LacksFile job (D.told desk.old).files → IsOrWantsMemory Status.Fault result }
    ensures refused { (job : Job) (r : Refusal) → job_of (texts_of words.now) ≡ Some job
        → IsFirst (BreaksIn job (D.told desk.old).files) r
        → IsRefused (seen (D.told desk.old) (O.written out.old) (O.faults out.old))
        (seen (D.told desk.new) (O.written out.new) (O.faults out.new)) result }
    ensures complete { (job : Job) → job_of (texts_of words.now) ≡ Some job
        → IsFree job (seen (D.told desk.old) (O.written out.old) (O.faults out.old))
        (seen (D.told desk.new) (O.written out.new) (O.faults out.new))
        → IsOrWantsMemory Status.Ok result }
{
    answer(alloc, words, desk, out, err)
}

/// Does what the words ask for, and reports why it failed.
fn answer<D: Desk, O: Sink, E: Sink>(
    alloc: Global,
    words: &Words,
    desk: &mut D,
    out: &mut O,
    err: &mut E,
) -> Status
    ensures { Answers (texts_of words.now)
        (seen (D.told desk.old) (O.written out.old) (O.faults out.old))
        (seen (D.told desk.new) (O.written out.new) (O.faults out.new))
        (stream (E.written err.old) (E.faults err.old)) (stream (E.written err.new) (E.faults err.new)) result }
{
    let command = match read_words(alloc, words) {
        Ok(Some(command)) => command,
        Ok(None) => return report_usage(err),
        Err(_) => return report(err, Failure::NoMemory),
    };
    match perform(alloc, desk, out, command) {
        Ok(()) => Status::Ok,
        Err(failure) => report(err, failure),
    }
}

/// Translates the input of a command to its output.
fn perform<D: Desk, O: Sink>(
    alloc: Global,
    desk: &mut D,
    out: &mut O,
    command: Command,
) -> Result<(), Failure>
    ensures { Ends (job_shown command.entry)
        (seen (D.told desk.old) (O.written out.old) (O.faults out.old))
        (seen (D.told desk.new) (O.written out.new) (O.faults out.new)) result }
{
    match read_files(alloc, desk, command) {
        Ok(files) => {
            let input = files.input.as_slice();
            translate_to(alloc, desk, out, command, input, files.bindings.as_slice())
        }
        Err(failure) => Err(failure),
    }
}

/// The files that a job reads.
#[derive(Drop)]
struct Files {
    /// The bytes of its input.
    input: Vec<u8>,
    /// The bytes of the file of its binding map, or none where it has none.
    bindings: Vec<u8>,
}

/// Reads the file of a binding map, if there is one.
fn read_bindings<D: Desk>(
    alloc: Global,
    desk: &mut D,
    choice: BindingChoice,
) -> Result<Vec<u8>, Stop>
    ensures whole { IfOk result (λ b. HasBindingsCome (D.told desk.old).files (choice_shown choice.entry) b.items) }
    ensures ended { IfOk result (λ b. length b.items < most_read
        → NothingLeft (D.told desk.old).left → NothingLeft (D.told desk.new).left) }
    ensures quiet { OnOk result ((D.told desk.new).faults ≡ (D.told desk.old).faults) }
    ensures failed { IfErr result (λ e. StoppedBy e
        (Rose (D.told desk.old).faults (D.told desk.new).faults
        ⊎ LacksBindingFile (D.told desk.old).files (choice_shown choice.entry))) }
    ensures kept { KeepsOutputs (D.told desk.old) (D.told desk.new) }
{
    match choice {
        BindingChoice::Default => Ok(Vec::new(alloc)),
        BindingChoice::Text(name) => read_file(alloc, desk, name),
        BindingChoice::Signature(name) => read_file(alloc, desk, name),
    }
}

/// Reads the files of a command. It is refused where one of them has too many bytes.
fn read_files<D: Desk>(alloc: Global, desk: &mut D, command: Command) -> Result<Files, Failure>
    ensures came { IfOk result (λ f.
        Came (job_shown command.entry) (D.told desk.old) (D.told desk.new) f.input.items f.bindings.items) }
    ensures failed { IfErr result (FailsToCome (job_shown command.entry) (D.told desk.old) (D.told desk.new)) }
    ensures kept { KeepsOutputs (D.told desk.old) (D.told desk.new) }
{
    let input = match read_file(alloc, desk, command.input) {
        Ok(bytes) => bytes,
        Err(Stop::Fault) => return Err(Failure::Fault),
        Err(Stop::NoMemory) => return Err(Failure::NoMemory),
    };
    let bindings = match read_bindings(alloc, desk, command.bindings) {
        Ok(bytes) => bytes,
        Err(Stop::Fault) => return Err(Failure::Fault),
        Err(Stop::NoMemory) => return Err(Failure::NoMemory),
    };
    if input.len() > MOST_BYTES {
        return Err(TOO_LARGE);
    }
    if bindings.len() > MOST_BYTES {
        return Err(TOO_LARGE);
    }
    Ok(Files { input, bindings })
}

/// Whether a name is that of the standard streams.
fn is_stream(name: &str) -> bool
    ensures { result ≡ is_stream name.now }
{
    name == STREAM
}

/// Writes the bytes of a module to the stream, or to a new output of the desk.
pub(crate) fn deliver<D: Desk, O: Sink>(
    desk: &mut D,
    out: &mut O,
    name: &str,
    view: &ModuleView,
    buffer: &mut [u8; PIECE],
) -> Result<(), Failed>
    ensures { DeliversBy name.now
        (seen (D.told desk.old) (O.written out.old) (O.faults out.old))
        (seen (D.told desk.new) (O.written out.new) (O.faults out.new))
        (bytes_of (module_words view.now)) result }
{
    if is_stream(name) {
        return write_module(out, view, buffer);
    }
    outside_laws();
    desk.begin_write(name)?;
    write_module_to_desk(desk, view, buffer)
}
