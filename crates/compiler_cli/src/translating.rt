//! The translation of an input that was read to an output.
ghost use Rattle.std.specs.Prelude.{◌≡◌, ℕ, ◌≤◌, List, length, IfErr, IfOk, OnOk};
ghost use Rattle.word_base.specs.Rules.{IsSound};
ghost use Rattle.root_signature.specs.declared.covers.Covers.{Covers};
ghost use Rattle.root_signature.specs.Refusals.{IsBroken};
ghost use Rattle.root_signature.specs.Signatures.{Reads};
ghost use Rattle.binding_map.specs.Roots.{root_map};
ghost use Rattle.binding_map.specs.Texts.{TextBreaks, text_map};
ghost use Rattle.command_line.specs.Shown.{choice_shown, job_shown};
ghost use Rattle.translator.specs.Input.{NamesWords};
ghost use Rattle.compiler_cli.specs.Output.{AreTaken, BreaksFile, IsMapOf};
ghost use Rattle.compiler_cli.specs.Parts.{HindersBy, IsHindered, Translates, failure_by};
ghost use Rattle.compiler_cli.specs.Run.{outside as seen};

use crate::failure::Failure;
use crate::run::deliver;
use crate::streams::PIECE;
use binding_map::{Bindings, from_default, from_root, from_text};
use command_line::{BindingChoice, Command};
use outside::{Desk, Sink};
use root_signature::{parse, signature_laws};
use std::alloc::Global;
use tpf_program::Program;
use translator::{Workspace, input_laws, room_for, translate_read};
use word_base::Halt;

/// Why no binding map was made, as why no module is.
fn failure_of(halt: Halt) -> Failure
    ensures { result ≡ failure_by halt }
{
    match halt {
        Halt::Refused(refusal) => Failure::Refused(refusal),
        Halt::NoMemory => Failure::NoMemory,
    }
}

/// The binding map that a text gives.
fn map_by_text(alloc: Global, text: &[u8]) -> Result<Bindings, Failure>
    requires { length text.now ≤ 16777216 }
    ensures sound { OnOk result (IsSound (TextBreaks text.now)) }
    ensures map { IfOk result (λ bindings. bindings ≡ text_map text.now) }
    ensures hindered { IfErr result (HindersBy (TextBreaks text.now)) }
{
    match from_text(alloc, text) {
        Ok(bindings) => Ok(bindings),
        Err(halt) => Err(failure_of(halt)),
    }
}

/// The binding map of a program under the root signature of a container.
fn map_by_signature(alloc: Global, program: &Program, file: &[u8]) -> Result<Bindings, Failure>
    requires { length file.now ≤ 16777216 }
    ensures sound { OnOk result (IsSound (IsBroken file.now)) }
    ensures map { IfOk result (λ bindings. (entries : List Covers) × Reads file.now entries ×
        (bindings ≡ root_map entries program.now.shader)) }
    ensures hindered { IfErr result (HindersBy (IsBroken file.now)) }
{
    match parse(alloc, file) {
        Ok(root) => from_root(alloc, &root, program).map_err(|_| Failure::NoMemory),
        Err(halt) => Err(failure_of(halt)),
    }
}

/// The binding map of a program, by a choice and the bytes of its file.
fn map_for(
    alloc: Global,
    choice: BindingChoice,
    program: &Program,
    file: &[u8],
) -> Result<Bindings, Failure>
    requires { length file.now ≤ 16777216 }
    ensures sound { OnOk result (IsSound (BreaksFile (choice_shown choice.entry) file.now)) }
    ensures map { IfOk result (IsMapOf (choice_shown choice.entry) file.now program.now.shader) }
    ensures hindered { IfErr result (IsHindered (choice_shown choice.entry) file.now) }
{
    match choice {
        BindingChoice::Default => from_default(alloc, program).map_err(|_| Failure::NoMemory),
        BindingChoice::Text(_) => map_by_text(alloc, file),
        BindingChoice::Signature(_) => map_by_signature(alloc, program, file),
    }
}

/// Translates an input under the binding map of its command, and writes the module to the output.
pub(crate) fn translate_to<D: Desk, O: Sink>(
    alloc: Global,
    desk: &mut D,
    out: &mut O,
    command: Command,
    input: &[u8],
    file: &[u8],
) -> Result<(), Failure>
    requires taken { AreTaken input.now file.now }
    ensures { Translates (job_shown command.entry)
        (seen (D.told desk.old) (O.written out.old) (O.faults out.old))
        (seen (D.told desk.new) (O.written out.new) (O.faults out.new))
        input.now file.now result }
{
    let Ok(mut work) = Workspace::make(alloc, room_for(input)) else {
        return Err(Failure::NoMemory);
    };
    let result = translate_in(&mut work, alloc, desk, out, command, input, file);
    work.release();
    result
}

/// Does it in a workspace with room for the program of the input.
fn translate_in<D: Desk, O: Sink>(
    work: &mut Workspace,
    alloc: Global,
    desk: &mut D,
    out: &mut O,
    command: Command,
    input: &[u8],
    file: &[u8],
) -> Result<(), Failure>
    requires taken { AreTaken input.now file.now }
    requires room { (n : ℕ) → NamesWords input.now n → n ≤ work.old.words }
    ensures { Translates (job_shown command.entry)
        (seen (D.told desk.old) (O.written out.old) (O.faults out.old))
        (seen (D.told desk.new) (O.written out.new) (O.faults out.new))
        input.now file.now result }
{
    input_laws();
    signature_laws();
    if let Err(refusal) = work.read(input) {
        return Err(Failure::Refused(refusal));
    }
    let bindings = match map_for(alloc, command.bindings, work.program(), file) {
        Ok(bindings) => bindings,
        Err(failure) => return Err(failure),
    };
    let mut buffer = [0; PIECE];
    match translate_read(work, &bindings, command.version) {
        Ok(view) => match deliver(desk, out, command.output, &view, &mut buffer) {
            Ok(()) => Ok(()),
            Err(_) => Err(Failure::Fault),
        },
        Err(refusal) => Err(Failure::Refused(refusal)),
    }
}
