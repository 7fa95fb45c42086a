ghost use Rattle.std.specs.Prelude.{◌≡◌, IfOk, option_map};
ghost use Rattle.outside.specs.Texts.{texts_of};
ghost use Rattle.command_line.specs.Job.{choice_of, is_at_most, is_from_stream, is_stream, is_translation, job_in, job_of, version_of};
ghost use Rattle.command_line.specs.Shown.{choice_shown, job_shown, shown, values_shown};

use crate::values::{Given, read_values};
use outside::Words;
use spirv_words::Version;
use std::alloc::Global;
use word_base::NoMemory;

/// Where the binding map of a translation comes from.
#[derive(Clone, Copy, Debug, PartialEq, Eq)]
pub enum BindingChoice<'a> {
    /// The program itself: the default map.
    Default,
    /// The binding text of this name.
    Text(&'a str),
    /// The root signature of the container of this name.
    Signature(&'a str),
}

/// A translation: the names of its input and its output, where `-` is a standard stream.
#[derive(Clone, Copy, Debug, PartialEq, Eq)]
pub struct Command<'a> {
    /// The name of the input.
    pub input: &'a str,
    /// The name of the output.
    pub output: &'a str,
    /// Where its binding map comes from.
    pub bindings: BindingChoice<'a>,
    /// The version of its module.
    pub version: Version,
}

/// The name of the standard streams.
const STREAM: &str = "-";

/// What the words ask for, or `None` where they do not match the command or ask for nothing that it
/// does.
pub fn read_words<'a>(alloc: Global, words: &'a Words) -> Result<Option<Command<'a>>, NoMemory>
    ensures { IfOk result (λ r. option_map job_shown r ≡ job_of (texts_of words.now)) }
{
    match read_values(alloc, words)? {
        Some(given) => Ok(read_job(given)),
        None => Ok(None),
    }
}

/// What the values ask for.
fn read_job<'a>(given: Given<'a>) -> Option<Command<'a>>
    ensures { option_map job_shown result ≡ job_in (values_shown given.entry) }
{
    if !is_translation(given) {
        return None;
    }
    let bindings = read_choice(given.bindings, given.root_signature)?;
    let version = read_version(given.spirv_version)?;
    let input = given.input.unwrap_or(STREAM);
    let output = given.output.unwrap_or(STREAM);
    if is_stream(input) && is_from_stream(bindings) {
        return None;
    }
    Some(Command {
        input,
        output,
        bindings,
        version,
    })
}

/// Whether the values ask for a translation to a binary module.
fn is_translation(given: Given) -> bool
    ensures { result ≡ is_translation (values_shown given.entry) }
{
    is_at_most("dxbc-tpf", given.source)
        && is_at_most("spirv-binary", given.target)
        && given.simulate.is_none()
        && given.sample.is_none()
}

/// Whether a value is left out or is this one.
fn is_at_most(wanted: &str, value: Option<&str>) -> bool
    ensures { result ≡ is_at_most wanted.now (shown value.entry) }
{
    match value {
        Some(text) => text == wanted,
        None => true,
    }
}

/// The binding map by the names of a binding text and of a container. Both are too many.
fn read_choice<'a>(text: Option<&'a str>, signature: Option<&'a str>) -> Option<BindingChoice<'a>>
    ensures { option_map choice_shown result ≡ choice_of (shown text.entry) (shown signature.entry) }
{
    match (text, signature) {
        (None, None) => Some(BindingChoice::Default),
        (Some(name), None) => Some(BindingChoice::Text(name)),
        (None, Some(name)) => Some(BindingChoice::Signature(name)),
        (Some(_), Some(_)) => None,
    }
}

/// The version of a name, which is 1.3 where none is given.
fn read_version(name: Option<&str>) -> Option<Version>
    ensures { result ≡ version_of (shown name.entry) }
{
    match name {
        None => Some(Version::V13),
        Some("1.3") => Some(Version::V13),
        Some("1.4") => Some(Version::V14),
        Some(_) => None,
    }
}

/// Whether a binding map is read from the standard input.
fn is_from_stream(bindings: BindingChoice) -> bool
    ensures { result ≡ is_from_stream (choice_shown bindings.entry) }
{
    match bindings {
        BindingChoice::Default => false,
        BindingChoice::Text(name) => is_stream(name),
        BindingChoice::Signature(name) => is_stream(name),
    }
}

/// Whether a name is that of the standard streams.
fn is_stream(name: &str) -> bool
    ensures { result ≡ is_stream name.now }
{
    name == STREAM
}
