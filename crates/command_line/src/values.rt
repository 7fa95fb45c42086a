ghost use Rattle.std.specs.Prelude.{◌≡◌, IfOk, map, option_map, false};
ghost use Rattle.clap.specs.Words.{app_of, rule_of, new_rule, with_rule, rows_of, found_of, first_of, matches_of, fault_of, FailsBy};
ghost use Rattle.outside.specs.Texts.{texts_of};
ghost use Rattle.command_line.specs.Command.{bare_command, binding_command, command, letter_rule, output_command, values_in, values_of, word_rule};
ghost use Rattle.command_line.specs.Shown.{shown, values_shown};

use clap::error::ErrorKind;
use clap::{Arg, ArgMatches, Command, Error};
use outside::Words;
use std::alloc::{AllocError, Global};
use word_base::NoMemory;

/// What the words give to each option and to INPUT.
#[derive(Clone, Copy, Debug)]
pub(crate) struct Given<'a> {
    /// The kind of the input.
    pub source: Option<&'a str>,
    /// The kind of the output.
    pub target: Option<&'a str>,
    /// The name of the output.
    pub output: Option<&'a str>,
    /// The name of a binding text.
    pub bindings: Option<&'a str>,
    /// The name of a container with a root signature.
    pub root_signature: Option<&'a str>,
    /// The name of a dispatch text.
    pub simulate: Option<&'a str>,
    /// The number of a sample's rounds.
    pub sample: Option<&'a str>,
    /// The version of the module.
    pub spirv_version: Option<&'a str>,
    /// The name of the input.
    pub input: Option<&'a str>,
}

/// An option of one letter.
fn letter_option<'a>(alloc: Global, id: &'a str, letter: char) -> Arg<'a>
    ensures rule { rule_of result ≡ letter_rule id.entry.now letter }
    ensures local { result.global ≡ false }
{
    Arg::new(alloc, id).short(letter)
}

/// An option that is a word.
fn word_option<'a>(alloc: Global, id: &'a str) -> Arg<'a>
    ensures rule { rule_of result ≡ word_rule id.entry.now }
    ensures local { result.global ≡ false }
{
    Arg::new(alloc, id).long(id)
}

/// A command with one option more.
fn with<'a>(base: Command<'a>, option: Arg<'a>) -> Result<Command<'a>, AllocError>
    requires local { option.global ≡ false }
    ensures { IfOk result (λ c. app_of c ≡ with_rule (app_of base.entry) (rule_of option.entry)) }
{
    base.arg(option)
}

/// The command without options.
fn make_bare<'a>(alloc: Global) -> Command<'a>
    ensures { app_of result ≡ bare_command }
{
    Command::new(alloc, "vkd3d-compiler").no_binary_name(true)
}

/// The command with the options on the kinds of the input and of the output, and on the output's
/// name.
fn make_output<'a>(alloc: Global) -> Result<Command<'a>, AllocError>
    ensures { IfOk result (λ c. app_of c ≡ output_command) }
{
    let base = with(make_bare(alloc), letter_option(alloc, "x", 'x'))?;
    let base = with(base, letter_option(alloc, "b", 'b'))?;
    with(base, letter_option(alloc, "o", 'o'))
}

/// The command with the two binding options besides.
fn make_binding<'a>(alloc: Global) -> Result<Command<'a>, AllocError>
    ensures { IfOk result (λ c. app_of c ≡ binding_command) }
{
    let base = make_output(alloc)?;
    let base = with(base, word_option(alloc, "bindings"))?;
    with(base, word_option(alloc, "root-signature"))
}

/// The command.
#[tactic(auto, unfolding(crate::specs::Command::command))]
fn make_command<'a>(alloc: Global) -> Result<Command<'a>, AllocError>
    ensures { IfOk result (λ c. app_of c ≡ command) }
{
    let base = make_binding(alloc)?;
    let base = with(base, word_option(alloc, "simulate"))?;
    let base = with(base, word_option(alloc, "sample"))?;
    let base = with(base, word_option(alloc, "spirv-version"))?;
    with(base, Arg::new(alloc, "INPUT"))
}

/// The value of an option.
fn text_of<'a>(matches: &ArgMatches<'a>, id: &str) -> Option<&'a str>
    ensures { shown result ≡ first_of id.now (rows_of (found_of matches.now)) }
{
    matches.get_str(id)
}

/// The values of all options.
fn gather<'a>(matches: &ArgMatches<'a>) -> Given<'a>
    ensures { values_shown result ≡ values_in (rows_of (found_of matches.now)) }
{
    Given {
        source: text_of(matches, "x"),
        target: text_of(matches, "b"),
        output: text_of(matches, "o"),
        bindings: text_of(matches, "bindings"),
        root_signature: text_of(matches, "root-signature"),
        simulate: text_of(matches, "simulate"),
        sample: text_of(matches, "sample"),
        spirv_version: text_of(matches, "spirv-version"),
        input: text_of(matches, "INPUT"),
    }
}

/// The matches of the words.
fn match_words<'a>(alloc: Global, words: &'a Words) -> Result<ArgMatches<'a>, Error>
    ensures matches { IfOk result (λ m. rows_of (found_of m) ≡ matches_of command (texts_of words.now)) }
    ensures fails { FailsBy (fault_of command (texts_of words.now)) result }
{
    make_command(alloc)?.try_get_matches_from(words.list.as_slice())
}

/// The values that the words give, or `None` where they do not match the command.
pub(crate) fn read_values<'a>(
    alloc: Global,
    words: &'a Words,
) -> Result<Option<Given<'a>>, NoMemory>
    ensures { IfOk result (λ r. option_map values_shown r ≡ values_of (texts_of words.now)) }
{
    match match_words(alloc, words) {
        Ok(matches) => Ok(Some(gather(&matches))),
        Err(error) => match error.kind() {
            ErrorKind::OutOfMemory => Err(NoMemory),
            _ => Ok(None),
        },
    }
}
