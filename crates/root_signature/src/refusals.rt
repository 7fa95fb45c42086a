ghost use Rattle.std.specs.Prelude.{◌≡◌, ◌+◌, ◌*◌, ◌<◌, ◌≤◌, ◌++◌, ◌^◌, ℕ, min, length, slice_index, Some, None, IsTrue, Contains};
ghost use Rattle.word_base.specs.Rules.{order_of, comes_before, refusal};
ghost use Rattle.word_base.specs.declared.rule.Rule.TheVariants.{G2, G3, G5};
ghost use Rattle.root_signature.specs.Layout.{words_from, range_words, range_at, parameter_at, record_at, range_count, parameter_count};
ghost use Rattle.root_signature.specs.Covering.{each, words_before};
ghost use Rattle.root_signature.specs.Refusals.{is_wrong_version, is_passing, missing, unknown, range_refusals, parameter_refusals, push_refusals, part_refusals, head_refusals, listed_refusals};
ghost use Rattle.root_signature.specs.Bests.{IsBest, AreNinth, merged};
ghost use Rattle.root_signature.specs.Runs.{AreRuns, passes};
ghost use Rattle.root_signature.specs.declared.runs.Test.TheVariants.{Known};

use crate::layout::{
    Parameter, has_flags, is_single, is_whole, parameter_at, range_words, read_parameter,
    whole_records, word, words_at, words_from, words_of_type,
};
use crate::runs::number_at;
use word_base::{Refusal, Rule};

/// The number of a rule of root signatures.
fn number_of(rule: Rule) -> u32
    requires { (order_of rule).phase ≡ 9 }
    ensures { result ≡ (order_of rule).number }
{
    match rule {
        Rule::G1 => 1,
        Rule::G2 | Rule::B2 => 2,
        Rule::G3 | Rule::B3 => 3,
        Rule::G4 => 4,
        Rule::G5 => 5,
        _ => 0,
    }
}

/// Whether a refusal comes before another, by place and then by number.
fn comes_before(a: Refusal, b: Refusal) -> bool
    requires first { (order_of a.rule).phase ≡ 9 }
    requires second { (order_of b.rule).phase ≡ 9 }
    ensures { result ≡ comes_before a b }
{
    a.place < b.place || a.place == b.place && number_of(a.rule) < number_of(b.rule)
}

/// The one of two refusals that comes first.
pub(crate) fn merged(a: Option<Refusal>, b: Option<Refusal>) -> Option<Refusal>
    requires first { AreNinth a }
    requires second { AreNinth b }
    ensures { result ≡ merged a b }
{
    match (a, b) {
        (None, _) => b,
        (Some(_), None) => a,
        (Some(first), Some(second)) => { if comes_before(second, first) { b } else { a } }
    }
}

/// The first broken rule of a record of that many words in the byte `at`, whose first word is a type
/// with a greatest known one.
fn record_refusal(content: &[u8], at: usize, words: usize, last: u32) -> Option<Refusal>
    requires words { 0 < words }
    requires small { length content.now ≤ 16777216 }
    requires place { at ≤ 1099511627776 }
    ensures { IsBest (Contains (missing content.now at words ++ unknown content.now at last)) result }
{
    let there = words_from(content, at);
    if there > 0 && word(content, at) > last {
        return Some(Refusal {
            rule: Rule::G3,
            place: at as u32,
        });
    }
    if there < words {
        return Some(missing(at, there));
    }
    None
}

/// That a word is missing, behind so many from the byte `at` on that are there.
fn missing(at: usize, there: usize) -> Refusal
    requires place { at ≤ 1099511627776 }
    requires small { there ≤ 16777216 }
    ensures { result ≡ refusal G2 (min (at + 4 * there) 4294967295) }
{
    Refusal {
        rule: Rule::G2,
        place: (at + 4 * there).min(u32::MAX as usize) as u32,
    }
}

/// The first broken rule of the ranges of a table.
fn table_refusal(content: &[u8], known: &[u32], start: usize, count: u32) -> Option<Refusal>
    requires header { 4 ≤ length content.now }
    requires small { length content.now ≤ 16777216 }
    requires start { start < 4294967296 }
    requires runs { AreRuns (passes Known content.now) (4 * range_words content.now) known.now }
    ensures { IsBest (Contains (each count (λ j. range_refusals content.now (range_at content.now start j)))) result }
{
    let words = range_words(content);
    let run = number_at(known, start);
    if run < count {
        record_refusal(content, start + 4 * words * run as usize, words, 3)
    } else {
        None
    }
}

/// The first broken rule of the parameter with the number `i`, whose words are there.
fn parameter_refusal(content: &[u8], known: &[u32], i: u32) -> Option<Refusal>
    requires header { 12 ≤ length content.now }
    requires small { length content.now ≤ 16777216 }
    requires whole { parameter_at content.now i + 12 ≤ length content.now }
    requires runs { AreRuns (passes Known content.now) (4 * range_words content.now) known.now }
    ensures { IsBest (Contains (parameter_refusals content.now i)) result }
{
    let Parameter {
        kind,
        record_at,
        ..
    } = read_parameter(content, i);
    if kind > 4 {
        return record_refusal(content, parameter_at(content, i), 3, 4);
    }
    let words = words_of_type(content, kind);
    if !is_whole(content, record_at, words) {
        return Some(missing(record_at, words_from(content, record_at)));
    }
    if kind != 0 {
        return None;
    }
    let start = word(content, record_at + 4) as usize;
    table_refusal(content, known, start, word(content, record_at))
}

/// Whether the version is there, and is neither 1 nor 2.
fn is_wrong_version(content: &[u8]) -> bool
    ensures { result ≡ is_wrong_version content.now }
{
    is_whole(content, 0, 1) && word(content, 0) != 1 && !has_flags(content)
}

/// The first broken rule of the header: a wrong version, or a word that is missing.
pub(crate) fn head_refusal(content: &[u8]) -> Option<Refusal>
    requires { length content.now ≤ 16777216 }
    ensures { IsBest (Contains (head_refusals content.now)) result }
{
    if is_wrong_version(content) {
        return Some(Refusal {
            rule: Rule::G1,
            place: 0,
        });
    }
    let there = words_from(content, 0);
    if there < 6 {
        return Some(missing(0, there));
    }
    None
}

/// Whether the root constants pass 64 words first at the parameter with the number `i`, where there are
/// so many before it.
#[tactic(auto, unfolding(crate::specs::Covering::words_before))]
fn is_passing(content: &[u8], i: u32, words: u64) -> bool
    requires header { 12 ≤ length content.now }
    requires before { words ≡ words_before content.now i }
    requires fits { words < 9223372036854775808 }
    ensures test { result ≡ is_passing content.now i }
    ensures whole { IsTrue result → parameter_at content.now i + 12 ≤ length content.now }
    ensures inside { IsTrue result → record_at content.now i + 12 ≤ length content.now }
{
    is_single(content, i, 1) && words <= 64 && 64 < words + u64::from(words_at(content, i))
}

/// That the root constants pass their limit at the parameter with the number `i`, where they do.
fn push_refusal(content: &[u8], i: u32, words: u64) -> Option<Refusal>
    requires header { 12 ≤ length content.now }
    requires small { length content.now ≤ 16777216 }
    requires before { words ≡ words_before content.now i }
    requires fits { words < 9223372036854775808 }
    ensures { IsBest (Contains (push_refusals content.now i)) result }
{
    if !is_passing(content, i, words) {
        return None;
    }
    Some(Refusal {
        rule: Rule::G5,
        place: read_parameter(content, i).record_at as u32,
    })
}

/// The first broken rule of the parameter with the number `i`, where there are so many root constants
/// before it.
fn part_refusal(content: &[u8], known: &[u32], i: u32, words: u64) -> Option<Refusal>
    requires header { 12 ≤ length content.now }
    requires small { length content.now ≤ 16777216 }
    requires whole { parameter_at content.now i + 12 ≤ length content.now }
    requires runs { AreRuns (passes Known content.now) (4 * range_words content.now) known.now }
    requires before { words ≡ words_before content.now i }
    requires fits { words < 9223372036854775808 }
    ensures { IsBest (Contains (part_refusals content.now i)) result }
{
    let shape = parameter_refusal(content, known, i);
    let push = push_refusal(content, i, words);
    merged(shape, push)
}

/// The first broken rule of those on single records and on the number of root constants.
///
/// Each parameter whose words are there takes a few steps, by the table of runs.
pub(crate) fn listed_refusal(content: &[u8], known: &[u32]) -> Option<Refusal>
    requires header { 12 ≤ length content.now }
    requires small { length content.now ≤ 16777216 }
    requires runs { AreRuns (passes Known content.now) (4 * range_words content.now) known.now }
    ensures { IsBest (Contains (listed_refusals content.now)) result }
{
    let count = word(content, 4);
    let whole = whole_records(content, word(content, 8) as usize, 3) as u32;
    let mut best = head_refusal(content);
    let mut words = 0;
    for i in 0..count.min(whole) {
        best = merged(best, part_refusal(content, known, i, words));
        words += u64::from(words_at(content, i));
    }
    if whole < count {
        let cut = record_refusal(content, parameter_at(content, whole), 3, 4);
        best = merged(best, cut);
    }
    best
}
