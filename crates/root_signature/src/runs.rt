ghost use Rattle.std.specs.Prelude.{◌≡◌, ◌*◌, ◌+◌, ◌≤◌, length, slice_index, replicate, IsTrue, IfOk};
ghost use Rattle.root_signature.specs.Layout.{range_words, is_whole};
ghost use Rattle.root_signature.specs.Covering.{is_range};
ghost use Rattle.root_signature.specs.Runs.{passes, AreRuns};

use crate::layout::{is_whole, range_words, word};
use std::alloc::Global;
use word_base::NoMemory;

/// What is asked of a range.
#[derive(Clone, Copy, Debug, PartialEq, Eq)]
pub(crate) enum Test {
    /// Whether its type is known.
    Known,
    /// Whether it covers nothing.
    Bare,
}

/// Whether the range in the byte `at` has registers, and is of space 0.
pub(crate) fn is_range(content: &[u8], at: usize) -> bool
    requires header { 4 ≤ length content.now }
    requires small { at ≤ 4294967295 }
    ensures test { result ≡ is_range content.now at }
    ensures fits { IsTrue result → at + 20 ≤ length content.now }
{
    is_whole(content, at, range_words(content))
        && word(content, at + 4) > 0
        && word(content, at + 12) == 0
}

/// Whether the range in the byte `at` has all of its words, and passes.
fn passes(content: &[u8], test: Test, at: usize) -> bool
    requires header { 4 ≤ length content.now }
    requires small { at ≤ 4294967295 }
    ensures { result ≡ passes test content.now at }
{
    if !is_whole(content, at, range_words(content)) {
        return false;
    }
    match test {
        Test::Known => word(content, at) <= 3,
        Test::Bare => !(is_range(content, at) && word(content, at) < 3),
    }
}

/// A table of so many zeros.
pub(crate) fn zeros(alloc: Global, n: usize) -> Result<Vec<u32>, NoMemory>
    ensures { IfOk result (λ v. v.items ≡ replicate n 0) }
{
    vec![in alloc; 0u32; n].map_err(|_| NoMemory)
}

/// The number at a place of a table, and 0 behind its end.
pub(crate) fn number_at(numbers: &[u32], at: usize) -> u32
    ensures { result ≡ slice_index numbers.now at }
{
    numbers.get(at).copied().unwrap_or(0)
}

/// For each byte, how many ranges pass that stand one behind the other from it on.
///
/// They are found from the end on, each in one step.
pub(crate) fn run_lengths(alloc: Global, content: &[u8], test: Test) -> Result<Vec<u32>, NoMemory>
    requires header { 4 ≤ length content.now }
    requires small { length content.now ≤ 16777216 }
    ensures { IfOk result (λ runs. AreRuns (passes test content.now) (4 * range_words content.now) runs.items) }
{
    let step = 4 * range_words(content);
    let mut runs = zeros(alloc, content.len())?;
    let mut at = content.len();
    while at > 0 {
        at -= 1;
        if passes(content, test, at) {
            runs[at] = number_at(&runs, at + step) + 1;
        }
    }
    Ok(runs)
}
