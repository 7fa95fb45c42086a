ghost use Rattle.std.specs.Prelude.{◌≡◌, ◌≢◌, ℕ, ◌+◌, ◌*◌, ◌<◌, ◌≤◌, ◌++◌, [], ◌∷◌, List, map, length, slice_index, true, Some, None, IfOk, OnOk, IfSome};
ghost use Rattle.std.specs.Option.{option_to_list};
ghost use Rattle.root_signature.specs.declared.covers.Entry.{Entry};
ghost use Rattle.root_signature.specs.Layout.{range_words, range_at, range_count, ranges_at, parameter_at, record_at};
ghost use Rattle.root_signature.specs.Covers.{span, lowest, highest};
ghost use Rattle.root_signature.specs.Covering.{cut, each, entry, range_covered, table_covered, is_visible_table, single_covers, words_before, parameter_covered, all_covered, all_words};
ghost use Rattle.root_signature.specs.Runs.{AreRuns, AreMarks, passes};
ghost use Rattle.root_signature.specs.declared.runs.Test.TheVariants.{Bare};
ghost use Rattle.root_signature.specs.Thinning.{Finds, IsReadyIn, room_of};

use crate::covers::{Covers, Entry};
use crate::layout::{
    has_record, is_single, range_words, read_parameter, whole_records, word, words_at,
};
use crate::marks::mark;
use crate::refusals::merged;
use crate::runs::{is_range, number_at, zeros};
use std::alloc::Global;
use word_base::{NoMemory, Refusal, Rule};

/// What parameters cover, as far as they were read.
#[derive(Drop)]
pub(crate) struct Found {
    /// The entries, without the ranges that were read before.
    pub(crate) entries: Vec<Entry>,
    /// The ranges that were read, by the bytes in which they begin.
    pub(crate) marks: Vec<u32>,
    /// That a range was read again which covers something; of these the first.
    pub(crate) again: Option<Refusal>,
}

/// So many registers from the base on, or as many as there are up to the last one.
fn cut(base: u32, count: u32) -> u32
    ensures { result ≡ cut base count }
{
    u64::from(count).min(0x100000000 - u64::from(base)) as u32
}

/// What the range in the byte `at` covers.
fn range_entry(content: &[u8], at: usize) -> Option<Entry>
    requires header { 4 ≤ length content.now }
    requires small { at ≤ 16777216 }
    ensures entry { option_to_list result ≡ range_covered content.now at }
    ensures some { IfSome result (λ e. lowest e.covers ≤ highest e.covers) }
{
    if !is_range(content, at) {
        return None;
    }
    let base = word(content, at + 8);
    let count = cut(base, word(content, at + 4));
    let covers = match word(content, at) {
        0 => Covers::Srv { base, count },
        1 => Covers::Uav { base, count },
        2 => Covers::Cbv { base, count },
        _ => return None,
    };
    let place = at as u32;
    Some(Entry { place, covers })
}

/// Whether the parameter with the number `i` is a visible table.
fn is_visible_table(content: &[u8], i: u32) -> bool
    requires { 12 ≤ length content.now }
    ensures test { result ≡ is_visible_table content.now i }
    ensures whole { result ≡ true → parameter_at content.now i + 12 ≤ length content.now }
    ensures fits { result ≡ true → record_at content.now i + 8 ≤ length content.now }
{
    if !has_record(content, i) {
        return false;
    }
    let parameter = read_parameter(content, i);
    parameter.visible && parameter.kind == 0
}

/// What the parameter with the number `i` covers, where it is no table and there are so many root
/// constants before it. Above 64 their number is not told.
fn single(content: &[u8], i: u32, words: u64) -> Option<Covers>
    requires header { 12 ≤ length content.now }
    requires before { words ≡ words_before content.now i }
    ensures spans { (at : ℕ) → map (span at) (option_to_list result) ≡ map (span at) (single_covers content.now i) }
    ensures exact { words ≤ 64 → option_to_list result ≡ single_covers content.now i }
    ensures some { IfSome result (λ c. lowest c ≤ highest c) }
    ensures whole { IfSome result (λ c. parameter_at content.now i + 12 ≤ length content.now) }
{
    if is_single(content, i, 1) {
        let register = word(content, read_parameter(content, i).record_at);
        let first = words.min(64) as u32;
        let count = words_at(content, i);
        return Some(Covers::Constants {
            register,
            first,
            count,
        });
    }
    if is_single(content, i, 2) {
        let base = word(content, read_parameter(content, i).record_at);
        return Some(Covers::Cbv { base, count: 1 });
    }
    if is_single(content, i, 3) {
        let base = word(content, read_parameter(content, i).record_at);
        return Some(Covers::Srv { base, count: 1 });
    }
    if is_single(content, i, 4) {
        let base = word(content, read_parameter(content, i).record_at);
        return Some(Covers::Uav { base, count: 1 });
    }
    None
}

impl Found {
    /// Nothing, of content with so many bytes.
    fn make(alloc: Global, bytes: usize) -> Result<Found, NoMemory>
        ensures found { (content : List ℕ) → length content ≡ bytes → IfOk result (Finds content [] 0) }
        ensures room { IfOk result (λ f. room_of f ≡ bytes) }
    {
        let marks = zeros(alloc, bytes)?;
        Ok(Found {
            entries: Vec::new(alloc),
            marks,
            again: None,
        })
    }

    /// Keeps one more entry.
    fn push(&mut self, entry: Entry) -> Result<(), NoMemory>
        ensures entries { OnOk result (self.new.entries.items ≡ self.old.entries.items ++ entry ∷ []) }
        ensures marks { OnOk result (self.new.marks ≡ self.old.marks) }
        ensures again { OnOk result (self.new.again ≡ self.old.again) }
    {
        self.entries.push(entry).map_err(|_| NoMemory)
    }

    /// Reads the range in the byte `at`, which was not read before.
    fn read_range(&mut self, content: &[u8], at: usize) -> Result<(), NoMemory>
        requires header { 4 ≤ length content.now }
        requires small { length content.now ≤ 16777216 }
        requires ready { IsReadyIn content.now self.old }
        requires inside { range_at content.now at 1 ≤ length content.now }
        requires new { slice_index self.old.marks.items at ≡ 0 }
        ensures found { OnOk result ((every : List Entry) (words : ℕ) → Finds content.now every words self.old
            → Finds content.now (every ++ range_covered content.now at) words self.new) }
        ensures ready { OnOk result (IsReadyIn content.now self.new) }
        ensures room { OnOk result (room_of self.new ≤ room_of self.old) }
    {
        if let Some(entry) = range_entry(content, at) {
            self.push(entry)?;
        }
        self.marks[at] = 1;
        Ok(())
    }

    /// Passes over so many ranges from the byte `at` on, all of which were read before.
    fn pass_ranges(&mut self, content: &[u8], bare: &[u32], at: usize, run: u32)
        requires header { 4 ≤ length content.now }
        requires small { length content.now ≤ 16777216 }
        requires inside { at < length content.now }
        requires runs { AreRuns (passes Bare content.now) (4 * range_words content.now) bare.now }
        requires marked { (k : ℕ) → k < run → 0 < slice_index self.old.marks.items (range_at content.now at k) }
        requires ready { IsReadyIn content.now self.old }
        ensures found { (every : List Entry) (words : ℕ) → Finds content.now every words self.old
            → Finds content.now (every ++ table_covered content.now at run) words self.new }
        ensures ready { IsReadyIn content.now self.new }
        ensures room { room_of self.new ≤ room_of self.old }
    {
        let step = 4 * range_words(content);
        let first = number_at(bare, at);
        if first < run {
            let refusal = Refusal {
                rule: Rule::G4,
                place: (at + step * first as usize) as u32,
            };
            self.again = merged(self.again, Some(refusal));
        }
    }

    /// Reads some of so many ranges from the byte `at` on, and gives how many: one that was not read
    /// before, or those that were.
    fn read_ranges(
        &mut self,
        content: &[u8],
        bare: &[u32],
        at: usize,
        left: u32,
    ) -> Result<u32, NoMemory>
        requires header { 4 ≤ length content.now }
        requires small { length content.now ≤ 16777216 }
        requires some { 0 < left }
        requires inside { range_at content.now at left ≤ length content.now }
        requires runs { AreRuns (passes Bare content.now) (4 * range_words content.now) bare.now }
        requires ready { IsReadyIn content.now self.old }
        ensures some { IfOk result (λ n. 0 < n) }
        ensures most { IfOk result (λ n. n ≤ left) }
        ensures found { IfOk result (λ n. (every : List Entry) (words : ℕ) → Finds content.now every words self.old
            → Finds content.now (every ++ table_covered content.now at n) words self.new) }
        ensures ready { OnOk result (IsReadyIn content.now self.new) }
        ensures room { OnOk result (room_of self.new ≤ room_of self.old) }
    {
        let run = self.marks[at].min(left);
        if run == 0 {
            self.read_range(content, at)?;
            return Ok(1);
        }
        self.pass_ranges(content, bare, at, run);
        Ok(run)
    }

    /// Reads so many ranges of a visible table, all of which are there.
    fn read_table(
        &mut self,
        content: &[u8],
        bare: &[u32],
        start: usize,
        count: u32,
    ) -> Result<(), NoMemory>
        requires header { 4 ≤ length content.now }
        requires small { length content.now ≤ 16777216 }
        requires start { start < 4294967296 }
        requires inside { 0 < count → range_at content.now start count ≤ length content.now }
        requires runs { AreRuns (passes Bare content.now) (4 * range_words content.now) bare.now }
        requires ready { IsReadyIn content.now self.old }
        ensures found { OnOk result ((every : List Entry) (words : ℕ) → Finds content.now every words self.old
            → Finds content.now (every ++ table_covered content.now start count) words self.new) }
        ensures ready { OnOk result (IsReadyIn content.now self.new) }
        ensures room { OnOk result (room_of self.new ≤ room_of self.old) }
    {
        let step = 4 * range_words(content);
        let mut j = 0;
        while j < count {
            j += self.read_ranges(content, bare, start + step * j as usize, count - j)?;
        }
        mark(&mut self.marks, start, step, count);
        Ok(())
    }

    /// Reads what the parameter with the number `i` covers, where there are so many root constants before
    /// it.
    fn add(&mut self, content: &[u8], bare: &[u32], i: u32, words: u64) -> Result<(), NoMemory>
        requires header { 12 ≤ length content.now }
        requires small { length content.now ≤ 16777216 }
        requires before { words ≡ words_before content.now i }
        requires runs { AreRuns (passes Bare content.now) (4 * range_words content.now) bare.now }
        requires ready { IsReadyIn content.now self.old }
        ensures found { OnOk result ((every : List Entry) → Finds content.now every words self.old
            → Finds content.now (every ++ parameter_covered content.now i) words self.new) }
        ensures ready { OnOk result (IsReadyIn content.now self.new) }
        ensures room { OnOk result (room_of self.new ≤ room_of self.old + 1) }
    {
        if is_visible_table(content, i) {
            let record_at = read_parameter(content, i).record_at;
            let start = word(content, record_at + 4) as usize;
            let whole = whole_records(content, start, range_words(content)) as u32;
            let count = word(content, record_at).min(whole);
            self.read_table(content, bare, start, count)?;
            return Ok(());
        }
        if let Some(covers) = single(content, i, words) {
            let place = read_parameter(content, i).record_at as u32;
            self.push(Entry { place, covers })?;
        }
        Ok(())
    }
}

/// What all parameters cover.
///
/// Each parameter takes a few steps beside the ranges that it reads first.
pub(crate) fn all_entries(alloc: Global, content: &[u8], bare: &[u32]) -> Result<Found, NoMemory>
    requires header { 12 ≤ length content.now }
    requires small { length content.now ≤ 16777216 }
    requires runs { AreRuns (passes Bare content.now) (4 * range_words content.now) bare.now }
    ensures found { IfOk result (Finds content.now (all_covered content.now) (all_words content.now)) }
    ensures room { IfOk result (λ f. length f.entries.items ≤ 33554432) }
{
    let whole = whole_records(content, word(content, 8) as usize, 3) as u32;
    let mut found = Found::make(alloc, content.len())?;
    let mut words = 0;
    for i in 0..word(content, 4).min(whole) {
        found.add(content, bare, i, words)?;
        words += u64::from(words_at(content, i));
    }
    Ok(found)
}
