ghost use Rattle.std.specs.Prelude.{◌≡◌, ℕ, ◌+◌, ◌*◌, ◌<◌, ◌≤◌, ◌++◌, [], ◌∷◌, List, length, slice_index, map, IfOk, Contains};
ghost use Rattle.std.specs.List.Sorted.{IsNonDecreasing, IsPermutation};
ghost use Rattle.root_signature.specs.declared.covers.Entry.{Entry};
ghost use Rattle.root_signature.specs.Covers.{Span, lowest, highest};
ghost use Rattle.root_signature.specs.Covering.{span_of, spans_of};
ghost use Rattle.root_signature.specs.Refusals.{IsCoveredTwice};
ghost use Rattle.root_signature.specs.Bests.{IsBest, AreNinth};
ghost use Rattle.root_signature.specs.Runs.{AreMarks};
ghost use Rattle.root_signature.specs.Overlaps.{Overlapping, AreSome};

use crate::covers::{Entry, highest, lowest};
use crate::marks::{is_any_marked, mark};
use crate::refusals::merged;
use crate::runs::zeros;
use std::alloc::Global;
use word_base::{NoMemory, Refusal, Rule};

/// The first registers of entries, in the row of all registers, in ascending order.
fn sorted_rows(alloc: Global, entries: &[Entry]) -> Result<Vec<u64>, NoMemory>
    ensures sorted { IfOk result (λ rows. IsNonDecreasing rows.items) }
    ensures moved { IfOk result (λ rows. IsPermutation (map (λ e. lowest e.covers) entries.now) rows.items) }
{
    let mut rows = Vec::new(alloc);
    for entry in entries {
        rows.push(lowest(entry.covers)).map_err(|_| NoMemory)?;
    }
    rows.sort_unstable();
    Ok(rows)
}

/// The place of the first of the rows from `row` on.
fn first_from(rows: &[u64], row: u64) -> usize
    requires { IsNonDecreasing rows.now }
    ensures bound { result ≤ length rows.now }
    ensures before { (k : ℕ) → k < result → slice_index rows.now k < row }
    ensures behind { (k : ℕ) → result ≤ k → k < length rows.now → row ≤ slice_index rows.now k }
{
    rows.partition_point(|other| *other < row)
}

/// Marks the rows of one more entry, and gives the best refusal with it: the entry is refused where one of
/// its rows is marked.
fn meet(rows: &[u64], marks: &mut [u32], best: Option<Refusal>, entry: Entry) -> Option<Refusal>
    requires sorted { IsNonDecreasing rows.now }
    requires small { length rows.now < 4294967296 }
    requires has_row { Contains rows.now (lowest entry.covers) }
    requires some { lowest entry.covers ≤ highest entry.covers }
    requires size { length marks.old ≡ length rows.now }
    requires marks { AreMarks 1 marks.old }
    requires phase { AreNinth best }
    ensures { (spans : List Span) → AreSome rows.now spans → Overlapping rows.now spans marks.old best
        → Overlapping rows.now (spans ++ span_of entry ∷ []) marks.new result }
{
    let from = first_from(rows, lowest(entry.covers));
    let to = first_from(rows, highest(entry.covers) + 1);
    let is_met = is_any_marked(marks, from, to);
    mark(marks, from, 1, (to - from) as u32);
    if !is_met {
        return best;
    }
    let refusal = Refusal {
        rule: Rule::G4,
        place: entry.place,
    };
    merged(best, Some(refusal))
}

/// The first of the refusals of entries that cover a register which an earlier one covers.
///
/// The first registers are sorted once; each entry then takes two searches among them, and the rows that
/// it covers first.
pub(crate) fn overlap_refusal(alloc: Global, entries: &[Entry]) -> Result<Option<Refusal>, NoMemory>
    requires small { length entries.now < 4294967296 }
    requires some { (e : Entry) → Contains entries.now e → lowest e.covers ≤ highest e.covers }
    ensures { IfOk result (λ best. IsBest (IsCoveredTwice (spans_of entries.now)) best) }
{
    let rows = sorted_rows(alloc, entries)?;
    let mut marks = zeros(alloc, entries.len())?;
    let mut best = None;
    for entry in entries {
        best = meet(&rows, &mut marks, best, *entry);
    }
    Ok(best)
}
