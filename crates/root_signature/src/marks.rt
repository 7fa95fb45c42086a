ghost use Rattle.std.specs.Prelude.{◌≡◌, ℕ, ◌+◌, ◌-◌, ◌*◌, ◌<◌, ◌≤◌, length, slice_index, IsTrue, false};
ghost use Rattle.root_signature.specs.Runs.{AreMarks, Marks};

/// Marks `count` places from `start` on, one every `step`.
///
/// Each marked place holds how many are marked from it on, so a later call passes over them at once:
/// over all calls the steps are few more than the places.
pub(crate) fn mark(marks: &mut [u32], start: usize, step: usize, count: u32)
    requires step { 0 < step }
    requires small { start + step * count < 18446744073709551616 }
    requires inside { 0 < count → start + step * (count - 1) < length marks.old }
    requires marks { AreMarks step marks.old }
    ensures { Marks step start count marks.old marks.new }
{
    let mut j = 0;
    while j < count {
        let at = start + step * j as usize;
        let run = marks[at];
        let left = count - j;
        if run < left {
            marks[at] = left;
        }
        j += run.min(left).max(1);
    }
}

/// Whether one of the places from `from` to before `to` is marked.
pub(crate) fn is_any_marked(marks: &[u32], from: usize, to: usize) -> bool
    requires { to ≤ length marks.now }
    ensures marked { IsTrue result → (at : ℕ) × (from ≤ at) × (at < to) × (0 < slice_index marks.now at) }
    ensures unmarked { result ≡ false → (at : ℕ) → from ≤ at → at < to → slice_index marks.now at ≡ 0 }
{
    for at in from..to {
        if marks[at] > 0 {
            return true;
        }
    }
    false
}
