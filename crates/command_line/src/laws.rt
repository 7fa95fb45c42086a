ghost use Rattle.std.specs.Prelude.{◌≡◌, ◌↔◌, ℕ, List, None};
ghost use Rattle.command_line.specs.Job.{job_of};
ghost use Rattle.command_line.specs.Usage.{AsksNothing};

/// Words ask for nothing exactly where a cause of the list in `specs/Usage` is there. It does nothing
/// when it runs.
pub fn usage_laws()
    ensures nothing { (words : List (List ℕ)) → (job_of words ≡ None) ↔ AsksNothing words }
{}
