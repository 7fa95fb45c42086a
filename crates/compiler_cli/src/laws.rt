ghost use Rattle.std.specs.Prelude.{◌≢◌, ℕ, List};
ghost use Rattle.compiler_cli.specs.Run.{Answers, HasFiles, IsQuiet, Outside, Stream};

use crate::failure::Status;

/// Over a desk and sinks that count no faults no answer is `Fault` where the files are there. It does
/// nothing when it runs.
pub fn run_laws()
    ensures quiet { (words : List (List ℕ)) (old new : Outside) (err err' : Stream) (status : Status)
        → IsQuiet old → IsQuiet new → HasFiles words old.desk → Answers words old new err err' status
        → status ≢ Status.Fault }
{}
