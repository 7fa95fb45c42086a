ghost use Rattle.std.specs.Prelude.{◌≡◌, ℕ, List, [], ◌∷◌, ◌++◌, Option, Some, bytes_eq, if◌then◌else◌};
ghost use Rattle.outside.specs.Causes.{Gained};
ghost use Rattle.outside.specs.Memory.{with_file};
ghost use Rattle.outside.specs.Told.{File, Output, Told, GainsLast, LastGained, beside_last, bytes_of_last, file_of, with_last};

/// What holds of outputs, of bytes gained and of files, for the proofs of callers. It does nothing
/// when it runs.
pub fn outside_laws()
    ensures gained_twice { (old mid new : Option (List ℕ)) (a b : List ℕ) → Gained old mid a → Gained mid new b → Gained old new (a ++ b) }
    ensures last_twice { (outputs : List Output) (a b : List ℕ) → with_last (with_last outputs a) b ≡ with_last outputs (a ++ b) }
    ensures gains_twice { (old mid new : Option (List Output)) (a b : List ℕ) → GainsLast old mid a → GainsLast mid new b → GainsLast old new (a ++ b) }
    ensures last_gained { (old new : Told) (bytes : List ℕ) → beside_last new ≡ beside_last old
        → Gained (bytes_of_last old.outputs) (bytes_of_last new.outputs) bytes → LastGained old new bytes }
    ensures last_is_new { (outputs : List Output) (o : Output) (bytes : List ℕ) → with_last (outputs ++ o ∷ []) bytes ≡ outputs ++ record { name = o.name; bytes = o.bytes ++ bytes } ∷ [] }
    ensures file_added { (files : List File) (name bytes other : List ℕ) → file_of (with_file files name bytes) other ≡ (if bytes_eq name other then Some bytes else file_of files other) }
{}
