//! no code: what proofs above may cite

ghost use Rattle.std.specs.Prelude.{◌≡◌, ◌<◌, ℕ, [], length, Some, IsTrue};
ghost use Rattle.kept_values.specs.Numbers.{has};
ghost use Rattle.kept_values.specs.Tables.{Table, id_in, dirty_in, elements_in, Among, IsLast, Drops};
ghost use Rattle.kept_values.specs.declared.word.Word.{Word};
ghost use Rattle.kept_values.specs.declared.word.Word.TheVariants.{Element};

/// What holds of tables, for the proofs of callers. It does nothing when it runs.
///
/// An id that is left when words are dropped was there. A word of an array waits where its number is among
/// those of the words of arrays that wait. The last word that waits is one of an array as long as one of
/// those waits.
pub fn kept_laws()
    ensures dropped { (old new : Table) (k : Word) (id : ℕ) → Drops old new → id_in new k ≡ Some id
        → id_in old k ≡ Some id }
    ensures element { (t : Table) (n : ℕ) → Among (dirty_in t) (Element n) → IsTrue (has (elements_in t) n) }
    ensures none { (t : Table) (n : ℕ) → elements_in t ≡ [] → Among (dirty_in t) (Element n) → ⊥ }
    ensures last { (t : Table) (k : Word) (id : ℕ) → IsLast t k id → 0 < length (elements_in t)
        → (n : ℕ) × (k ≡ Element n) }
    ensures all { (t : Table) → dirty_in t ≡ [] → elements_in t ≡ [] }
{}
