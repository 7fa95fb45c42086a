//! no code: what proofs above may cite
ghost use Rattle.std.specs.Prelude.{◌≡◌, ◌+◌, ◌++◌, ◌∷◌, ℕ, List, None, Some, length, true};
ghost use Rattle.word_base.specs.Rules.{first};
ghost use Rattle.tpf_decode.specs.Profiles.{Base};
ghost use Rattle.tpf_program.specs.declared.instruction.Instruction.{Instruction};
ghost use Rattle.tpf_program.specs.Ends.{close, is_closing, is_opening, means};
ghost use Rattle.tpf_program.specs.Program.{Shader};
ghost use Rattle.tpf_program.specs.Spelling.{Spells};
ghost use Rattle.shader_check.specs.Checked.{IsChecked, checked_refusals};
ghost use Rattle.shader_check.specs.Facts.{AreDeclared, AreUsed};
ghost use Rattle.shader_check.specs.Statements.{HaveMeanings, IsNested, IsSound, Statement, Where, flattened};

/// What holds of a program that breaks no rule on declarations, uses and structure, for the proofs of
/// callers. It does nothing when it runs.
///
/// Where `check` answers Ok there is no first broken rule, so there is none. What is declared is then
/// declared once and within the limits, and what instructions use is declared. Where words spell the
/// program, its instructions are those of a nested statement with `ret` behind it.
pub fn checked_laws()
    ensures sound { (p : Shader) → first (checked_refusals p) ≡ None → IsChecked p }
    ensures declared { (p : Shader) → IsChecked p → AreDeclared p }
    ensures used { (p : Shader) → IsChecked p → AreUsed p }
    ensures known { (p : Shader) (tokens : List ℕ) → Spells Base p tokens → HaveMeanings p }
    ensures nested { (p : Shader) → HaveMeanings p → IsChecked p → IsNested p }
{}

/// What holds of the ends that match in nested statements, for the proofs of callers. It does nothing
/// when it runs.
///
/// A sound statement closes what it opens: where an opening stands in front of it and an end behind it,
/// that end closes that opening.
pub fn statement_laws()
    ensures closes { (w : Where) (s : Statement) (opening end : Instruction) (before rest : List Instruction)
        → IsSound w s → means Base is_opening opening ≡ true → means Base is_closing end ≡ true
        → close Base (before ++ (opening ∷ (flattened s ++ (end ∷ rest)))) (length before)
        ≡ Some (length before + 1 + length (flattened s)) }
{}
