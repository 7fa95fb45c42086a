//! no code: what proofs above may cite
ghost use Rattle.std.specs.Prelude.{◌≡◌, ℕ, List, Some, true, slice_get};
ghost use Rattle.tpf_decode.specs.Opcodes.{meaning_of};
ghost use Rattle.tpf_decode.specs.Profiles.{Base};
ghost use Rattle.tpf_program.specs.declared.instruction.Instruction.{Instruction};
ghost use Rattle.tpf_program.specs.Program.{Shader};
ghost use Rattle.raise_operands.specs.Bounds.{BoundLaws};
ghost use Rattle.raise_operands.specs.Laws.{CountLaws, GrowingLaws, OperandCostLaws, OperandLaws, PlainLaws, ProgramLaws, ReadingLaws, RunLaws};
ghost use Rattle.raise_operands.specs.Raises.{IsChecked, IsRaisable, IsScalar, Raises, RaisesScalar, is_computed};
ghost use Rattle.raise_operands.specs.Raising.{scalar_front, scalar_word, statement_of};

use tpf_program::spelled_laws;
use word_base::result_laws;

/// What a program that breaks no rule gives, for the proofs of callers: its instructions that compute
/// can be raised, and so can the numbers that control flow reads. It does nothing when it runs.
pub fn raisable_laws()
    ensures statement { (p : Shader) (tokens : List ℕ) → IsChecked p tokens
        → (k : ℕ) (i : Instruction) → slice_get p.instructions k ≡ Some i → is_computed (meaning_of Base i.code) ≡ true
        → IsRaisable p i }
    ensures scalar { (p : Shader) (tokens : List ℕ) → IsChecked p tokens
        → (k : ℕ) (i : Instruction) → slice_get p.instructions k ≡ Some i → IsScalar p i }
{
    spelled_laws();
}

/// What statements of instructions are, by their definitions. It does nothing when it runs.
///
/// The statement of an instruction that computes makes no event and leaves the registers that the
/// instruction leaves, whatever follows it; it holds no control flow but selections, names what the
/// program has, and costs no more than its length affords. Behind the front of a scalar its expression
/// has the scalar's word.
pub fn raised_laws()
    ensures statement { (p : Shader) (i : Instruction) → IsRaisable p i → Raises p i (statement_of p i) }
    ensures scalar { (p : Shader) (i : Instruction) → IsScalar p i
        → RaisesScalar p i (scalar_front p i) (scalar_word p i) }
{}

/// What holds of nodes, values and statements while a tree grows. It does nothing when it runs.
pub fn growing_laws()
    ensures { GrowingLaws }
{}

/// What holds of operands that are begun. It does nothing when it runs.
pub fn operand_laws()
    ensures { OperandLaws }
{}

/// How many nodes operands take at most, by their words. It does nothing when it runs.
pub fn count_laws()
    ensures { CountLaws }
{}

/// What holds of statements that make silent steps alone. It does nothing when it runs.
pub fn run_laws()
    ensures { RunLaws }
{}

/// What operands stand for, from the registers at the start of their instruction. It does nothing when it
/// runs.
pub fn reading_laws()
    ensures { ReadingLaws }
{}

/// What operands name. It does nothing when it runs.
pub fn plain_laws()
    ensures { PlainLaws }
{}

/// What operands cost, by their words. It does nothing when it runs.
pub fn operand_cost_laws()
    ensures { OperandCostLaws }
{}

/// What the instructions of a program that breaks no rule are. It does nothing when it runs.
pub fn program_laws()
    ensures { ProgramLaws }
{
    spelled_laws();
}

/// What keeps within bounds: literals are words, words of the registers r# stand at literal indices, and
/// of the scratch words the first few alone get a value. It does nothing when it runs.
pub fn bound_laws()
    ensures { BoundLaws }
{
    program_laws();
    result_laws();
}
