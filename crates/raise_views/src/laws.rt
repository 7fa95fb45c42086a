//! no code: what proofs above may cite
ghost use Rattle.std.specs.Prelude.{◌≡◌, ℕ, Bool, IsTrue, List, [], Some, true, slice_get};
ghost use Rattle.tpf_decode.specs.Opcodes.{meaning_of};
ghost use Rattle.tpf_decode.specs.Profiles.{Base};
ghost use Rattle.tpf_program.specs.declared.instruction.Instruction.{Instruction};
ghost use Rattle.tpf_program.specs.Holding.{IsProgramOfWords};
ghost use Rattle.tpf_program.specs.Program.{Shader};
ghost use Rattle.tpf_program.specs.Spelling.{operands};
ghost use Rattle.shader_tree.specs.Shape.{shape};
ghost use Rattle.shader_tree.specs.Terms.{Term};
ghost use Rattle.shader_tree.specs.Walks.{Each, changed_in, holds_no, is_event, is_flow};
ghost use Rattle.binding_map.specs.Bindings.{Binding};
ghost use Rattle.binding_map.specs.Fits.{is_null_in};
ghost use Rattle.word_base.specs.declared.event.Room.{Room};
ghost use Rattle.raise_operands.specs.Bounds.{IsBounded, IsWithin};
ghost use Rattle.raise_operands.specs.Raises.{IsChecked};
ghost use Rattle.raise_views.specs.Guarding.{is_guarded, statement_of};
ghost use Rattle.raise_views.specs.Guards.{Guards, IsGuardable};

use raise_operands::{
    bound_laws, operand_cost_laws, plain_laws, program_laws, reading_laws, run_laws,
};

/// What a program that breaks no rule gives, for the proofs of callers: its instructions that read a
/// length, make an event or synchronise can be guarded. It does nothing when it runs.
pub fn guardable_laws()
    ensures { (p : Shader) (tokens : List ℕ) → IsChecked p tokens
        → (k : ℕ) (i : Instruction) → slice_get p.instructions k ≡ Some i → is_guarded (meaning_of Base i.code) ≡ true
        → IsGuardable p i }
{
    program_laws();
}

/// What the statements of guarded instructions are, by their definitions. It does nothing when it runs.
///
/// Under a setting that fits the program and its bindings the statement makes the events of the plan under
/// every list of answers, and leaves the registers of the instruction, whatever follows it; what makes
/// events in it is what the shape counts; it holds no control flow but selections, names what the program
/// has and no null room, and costs no more than its length affords.
pub fn guarded_laws()
    ensures { (bindings : List Binding) (p : Shader) (i : Instruction)
        → IsGuardable p i → Guards (is_null_in bindings) p i (statement_of (is_null_in bindings) p i) }
{
    operand_cost_laws();
    plain_laws();
    reading_laws();
    run_laws();
}

/// What a statement without events does not hold, for the proofs of callers: it changes no room, and
/// without control flow but selections nothing in it shows. It does nothing when it runs.
pub fn quiet_laws()
    ensures changed { (x : Term) → IsTrue (holds_no is_event x) → changed_in x ≡ [] }
    ensures shown { (x : Term) → IsTrue (holds_no is_event x) → IsTrue (holds_no is_flow x) → shape x ≡ [] }
{}

/// The statements of guarded instructions keep within bounds, where the program holds words: literals
/// are words, words of the registers r# stand at literal indices, and of the scratch words the first few
/// alone get a value. It does nothing when it runs.
pub fn guarded_bound_laws()
    ensures { (p : Shader) (is_null : Room → Bool) (i : Instruction) → IsProgramOfWords p → Each (IsWithin p) (operands i)
        → IsBounded (statement_of is_null p i) }
{
    bound_laws();
}
