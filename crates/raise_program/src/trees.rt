//! no code: what proofs above may cite of the tree of a whole program
ghost use Rattle.std.specs.Prelude.{◌≡◌, ℕ, List, Some, slice_get};
ghost use Rattle.tpf_program.specs.Holding.{AreOfWords, IsProgramOfWords};
ghost use Rattle.tpf_program.specs.Program.{Shader};
ghost use Rattle.tpf_program.specs.declared.instruction.Instruction.{Instruction};
ghost use Rattle.binding_map.specs.Bindings.{Binding};
ghost use Rattle.binding_map.specs.Fits.{is_null_in};
ghost use Rattle.shader_check.specs.Checked.{IsChecked as BreaksNoRule};
ghost use Rattle.shader_check.specs.Statements.{IsNested};
ghost use Rattle.raise_operands.specs.Raises.{IsChecked};
ghost use Rattle.raise_program.specs.Parts.{parts_of};
ghost use Rattle.raise_program.specs.Raised.{raised};
ghost use Rattle.raise_program.specs.TreeOf.{IsTreeOf};

use raise_operands::{bound_laws, operand_cost_laws, program_laws, raisable_laws, raised_laws};
use raise_views::{guardable_laws, guarded_bound_laws, guarded_laws, quiet_laws};
use shader_check::checked_laws;

/// What the raised tree of a program is, for the proofs of callers. It does nothing when it runs.
///
/// Its breaks stand in loops or switches, its continues in loops, and its cases and defaults directly in
/// switches, each value once. It names what the program has, and no room that is null in the bindings. Its
/// literals are words, its words of the registers r# stand at literal indices, and 18 scratch words alone
/// get a value. It costs at most 256 words and 48 ids for each word of the program's instructions. Its
/// loops, its switches with their cases, and its statements that make events are the program's, in order,
/// without the rooms that are null.
pub fn raised_tree_laws()
    ensures { (p : Shader) (tokens : List ℕ) (bindings : List Binding) (nested : IsNested p) → IsChecked p tokens
        → BreaksNoRule p → IsTreeOf p bindings (raised (parts_of (is_null_in bindings) p) nested.front) }
{
    bound_laws();
    checked_laws();
    guardable_laws();
    guarded_bound_laws();
    guarded_laws();
    operand_cost_laws();
    program_laws();
    quiet_laws();
    raisable_laws();
    raised_laws();
}

/// A program that breaks no rule holds words: its immediate constants, its strides, and the immediate
/// operands of its instructions. It does nothing when it runs.
pub fn program_word_laws()
    ensures program { (p : Shader) (tokens : List ℕ) → IsChecked p tokens → BreaksNoRule p → IsProgramOfWords p }
    ensures instructions { (p : Shader) (tokens : List ℕ) → IsChecked p tokens
        → (k : ℕ) (i : Instruction) → slice_get p.instructions k ≡ Some i → AreOfWords i }
{
    checked_laws();
    program_laws();
}
