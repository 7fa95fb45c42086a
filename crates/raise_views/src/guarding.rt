ghost use Rattle.std.specs.Prelude.{◌≡◌, ℕ, ◌+◌, ◌-◌, ◌*◌, ◌<◌, ◌≤◌, ◌++◌, [], Some, length};
ghost use Rattle.tpf_decode.specs.Opcodes.{meaning_of};
ghost use Rattle.tpf_decode.specs.Profiles.{Base};
ghost use Rattle.shader_tree.specs.Nodes.{AStatement};
ghost use Rattle.shader_tree.specs.Terms.{Makes, term_at};
ghost use Rattle.binding_map.specs.Fits.{is_null_in};
ghost use Rattle.raise_operands.specs.Building.{AreFew, AreOperands, Grows, IsNode, IsStep, step_of};
ghost use Rattle.raise_operands.specs.Raises.{OfInstruction};
ghost use Rattle.raise_operands.specs.Raising.{chained, chained_from};
ghost use Rattle.raise_operands.specs.Vectors.{spaces_of};
ghost use Rattle.raise_views.specs.Counting.{work_nodes};
ghost use Rattle.raise_views.specs.Giving.{given_word};
ghost use Rattle.raise_views.specs.Guarding.{at_of, results, statement_of, statements, work_by, writes};
ghost use Rattle.raise_views.specs.Guards.{Guards, IsGuardable};

use crate::address::is_null;
use crate::events::results;
use crate::laws::guarded_laws;
use crate::reach::room_by;
use crate::work::{given, work};
use crate::writing::Given;
use binding_map::Bindings;
use raise_operands::{Operands, begin, count_laws, growing_laws, operand_laws, some_statement};
use shader_tree::Tree;
use tpf_decode::{Meaning, instruction_meaning};
use tpf_program::{Instruction, Program};

/// The statements of an instruction behind the one that keeps its indices.
fn chain(
    tree: &mut Tree,
    program: &Program,
    front: Option<u32>,
    meaning: Meaning,
    null: bool,
    os: &Operands,
    given: Given,
) -> Option<u32>
    requires typed { program.now.shader.typed ≡ [] }
    requires front { IsStep tree.old.nodes front (step_of tree.old.nodes front) }
    requires few { AreFew (spaces_of program.now.shader) }
    requires operands { AreOperands tree.old.nodes (spaces_of program.now.shader) os.now }
    requires words { (c : ℕ)
        → given_word given c ≡ (work_by meaning null program.now.shader os.now.instruction).values c }
    requires room { length tree.old.nodes + work_nodes meaning (at_of meaning program.now.shader os.now.instruction).way
        given os.now ≤ tree.old.capacity }
    ensures grows { Grows tree.old tree.new (work_nodes meaning
        (at_of meaning program.now.shader os.now.instruction).way given os.now) }
    ensures makes { let p = program.now.shader in let i = os.now.instruction in let w = work_by meaning null p i in
        IsStep tree.new.nodes result (chained_from (step_of tree.old.nodes front)
        (w.kept ++ (w.parts ++ writes (spaces_of p) i w.values (results meaning i)))) }
{
    operand_laws();
    let next = work(tree, program, front, meaning, null, os);
    results(tree, program, next, meaning, os, given)
}

/// The statement of an instruction with that meaning.
fn raised(
    tree: &mut Tree,
    program: &Program,
    meaning: Meaning,
    null: bool,
    instruction: Instruction,
) -> u32
    requires guardable { IsGuardable program.now.shader instruction }
    requires meaning { meaning_of Base instruction.code ≡ Some meaning }
    requires room { length tree.old.nodes + 16 * instruction.length ≤ tree.old.capacity }
    ensures grows { Grows tree.old tree.new (16 * instruction.length - 2) }
    ensures makes { let p = program.now.shader in let w = work_by meaning null p instruction in IsNode tree.new.nodes
        AStatement result (chained (statements (spaces_of p) instruction w (results meaning instruction))) }
{
    count_laws();
    growing_laws();
    let (os, front) = begin(tree, program, instruction);
    let given = given(program, meaning, null, os.instruction);
    let last = chain(tree, program, front, meaning, null, &os, given);
    some_statement(tree, last)
}

/// The statement of an instruction that reads a length, makes an event or synchronises.
fn statement_of(
    tree: &mut Tree,
    program: &Program,
    bindings: &Bindings,
    instruction: Instruction,
) -> u32
    requires guardable { IsGuardable program.now.shader instruction }
    requires room { length tree.old.nodes + 16 * instruction.length ≤ tree.old.capacity }
    ensures grows { Grows tree.old tree.new (16 * instruction.length - 2) }
    ensures makes { IsNode tree.new.nodes AStatement result (statement_of
        (is_null_in bindings.now) program.now.shader instruction) }
{
    match instruction_meaning(instruction.code) {
        Some(meaning) => {
            let null = is_null(bindings, room_by(meaning, instruction));
            raised(tree, program, meaning, null, instruction)
        }
        None => unreachable!(),
    }
}

/// Adds the statement of an instruction of a program that reads a length, makes an event or synchronises,
/// by its number, and gives its id. A view or a counter that the map does not bind is null: of it the
/// statement neither takes the length nor makes an event, and its words are 0.
///
/// There must be room for 16 nodes for each word of the instruction; two fewer are added at most.
/// (Shader Model 5 assembly: ld_raw, ld_structured, store_raw, store_structured, bufinfo, the atomic
/// instructions and sync.)
pub fn guarded(tree: &mut Tree, program: &Program, bindings: &Bindings, i: u32) -> u32
    requires there { i < length program.now.shader.instructions }
    requires guardable { OfInstruction program.now.shader i (IsGuardable program.now.shader) }
    requires room { OfInstruction program.now.shader i
        (λ x. length tree.old.nodes + 16 * x.length ≤ tree.old.capacity) }
    ensures makes { OfInstruction program.now.shader i (λ x. Makes tree.old.nodes tree.new.nodes AStatement result
        (statement_of (is_null_in bindings.now) program.now.shader x)) }
    ensures guards { OfInstruction program.now.shader i (λ x. Guards (is_null_in bindings.now) program.now.shader x
        (term_at tree.new.nodes result)) }
    ensures few { OfInstruction program.now.shader i
        (λ x. length tree.new.nodes + 2 ≤ length tree.old.nodes + 16 * x.length) }
    ensures rest { tree.new ≡ record tree.old { nodes = tree.new.nodes } }
{
    guarded_laws();
    statement_of(tree, program, bindings, program.instruction(i))
}
