ghost use Rattle.std.specs.Prelude.{◌≡◌, ◌+◌, ◌<◌, ◌≤◌, length};
ghost use Rattle.shader_tree.specs.Nodes.{AStatement, AWord};
ghost use Rattle.shader_tree.specs.Terms.{Makes, term_at};
ghost use Rattle.raise_operands.specs.Building.{AreFew, Grows, IsNode, IsStep, step_of};
ghost use Rattle.raise_operands.specs.Raises.{InRange, IsScalar, RaisesScalar, OfInstruction};
ghost use Rattle.raise_operands.specs.Raising.{scalar_front, scalar_word, source};
ghost use Rattle.raise_operands.specs.Vectors.{keeps_index, spaces_of};

use raise_operands::{
    begin_operand, count_laws, growing_laws, id_of, operand_laws, raised_laws, some_statement,
    source,
};
use shader_tree::Tree;
use tpf_program::{Argument, Program};

/// The number that an instruction of control flow reads.
#[derive(Clone, Copy, Debug, PartialEq, Eq)]
pub struct Scalar {
    /// The id of the statement that stands in front of the construct.
    pub front: u32,
    /// The id of the word, behind that statement.
    pub word: u32,
}

/// The statement in front and the word of an operand's first component.
fn scalar_of(tree: &mut Tree, program: &Program, argument: Argument) -> Scalar
    requires few { AreFew (spaces_of program.now.shader) }
    requires range { InRange argument }
    requires room { length tree.old.nodes + 21 ≤ tree.old.capacity }
    ensures grows { Grows tree.old tree.new 21 }
    ensures front { IsNode tree.new.nodes AStatement result.front (keeps_index
        (spaces_of program.now.shader) 0 argument) }
    ensures word { IsNode tree.new.nodes AWord result.word (source (spaces_of program.now.shader) 0 argument 0) }
{
    growing_laws();
    operand_laws();
    let (operand, front) = begin_operand(tree, program, 0, argument, None);
    let word = source(tree, program, operand, 0);
    let word = id_of(tree, word);
    let front = some_statement(tree, front);
    Scalar { front, word }
}

/// Adds the number that an instruction of control flow reads, which is its first operand: of `if`,
/// `breakc`, `continuec`, `retc` and `switch`. Its front stands before the construct.
///
/// There must be room for 21 nodes.
pub fn scalar_operand(tree: &mut Tree, program: &Program, i: u32) -> Scalar
    requires there { i < length program.now.shader.instructions }
    requires scalar { OfInstruction program.now.shader i (IsScalar program.now.shader) }
    requires room { length tree.old.nodes + 21 ≤ tree.old.capacity }
    ensures front { OfInstruction program.now.shader i
        (λ x. Makes tree.old.nodes tree.new.nodes AStatement result.front (scalar_front program.now.shader x)) }
    ensures word { OfInstruction program.now.shader i (λ x. Makes tree.old.nodes tree.new.nodes AWord result.word
        (scalar_word program.now.shader x)) }
    ensures raises { OfInstruction program.now.shader i (λ x. RaisesScalar program.now.shader x
        (term_at tree.new.nodes result.front) (term_at tree.new.nodes result.word)) }
    ensures few { length tree.new.nodes ≤ length tree.old.nodes + 21 }
    ensures rest { tree.new ≡ record tree.old { nodes = tree.new.nodes } }
{
    count_laws();
    raised_laws();
    let instruction = program.instruction(i);
    scalar_of(tree, program, instruction.o0)
}
