ghost use Rattle.std.specs.Prelude.{◌≡◌, ◌+◌, ◌<◌, ◌≤◌, IsTrue, length};
ghost use Rattle.shader_tree.specs.Nodes.{AWord, ATruth, AStatement, a_word, has, is_thread_id};
ghost use Rattle.shader_tree.specs.Terms.{Word, Scratch, Read, term_at};
ghost use Rattle.raise_operands.specs.Building.{AreFew, Grows, IsInside, IsKept, IsNode, IsOperand, IsPlace, IsValue, StandsFor, seen, word_nodes, vector_nodes, source_nodes};
ghost use Rattle.raise_operands.specs.Raising.{source_by, source};
ghost use Rattle.raise_operands.specs.Vectors.{Indexed, spaces_of, vectors_in, start_scratch, word_of, known_word, vector_word, thread_word, named_word};

use crate::value::{Value, added, expr, pick, unary};
use crate::vector::{Vector, constant, immediate, selected};
use shader_tree::{Expr, Space, Tree};
use tpf_program::{Argument, Instruction, Kind, Program};
use word_base::{Binary, Unary};

/// The nodes of an index that is kept in scratch words.
#[derive(Clone, Copy, Debug, PartialEq, Eq)]
pub struct Kept {
    /// Whether the index lies inside its space.
    pub inside: u32,
    /// The word at which its vector starts.
    pub start: u32,
    /// The word 0.
    pub zero: u32,
}

/// Where an operand stands.
#[derive(Clone, Copy, Debug, PartialEq, Eq)]
pub struct Place {
    /// Its number among the operands of its instruction, counted from 0.
    pub number: u32,
    /// Its vector.
    pub vector: Vector,
    /// The nodes of its index, where that is kept.
    pub kept: Kept,
}

/// An operand whose index is taken.
#[derive(Clone, Copy, Debug, PartialEq, Eq)]
pub struct Operand {
    /// The operand itself.
    pub argument: Argument,
    /// Where it stands.
    pub place: Place,
}

/// An instruction and its operands, in their order.
#[derive(Clone, Copy, Debug, PartialEq, Eq)]
pub struct Operands {
    pub instruction: Instruction,
    pub o0: Operand,
    pub o1: Operand,
    pub o2: Operand,
    pub o3: Operand,
    pub o4: Operand,
}

/// The word of a space at an index that is known.
fn read(tree: &mut Tree, space: Space, word: u32) -> u32
    requires room { length tree.old.nodes + 2 ≤ tree.old.capacity }
    ensures grows { Grows tree.old tree.new 2 }
    ensures makes { IsNode tree.new.nodes AWord result (Read space (Word word)) }
{
    let word = expr(tree, Expr::Word(word));
    expr(tree, Expr::Read { space, word })
}

/// The word of a component of a vector whose index is kept.
pub fn word_of(tree: &mut Tree, number: u32, start: u32, component: u8) -> u32
    requires start { IsNode tree.old.nodes AWord start (Scratch (start_scratch number)) }
    requires room { length tree.old.nodes + word_nodes component ≤ tree.old.capacity }
    ensures grows { Grows tree.old tree.new (word_nodes component) }
    ensures makes { IsNode tree.new.nodes AWord result (word_of number component) }
{
    if component == 0 {
        return start;
    }
    let component = expr(tree, Expr::Word(u32::from(component)));
    expr(
        tree,
        Expr::Two {
            op: Binary::Iadd,
            a: start,
            b: component,
        },
    )
}

/// A component of a vector that is known.
fn known_word(tree: &mut Tree, program: &Program, space: Space, number: u32, component: u8) -> Value
    requires inside { number < vectors_in (spaces_of program.now.shader) space }
    requires few { AreFew (spaces_of program.now.shader) }
    requires component { component < 4 }
    requires room { length tree.old.nodes + 2 ≤ tree.old.capacity }
    ensures grows { Grows tree.old tree.new 2 }
    ensures makes { StandsFor tree.new.nodes result (known_word (spaces_of program.now.shader) space number component) }
{
    let word = 4 * number + u32::from(component);
    match space {
        Space::ImmediateConstant => Value::Literal(constant(program, word)),
        _ => Value::Node(read(tree, space, word)),
    }
}

/// A component of a vector whose index is kept.
fn indexed_word(
    tree: &mut Tree,
    program: &Program,
    number: u32,
    space: Space,
    kept: Kept,
    component: u8,
) -> u32
    requires kept { IsKept tree.old.nodes (spaces_of program.now.shader) number space kept }
    requires room { length tree.old.nodes + 4 ≤ tree.old.capacity }
    ensures grows { Grows tree.old tree.new 4 }
    ensures makes { IsNode tree.new.nodes AWord result (vector_word (spaces_of program.now.shader) number
        (Indexed space) component) }
{
    let word = word_of(tree, number, kept.start, component);
    let word = expr(tree, Expr::Read { space, word });
    pick(tree, kept.inside, word, kept.zero)
}

/// A component of a vector.
fn vector_word(tree: &mut Tree, program: &Program, place: Place, component: u8) -> Value
    requires place { IsPlace tree.old.nodes (spaces_of program.now.shader) place }
    requires few { AreFew (spaces_of program.now.shader) }
    requires component { component < 4 }
    requires room { length tree.old.nodes + vector_nodes place.vector ≤ tree.old.capacity }
    ensures grows { Grows tree.old tree.new (vector_nodes place.vector) }
    ensures makes { StandsFor tree.new.nodes result (vector_word (spaces_of program.now.shader) place.number
        (seen place.vector) component) }
{
    match place.vector {
        Vector::Outside => Value::Literal(0),
        Vector::At { space, number } => known_word(tree, program, space, number, component),
        Vector::Indexed { space } => {
            Value::Node(indexed_word(tree, program, place.number, space, place.kept, component))
        }
    }
}

/// A component of a thread id that has three.
fn thread_word(tree: &mut Tree, kind: Kind, component: u8) -> Value
    requires kind { IsTrue (is_thread_id kind) }
    requires room { length tree.old.nodes + 1 ≤ tree.old.capacity }
    ensures grows { Grows tree.old tree.new 1 }
    ensures makes { StandsFor tree.new.nodes result (thread_word kind component) }
{
    if component < 3 {
        Value::Node(expr(tree, Expr::Thread { kind, component }))
    } else {
        Value::Literal(0)
    }
}

/// A component of an operand of a type that is no immediate.
pub fn named(tree: &mut Tree, program: &Program, kind: Kind, place: Place, component: u8) -> Value
    requires place { IsPlace tree.old.nodes (spaces_of program.now.shader) place }
    requires few { AreFew (spaces_of program.now.shader) }
    requires component { component < 4 }
    requires room { length tree.old.nodes + vector_nodes place.vector ≤ tree.old.capacity }
    ensures grows { Grows tree.old tree.new (vector_nodes place.vector) }
    ensures makes { StandsFor tree.new.nodes result (named_word kind (spaces_of program.now.shader) place.number
        (seen place.vector) component) }
{
    match kind {
        Kind::ThreadId | Kind::GroupId | Kind::IdInGroup => thread_word(tree, kind, component),
        Kind::FlatId => Value::Node(expr(tree, Expr::Thread { kind, component: 0 })),
        _ => vector_word(tree, program, place, component),
    }
}

/// The word of a source at a component, without its negation.
fn source_word(tree: &mut Tree, program: &Program, operand: Operand, component: u8) -> Value
    requires operand { IsOperand tree.old.nodes (spaces_of program.now.shader) operand }
    requires few { AreFew (spaces_of program.now.shader) }
    requires component { component < 4 }
    requires room { length tree.old.nodes + vector_nodes operand.place.vector ≤ tree.old.capacity }
    ensures grows { Grows tree.old tree.new (vector_nodes operand.place.vector) }
    ensures makes { let a = operand.argument in
        StandsFor tree.new.nodes result (source_by a.kind (spaces_of program.now.shader) operand.place.number a component) }
{
    match operand.argument.kind {
        Kind::Immediate => Value::Literal(immediate(&operand.argument, component)),
        kind => {
            let component = selected(operand.argument.select, component);
            named(tree, program, kind, operand.place, component)
        }
    }
}

/// The word of a source at a component of its instruction.
pub fn source(tree: &mut Tree, program: &Program, operand: Operand, component: u8) -> Value
    requires operand { IsOperand tree.old.nodes (spaces_of program.now.shader) operand }
    requires few { AreFew (spaces_of program.now.shader) }
    requires component { component < 4 }
    requires room { length tree.old.nodes + source_nodes operand.argument ≤ tree.old.capacity }
    ensures grows { Grows tree.old tree.new (source_nodes operand.argument) }
    ensures makes { StandsFor tree.new.nodes result (source
        (spaces_of program.now.shader) operand.place.number operand.argument component) }
{
    let word = source_word(tree, program, operand, component);
    if operand.argument.negate {
        unary(tree, Unary::Ineg, word)
    } else {
        word
    }
}
