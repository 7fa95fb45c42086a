ghost use Rattle.std.specs.Prelude.{◌≡◌, ◌+◌, ◌<◌, ◌≤◌, false, IsTrue, List, Some, None, length};
ghost use Rattle.shader_tree.specs.Nodes.{AWord, ATruth, AStatement, a_word, a_truth, has};
ghost use Rattle.shader_tree.specs.Terms.{Word, Scratch, Pick, Product, Set, Then, Nothing, term_at};
ghost use Rattle.raise_operands.specs.Building.{AreFew, Grows, IsKept, IsNode, IsOperand, IsOperandOf, IsStep, StandsFor, has_index, indexed_by, begin_nodes, keep_nodes, operand_at, relative_nodes, step_of};
ghost use Rattle.tpf_program.specs.Holding.{SelectsInRange};
ghost use Rattle.raise_operands.specs.Raises.{AddsInRange, InRange};
ghost use Rattle.raise_operands.specs.Raising.{followed};
ghost use Rattle.raise_operands.specs.Folding.{literal};
ghost use Rattle.shader_tree.specs.declared.node.Node.{Node};
ghost use Rattle.raise_operands.specs.Vectors.{Indexed, spaces_of, vectors_in, start_scratch, index_scratch, inside, relative_word, index_word, keeps_by, keeps_index};

use crate::operand::{Kept, Operand, Place, named};
use crate::statement::{followed, stmt};
use crate::value::{Value, added, expr, pick};
use crate::vector::{Vector, vector_by, vectors_in};
use shader_tree::{Comparison, Expr, Space, Stmt, Tree};
use tpf_program::{Argument, Kind, Program, Relative};

/// The nodes of an index that is not kept.
const NOT_KEPT: Kept = Kept {
    inside: 0,
    start: 0,
    zero: 0,
};

/// The word that is added to an index.
fn relative(tree: &mut Tree, program: &Program, relative: Relative) -> Value
    requires few { AreFew (spaces_of program.now.shader) }
    requires component { relative.component < 4 }
    requires room { length tree.old.nodes + 2 ≤ tree.old.capacity }
    ensures grows { Grows tree.old tree.new 2 }
    ensures makes { StandsFor tree.new.nodes result (relative_word (spaces_of program.now.shader) (Some relative)) }
{
    let vector = vector_by(program, relative.kind, relative.slot, Some(relative.index));
    let place = Place {
        number: 0,
        vector,
        kept: NOT_KEPT,
    };
    named(tree, program, relative.kind, place, relative.component)
}

/// The index of an operand.
fn index(tree: &mut Tree, program: &Program, argument: &Argument) -> Value
    requires few { AreFew (spaces_of program.now.shader) }
    requires added { AddsInRange argument.now.relative }
    requires room { length tree.old.nodes + relative_nodes argument.now.relative ≤ tree.old.capacity }
    ensures grows { Grows tree.old tree.new (relative_nodes argument.now.relative) }
    ensures makes { StandsFor tree.new.nodes result (index_word (spaces_of program.now.shader) argument.now) }
{
    let index = argument.index;
    match argument.relative {
        None => Value::Literal(index),
        Some(by) => {
            let word = relative(tree, program, by);
            added(tree, word, index)
        }
    }
}

/// Whether the index of an operand with that number lies inside a space, and the index, which is kept.
fn inside(tree: &mut Tree, program: &Program, number: u32, space: Space) -> (u32, u32)
    requires number { number < 5 }
    requires room { length tree.old.nodes + 3 ≤ tree.old.capacity }
    ensures grows { Grows tree.old tree.new 3 }
    ensures inside { IsNode tree.new.nodes ATruth result.0 (inside (spaces_of program.now.shader) number space) }
    ensures index { IsNode tree.new.nodes AWord result.1 (Scratch (index_scratch number)) }
{
    let index = expr(tree, Expr::Scratch(2 * number));
    let vectors = expr(tree, Expr::Word(vectors_in(program, space)));
    let inside = expr(
        tree,
        Expr::Compare {
            how: Comparison::ULess,
            a: index,
            b: vectors,
        },
    );
    (inside, index)
}

/// The nodes of an index that is kept, and the index.
fn kept_nodes(tree: &mut Tree, program: &Program, number: u32, space: Space) -> (Kept, u32)
    requires number { number < 5 }
    requires room { length tree.old.nodes + 5 ≤ tree.old.capacity }
    ensures grows { Grows tree.old tree.new 5 }
    ensures kept { IsKept tree.new.nodes (spaces_of program.now.shader) number space result.0 }
    ensures index { IsNode tree.new.nodes AWord result.1 (Scratch (index_scratch number)) }
{
    let (inside, index) = inside(tree, program, number, space);
    let start = expr(tree, Expr::Scratch(2 * number + 1));
    let zero = expr(tree, Expr::Word(0));
    let kept = Kept {
        inside,
        start,
        zero,
    };
    (kept, index)
}

/// Keeps the word at which the vector of an index starts.
fn keep_start(tree: &mut Tree, number: u32, kept: Kept, index: u32) -> u32
    requires number { number < 5 }
    requires inside { IsTrue (has tree.old.nodes (a_truth kept.inside)) }
    requires index { IsTrue (has tree.old.nodes (a_word index)) }
    requires zero { IsTrue (has tree.old.nodes (a_word kept.zero)) }
    requires room { length tree.old.nodes + 3 ≤ tree.old.capacity }
    ensures grows { Grows tree.old tree.new 3 }
    ensures makes { let term = term_at tree.old.nodes in
        IsNode tree.new.nodes AStatement result (Set (start_scratch number) (Product (Pick (term kept.inside) (term index) (term kept.zero)) 4)) }
{
    let vector = pick(tree, kept.inside, index, kept.zero);
    let start = expr(tree, Expr::Product { a: vector, by: 4 });
    stmt(
        tree,
        Stmt::Set {
            scratch: 2 * number + 1,
            value: start,
        },
    )
}

/// Keeps an index and the word at which its vector starts.
fn keep_both(tree: &mut Tree, number: u32, kept: Kept, kept_index: u32, index: u32) -> u32
    requires number { number < 5 }
    requires inside { IsTrue (has tree.old.nodes (a_truth kept.inside)) }
    requires kept_index { IsTrue (has tree.old.nodes (a_word kept_index)) }
    requires zero { IsTrue (has tree.old.nodes (a_word kept.zero)) }
    requires index { IsTrue (has tree.old.nodes (a_word index)) }
    requires room { length tree.old.nodes + 5 ≤ tree.old.capacity }
    ensures grows { Grows tree.old tree.new 5 }
    ensures makes { let term = term_at tree.old.nodes in
        IsNode tree.new.nodes AStatement result (Then (Set (index_scratch number) (term index)) (Set (start_scratch number) (Product (Pick
        (term kept.inside) (term kept_index) (term kept.zero)) 4))) }
{
    let next = keep_start(tree, number, kept, kept_index);
    let first = stmt(
        tree,
        Stmt::Set {
            scratch: 2 * number,
            value: index,
        },
    );
    stmt(tree, Stmt::Then { first, next })
}

/// Keeps the index of an operand, which is no literal.
fn keep_index(
    tree: &mut Tree,
    program: &Program,
    number: u32,
    space: Space,
    index: u32,
) -> (Kept, u32)
    requires number { number < 5 }
    requires index { IsTrue (has tree.old.nodes (a_word index)) }
    requires room { length tree.old.nodes + 10 ≤ tree.old.capacity }
    ensures grows { Grows tree.old tree.new 10 }
    ensures kept { IsKept tree.new.nodes (spaces_of program.now.shader) number space result.0 }
    ensures makes { IsNode tree.new.nodes AStatement result.1 (keeps_by (Indexed space)
        (spaces_of program.now.shader) number (term_at tree.old.nodes index)) }
{
    let (kept, kept_index) = kept_nodes(tree, program, number, space);
    let statement = keep_both(tree, number, kept, kept_index, index);
    (kept, statement)
}

/// The place of an operand whose index is known.
fn known_place(program: &Program, number: u32, argument: &Argument, index: u32) -> Place
    requires select { SelectsInRange argument.now.select }
    requires index { literal (index_word (spaces_of program.now.shader) argument.now) ≡ Some index }
    ensures operand { (nodes : List Node) → IsOperand nodes (spaces_of program.now.shader) (operand_at argument.now result) }
    ensures number { result.number ≡ number }
    ensures nothing { keeps_index (spaces_of program.now.shader) number argument.now ≡ Nothing }
{
    Place {
        number,
        vector: vector_by(program, argument.kind, argument.slot, Some(index)),
        kept: NOT_KEPT,
    }
}

/// The place of an operand whose index is no literal: it is kept, behind the statement in front.
fn indexed_place(
    tree: &mut Tree,
    program: &Program,
    number: u32,
    argument: &Argument,
    index: u32,
    front: Option<u32>,
) -> (Place, Option<u32>)
    requires number { number < 5 }
    requires kind { indexed_by argument.now ≡ argument.now.relative }
    requires select { SelectsInRange argument.now.select }
    requires index { IsNode tree.old.nodes AWord index (index_word (spaces_of program.now.shader) argument.now) }
    requires unknown { literal (index_word (spaces_of program.now.shader) argument.now) ≡ None }
    requires front { IsStep tree.old.nodes front (step_of tree.old.nodes front) }
    requires room { length tree.old.nodes + keep_nodes front ≤ tree.old.capacity }
    ensures grows { Grows tree.old tree.new (keep_nodes front) }
    ensures operand { IsOperand tree.new.nodes (spaces_of program.now.shader) (operand_at argument.now result.0) }
    ensures number { result.0.number ≡ number }
    ensures front { IsStep tree.new.nodes result.1 (followed (step_of tree.old.nodes front) (keeps_index
        (spaces_of program.now.shader) number argument.now)) }
{
    let vector = vector_by(program, argument.kind, argument.slot, None);
    match vector {
        Vector::Indexed { space } => {
            let (kept, statement) = keep_index(tree, program, number, space, index);
            let front = followed(tree, front, Some(statement));
            let place = Place {
                number,
                vector,
                kept,
            };
            (place, front)
        }
        _ => {
            let place = Place {
                number,
                vector,
                kept: NOT_KEPT,
            };
            (place, front)
        }
    }
}

/// The place of an operand of a type that has an index: it is taken, and kept behind the statement in front.
fn vector_place(
    tree: &mut Tree,
    program: &Program,
    number: u32,
    argument: &Argument,
    front: Option<u32>,
) -> (Place, Option<u32>)
    requires number { number < 5 }
    requires kind { indexed_by argument.now ≡ argument.now.relative }
    requires range { InRange argument.now }
    requires few { AreFew (spaces_of program.now.shader) }
    requires front { IsStep tree.old.nodes front (step_of tree.old.nodes front) }
    requires room { length tree.old.nodes + begin_nodes argument.now.relative front ≤ tree.old.capacity }
    ensures grows { Grows tree.old tree.new (begin_nodes argument.now.relative front) }
    ensures operand { IsOperand tree.new.nodes (spaces_of program.now.shader) (operand_at argument.now result.0) }
    ensures number { result.0.number ≡ number }
    ensures front { IsStep tree.new.nodes result.1 (followed (step_of tree.old.nodes front) (keeps_index
        (spaces_of program.now.shader) number argument.now)) }
{
    match index(tree, program, argument) {
        Value::Literal(index) => (known_place(program, number, argument, index), front),
        Value::Node(index) => indexed_place(tree, program, number, argument, index, front),
    }
}

/// The place of an operand of a type without index.
fn plain_place(program: &Program, number: u32, argument: &Argument) -> Place
    requires kind { has_index argument.now.kind ≡ false }
    requires select { SelectsInRange argument.now.select }
    ensures none { indexed_by argument.now ≡ None }
    ensures operand { (nodes : List Node) → IsOperand nodes (spaces_of program.now.shader) (operand_at argument.now result) }
    ensures number { result.number ≡ number }
    ensures nothing { keeps_index (spaces_of program.now.shader) number argument.now ≡ Nothing }
{
    Place {
        number,
        vector: vector_by(program, argument.kind, argument.slot, Some(0)),
        kept: NOT_KEPT,
    }
}

/// Takes the index of an operand, keeps it behind the statement in front, and gives the operand's place.
pub(crate) fn place(
    tree: &mut Tree,
    program: &Program,
    number: u32,
    argument: &Argument,
    front: Option<u32>,
) -> (Place, Option<u32>)
    requires number { number < 5 }
    requires range { InRange argument.now }
    requires few { AreFew (spaces_of program.now.shader) }
    requires front { IsStep tree.old.nodes front (step_of tree.old.nodes front) }
    requires room { length tree.old.nodes + begin_nodes (indexed_by argument.now) front ≤ tree.old.capacity }
    ensures grows { Grows tree.old tree.new (begin_nodes (indexed_by argument.now) front) }
    ensures operand { IsOperandOf tree.new.nodes (spaces_of program.now.shader) number argument.now (operand_at
        argument.now result.0) }
    ensures front { IsStep tree.new.nodes result.1 (followed (step_of tree.old.nodes front) (keeps_index
        (spaces_of program.now.shader) number argument.now)) }
{
    match argument.kind {
        Kind::Indexable | Kind::Constant | Kind::ImmediateConstant => {
            vector_place(tree, program, number, argument, front)
        }
        _ => (plain_place(program, number, argument), front),
    }
}

/// Begins an operand: its index is taken, and kept behind the statement in front.
pub fn operand(
    tree: &mut Tree,
    program: &Program,
    number: u32,
    argument: Argument,
    front: Option<u32>,
) -> (Operand, Option<u32>)
    requires number { number < 5 }
    requires range { InRange argument }
    requires few { AreFew (spaces_of program.now.shader) }
    requires front { IsStep tree.old.nodes front (step_of tree.old.nodes front) }
    requires room { length tree.old.nodes + begin_nodes (indexed_by argument) front ≤ tree.old.capacity }
    ensures grows { Grows tree.old tree.new (begin_nodes (indexed_by argument) front) }
    ensures operand { IsOperandOf tree.new.nodes (spaces_of program.now.shader) number argument result.0 }
    ensures front { IsStep tree.new.nodes result.1 (followed (step_of tree.old.nodes front) (keeps_index
        (spaces_of program.now.shader) number argument)) }
{
    let (place, front) = place(tree, program, number, &argument, front);
    (Operand { argument, place }, front)
}
