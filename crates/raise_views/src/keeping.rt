ghost use Rattle.std.specs.Prelude.{◌≡◌, ◌+◌, ◌<◌, ◌≤◌, length};
ghost use Rattle.raise_operands.specs.Building.{AreFew, Grows, IsOperand, IsStep, IsValue, StandsFor, known, source_nodes, step_of, term_of};
ghost use Rattle.raise_operands.specs.Raising.{chained_from, followed, source};
ghost use Rattle.raise_operands.specs.Vectors.{spaces_of};
ghost use Rattle.raise_views.specs.Giving.{at_terms};
ghost use Rattle.raise_views.specs.Reaching.{address_of, at_byte, in_structure, keep, keeps, quarter};

use crate::address::{Address, Way};
use crate::parts::then;
use raise_operands::{Operand, Value, expr, operand_laws, source, stmt};
use shader_tree::{Expr, Stmt, Tree};
use tpf_program::Program;

/// The word that an offset of bytes counts.
fn quarter(tree: &mut Tree, offset: Value) -> Value
    requires offset { IsValue tree.old.nodes offset }
    requires room { length tree.old.nodes + 1 ≤ tree.old.capacity }
    ensures grows { Grows tree.old tree.new 1 }
    ensures makes { StandsFor tree.new.nodes result (quarter (term_of tree.old.nodes offset)) }
{
    match offset {
        Value::Literal(word) => Value::Literal(word / 4),
        Value::Node(a) => Value::Node(expr(tree, Expr::Quotient { a, by: 4 })),
    }
}

/// A word that is known.
fn known(value: Value) -> Option<u32>
    ensures { result ≡ known value }
{
    match value {
        Value::Literal(word) => Some(word),
        Value::Node(_) => None,
    }
}

/// Keeps a word that is not known, behind a statement.
fn keep(tree: &mut Tree, front: Option<u32>, scratch: u32, value: Value) -> Option<u32>
    requires front { IsStep tree.old.nodes front (step_of tree.old.nodes front) }
    requires value { IsValue tree.old.nodes value }
    requires room { length tree.old.nodes + 2 ≤ tree.old.capacity }
    ensures grows { Grows tree.old tree.new 2 }
    ensures makes { IsStep tree.new.nodes result (followed (step_of tree.old.nodes front) (keep scratch
        (term_of tree.old.nodes value))) }
{
    match value {
        Value::Literal(_) => front,
        Value::Node(value) => {
            let next = stmt(tree, Stmt::Set { scratch, value });
            then(tree, front, next)
        }
    }
}

/// An address by an offset and an index, which are kept behind a statement.
fn located(
    tree: &mut Tree,
    front: Option<u32>,
    way: Way,
    offset: Value,
    index: Value,
) -> (Address, Option<u32>)
    requires front { IsStep tree.old.nodes front (step_of tree.old.nodes front) }
    requires offset { IsValue tree.old.nodes offset }
    requires index { IsValue tree.old.nodes index }
    requires room { length tree.old.nodes + 5 ≤ tree.old.capacity }
    ensures grows { Grows tree.old tree.new 5 }
    ensures address { let term = term_of tree.old.nodes in result.0 ≡ address_of (at_terms way (term offset)
        (term index)) }
    ensures front { let term = term_of tree.old.nodes in
        IsStep tree.new.nodes result.1 (chained_from (step_of tree.old.nodes front) (keeps (at_terms way (term offset) (term index)))) }
{
    let word = quarter(tree, offset);
    let front = keep(tree, front, 10, word);
    let front = keep(tree, front, 11, index);
    let address = Address {
        way,
        word: known(word),
        index: known(index),
    };
    (address, front)
}

/// An address by bytes, which is kept behind a statement.
pub(crate) fn at_byte(
    tree: &mut Tree,
    program: &Program,
    front: Option<u32>,
    offset: Operand,
) -> (Address, Option<u32>)
    requires front { IsStep tree.old.nodes front (step_of tree.old.nodes front) }
    requires few { AreFew (spaces_of program.now.shader) }
    requires offset { IsOperand tree.old.nodes (spaces_of program.now.shader) offset }
    requires room { length tree.old.nodes + (source_nodes offset.argument + 5) ≤ tree.old.capacity }
    ensures grows { Grows tree.old tree.new (source_nodes offset.argument + 5) }
    ensures address { let word = source
        (spaces_of program.now.shader) offset.place.number offset.argument 0 in result.0 ≡ address_of (at_byte word) }
    ensures front { let word = source (spaces_of program.now.shader) offset.place.number offset.argument 0 in
        IsStep tree.new.nodes result.1 (chained_from (step_of tree.old.nodes front) (keeps (at_byte word))) }
{
    let word = source(tree, program, offset, 0);
    located(tree, front, Way::Bytes, word, Value::Literal(0))
}

/// An address by structures, which is kept behind a statement: the index stands in the first component of
/// an operand, and the offset in a component of another.
pub(crate) fn in_structure(
    tree: &mut Tree,
    program: &Program,
    front: Option<u32>,
    words: u32,
    index: Operand,
    offset: Operand,
    c: u8,
) -> (Address, Option<u32>)
    requires front { IsStep tree.old.nodes front (step_of tree.old.nodes front) }
    requires few { AreFew (spaces_of program.now.shader) }
    requires index { IsOperand tree.old.nodes (spaces_of program.now.shader) index }
    requires offset { IsOperand tree.old.nodes (spaces_of program.now.shader) offset }
    requires component { c < 4 }
    requires room { length tree.old.nodes +
        (source_nodes index.argument + source_nodes offset.argument + 5) ≤ tree.old.capacity }
    ensures grows { Grows tree.old tree.new (source_nodes index.argument + source_nodes offset.argument + 5) }
    ensures address { let word = source (spaces_of program.now.shader) in
        result.0 ≡ address_of (in_structure words (word index.place.number index.argument 0) (word offset.place.number offset.argument c)) }
    ensures front { let word = source (spaces_of program.now.shader) in
        IsStep tree.new.nodes result.1 (chained_from (step_of tree.old.nodes front)
        (keeps (in_structure words (word index.place.number index.argument 0) (word offset.place.number offset.argument c)))) }
{
    operand_laws();
    let first = source(tree, program, index, 0);
    let second = source(tree, program, offset, c);
    located(tree, front, Way::Structures(words), second, first)
}
