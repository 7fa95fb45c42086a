ghost use Rattle.std.specs.Prelude.{◌≡◌, ◌+◌, ◌<◌, ◌≤◌, if◌then◌else◌, IsTrue, None, length};
ghost use Rattle.shader_tree.specs.declared.node.Node.TheVariants as node;
ghost use Rattle.shader_tree.specs.Nodes.{AStatement, AWord, a_word, has, fits};
ghost use Rattle.shader_tree.specs.Terms.{Set, Scratch, Nothing, term_at, term_by};
ghost use Rattle.raise_operands.specs.Building.{AreFew, CanWrite, Grows, IsNode, IsOperand, IsStep, known_target, step_of, then_nodes, write_at, write_nodes};
ghost use Rattle.raise_operands.specs.Raising.{followed, target, write_by};
ghost use Rattle.raise_operands.specs.Vectors.{spaces_of};

use crate::operand::{Operand, Place, word_of};
use crate::value::expr;
use crate::vector::Vector;
use shader_tree::{Expr, Stmt, Tree};
use tpf_program::{Kind, Program};

/// Adds a statement.
pub fn stmt(tree: &mut Tree, s: Stmt) -> u32
    requires fits { IsTrue (fits tree.old.nodes (node.Stmt s)) }
    requires room { length tree.old.nodes + 1 ≤ tree.old.capacity }
    ensures grows { Grows tree.old tree.new 1 }
    ensures makes { IsNode tree.new.nodes AStatement result (term_by (term_at tree.old.nodes) (node.Stmt s)) }
{
    tree.stmt(s)
}

/// Two statements one after the other, each of which may be none.
pub fn followed(tree: &mut Tree, a: Option<u32>, b: Option<u32>) -> Option<u32>
    requires a { IsStep tree.old.nodes a (step_of tree.old.nodes a) }
    requires b { IsStep tree.old.nodes b (step_of tree.old.nodes b) }
    requires room { length tree.old.nodes + then_nodes a b ≤ tree.old.capacity }
    ensures grows { Grows tree.old tree.new (then_nodes a b) }
    ensures makes { IsStep tree.new.nodes result (followed (step_of tree.old.nodes a) (step_of tree.old.nodes b)) }
    ensures none { result ≡ None → (a ≡ None) × (length tree.new.nodes ≡ length tree.old.nodes) }
{
    match (a, b) {
        (None, next) => next,
        (first, None) => first,
        (Some(first), Some(next)) => Some(stmt(tree, Stmt::Then { first, next })),
    }
}

/// Writes a word to a component of a register, if there is one.
pub fn write(tree: &mut Tree, place: Place, component: u8, value: u32) -> Option<u32>
    requires place { CanWrite tree.old.nodes place.vector place.number place.kept }
    requires value { IsTrue (has tree.old.nodes (a_word value)) }
    requires component { component < 4 }
    requires room { length tree.old.nodes + write_nodes place.vector component ≤ tree.old.capacity }
    ensures grows { Grows tree.old tree.new (write_nodes place.vector component) }
    ensures makes { let term = term_at tree.old.nodes in
        IsStep tree.new.nodes result (write_at place.vector (term place.kept.inside) place.number component (term value)) }
{
    match place.vector {
        Vector::Outside => None,
        Vector::At { space, number } => {
            let word = expr(tree, Expr::Word(4 * number + u32::from(component)));
            Some(stmt(tree, Stmt::Write { space, word, value }))
        }
        Vector::Indexed { space } => {
            let word = word_of(tree, place.number, place.kept.start, component);
            let body = stmt(tree, Stmt::Write { space, word, value });
            Some(stmt(
                tree,
                Stmt::Guard {
                    truth: place.kept.inside,
                    body,
                },
            ))
        }
    }
}

/// Puts a word by in a scratch word, and gives that word.
pub fn put_by(tree: &mut Tree, scratch: u32, value: u32) -> (u32, u32)
    requires value { IsTrue (has tree.old.nodes (a_word value)) }
    requires room { length tree.old.nodes + 2 ≤ tree.old.capacity }
    ensures grows { Grows tree.old tree.new 2 }
    ensures now { IsNode tree.new.nodes AStatement result.0 (Set scratch (term_at tree.old.nodes value)) }
    ensures word { IsNode tree.new.nodes AWord result.1 (Scratch scratch) }
{
    let now = stmt(tree, Stmt::Set { scratch, value });
    let word = expr(tree, Expr::Scratch(scratch));
    (now, word)
}

/// The id of a statement, or of one that does nothing.
pub fn some_statement(tree: &mut Tree, statement: Option<u32>) -> u32
    requires statement { IsStep tree.old.nodes statement (step_of tree.old.nodes statement) }
    requires room { length tree.old.nodes + 1 ≤ tree.old.capacity }
    ensures grows { Grows tree.old tree.new 1 }
    ensures makes { IsNode tree.new.nodes AStatement result (step_of tree.old.nodes statement) }
{
    match statement {
        Some(id) => id,
        None => stmt(tree, Stmt::Nothing),
    }
}

/// The vector of a destination: only registers are written.
pub fn target(operand: Operand) -> Vector
    ensures { result ≡ known_target operand }
{
    match operand.argument.kind {
        Kind::Temp | Kind::Indexable => operand.place.vector,
        _ => Vector::Outside,
    }
}

/// Writes a word to a component of a destination, if that is a register in range.
pub fn write_to(
    tree: &mut Tree,
    program: &Program,
    to: Operand,
    component: u8,
    value: u32,
) -> Option<u32>
    requires few { AreFew (spaces_of program.now.shader) }
    requires to { IsOperand tree.old.nodes (spaces_of program.now.shader) to }
    requires value { IsTrue (has tree.old.nodes (a_word value)) }
    requires component { component < 4 }
    requires room { length tree.old.nodes + write_nodes (known_target to) component ≤ tree.old.capacity }
    ensures grows { Grows tree.old tree.new (write_nodes (known_target to) component) }
    ensures makes { let g = spaces_of program.now.shader in
        IsStep tree.new.nodes result (write_by (target g to.argument) g to.place.number component (term_at tree.old.nodes value)) }
{
    let place = Place {
        number: to.place.number,
        vector: target(to),
        kept: to.place.kept,
    };
    write(tree, place, component, value)
}
