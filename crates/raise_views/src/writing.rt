ghost use Rattle.std.specs.Prelude.{◌≡◌, ◌+◌, ◌*◌, ◌<◌, ◌≤◌, length};
ghost use Rattle.shader_tree.specs.Nodes.{AWord};
ghost use Rattle.tpf_program.specs.Holding.{SelectsInRange};
ghost use Rattle.raise_operands.specs.Building.{AreFew, Grows, IsNode, IsOperand, IsStep, is_written, known_target, step_of, write_nodes};
ghost use Rattle.raise_operands.specs.Laws.{writes_nodes};
ghost use Rattle.raise_operands.specs.Raising.{target, write_by};
ghost use Rattle.raise_operands.specs.Vectors.{spaces_of};
ghost use Rattle.raise_views.specs.declared.writing.Given.TheVariants.{Less};
ghost use Rattle.raise_views.specs.Giving.{given_nodes, given_word, measured_word};
ghost use Rattle.raise_views.specs.Making.{four_of, next_if};

use raise_operands::{Operand, expr, followed, is_written, operand_laws, selected, write_to};
use shader_tree::{Expr, Tree};
use tpf_program::{Program, Select};
use word_base::Binary;

/// The words that an instruction gives at the components of its destination.
#[derive(Clone, Copy, Debug, PartialEq, Eq)]
pub(crate) enum Given {
    /// The answer of each component.
    Answers,
    /// The one answer.
    Answer,
    /// The one answer less one.
    Less,
    /// The word 0.
    Zero,
    /// What is measured, from which a selection picks: whether its first word is kept in a scratch word,
    /// or else 0, and its second word.
    Measure {
        select: Select,
        first: bool,
        second: u32,
    },
}

/// The word that is measured at a component.
fn measured(tree: &mut Tree, first: bool, second: u32, c: u8) -> u32
    requires room { length tree.old.nodes + 1 ≤ tree.old.capacity }
    ensures grows { Grows tree.old tree.new 1 }
    ensures makes { IsNode tree.new.nodes AWord result (measured_word first second c) }
{
    match c {
        0 if first => expr(tree, Expr::Scratch(12)),
        1 => expr(tree, Expr::Word(second)),
        _ => expr(tree, Expr::Word(0)),
    }
}

/// The one answer less one, modulo 2^32.
fn less(tree: &mut Tree) -> u32
    requires room { length tree.old.nodes + 3 ≤ tree.old.capacity }
    ensures grows { Grows tree.old tree.new 3 }
    ensures makes { IsNode tree.new.nodes AWord result (given_word Less 0) }
{
    let a = expr(tree, Expr::Scratch(12));
    let b = expr(tree, Expr::Word(u32::MAX));
    expr(
        tree,
        Expr::Two {
            op: Binary::Iadd,
            a,
            b,
        },
    )
}

/// The word that an instruction gives at a component.
fn given_word(tree: &mut Tree, given: Given, c: u8) -> u32
    requires component { c < 4 }
    requires room { length tree.old.nodes + given_nodes given ≤ tree.old.capacity }
    ensures grows { Grows tree.old tree.new (given_nodes given) }
    ensures makes { IsNode tree.new.nodes AWord result (given_word given c) }
{
    match given {
        Given::Answers => expr(tree, Expr::Scratch(12 + u32::from(c))),
        Given::Answer => expr(tree, Expr::Scratch(12)),
        Given::Less => less(tree),
        Given::Zero => expr(tree, Expr::Word(0)),
        Given::Measure {
            select,
            first,
            second,
        } => measured(tree, first, second, selected(select, c)),
    }
}

/// Writes the word of a component that is written, behind a statement.
fn next_write(
    tree: &mut Tree,
    program: &Program,
    front: Option<u32>,
    to: Operand,
    words: Given,
    c: u8,
) -> Option<u32>
    requires front { IsStep tree.old.nodes front (step_of tree.old.nodes front) }
    requires few { AreFew (spaces_of program.now.shader) }
    requires to { IsOperand tree.old.nodes (spaces_of program.now.shader) to }
    requires component { c < 4 }
    requires room { length tree.old.nodes + (given_nodes words + write_nodes
        (known_target to) c + 1) ≤ tree.old.capacity }
    ensures grows { Grows tree.old tree.new (given_nodes words + write_nodes (known_target to) c + 1) }
    ensures makes { let g = spaces_of program.now.shader in IsStep tree.new.nodes result (next_if
        (is_written to.argument c) (step_of tree.old.nodes front)
        (write_by (target g to.argument) g to.place.number c (given_word words c))) }
{
    operand_laws();
    if is_written(&to.argument, c) {
        let value = given_word(tree, words, c);
        let step = write_to(tree, program, to, c, value);
        followed(tree, front, step)
    } else {
        front
    }
}

/// Writes the words of the components that are written, behind a statement.
pub(crate) fn writes(
    tree: &mut Tree,
    program: &Program,
    front: Option<u32>,
    to: Operand,
    words: Given,
) -> Option<u32>
    requires front { IsStep tree.old.nodes front (step_of tree.old.nodes front) }
    requires few { AreFew (spaces_of program.now.shader) }
    requires to { IsOperand tree.old.nodes (spaces_of program.now.shader) to }
    requires room { length tree.old.nodes + (4 * (given_nodes words + 1) + writes_nodes
        (known_target to)) ≤ tree.old.capacity }
    ensures grows { Grows tree.old tree.new (4 * (given_nodes words + 1) + writes_nodes (known_target to)) }
    ensures makes { let g = spaces_of program.now.shader in IsStep tree.new.nodes result (four_of
        (is_written to.argument)
        (λ c. write_by (target g to.argument) g to.place.number c (given_word words c)) (step_of tree.old.nodes front)) }
{
    operand_laws();
    let front = next_write(tree, program, front, to, words, 0);
    let front = next_write(tree, program, front, to, words, 1);
    let front = next_write(tree, program, front, to, words, 2);
    next_write(tree, program, front, to, words, 3)
}
