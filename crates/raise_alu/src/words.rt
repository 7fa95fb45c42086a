ghost use Rattle.std.specs.Prelude.{◌≡◌, ◌+◌, ◌<◌, ◌≤◌, length};
ghost use Rattle.shader_tree.specs.Nodes.{AWord};
ghost use Rattle.raise_operands.specs.declared.operand.Operand.{Operand};
ghost use Rattle.raise_alu.specs.Computing.{IsSecond, operation_nodes, sources_nodes};
ghost use Rattle.raise_operands.specs.Building.{AreFew, AreOperands, Grows, IsNode, IsOperand, StandsFor, source_nodes};
ghost use Rattle.raise_operands.specs.Folding.{unary_of, binary_of, ternary_of, insert_of, first_of, second_of, chosen};
ghost use Rattle.raise_operands.specs.Raising.{computed, source};
ghost use Rattle.raise_operands.specs.Vectors.{spaces_of};

use raise_operands::{
    Operand, Operands, Value, binary, expr, growing_laws, id_of, insert, operand_laws, pair,
    source, swapped, ternary, unary,
};
use shader_tree::{Expr, Tree};
use tpf_decode::Meaning;
use tpf_program::Program;
use word_base::{Binary, Paired, Ternary, Unary};

/// The words of two sources at a component.
fn two_sources(
    tree: &mut Tree,
    program: &Program,
    a: &Operand,
    b: &Operand,
    component: u8,
) -> (Value, Value)
    requires a { IsOperand tree.old.nodes (spaces_of program.now.shader) a.now }
    requires b { IsOperand tree.old.nodes (spaces_of program.now.shader) b.now }
    requires few { AreFew (spaces_of program.now.shader) }
    requires component { component < 4 }
    requires room { length tree.old.nodes +
        (source_nodes a.now.argument + source_nodes b.now.argument) ≤ tree.old.capacity }
    ensures grows { Grows tree.old tree.new (source_nodes a.now.argument + source_nodes b.now.argument) }
    ensures a { StandsFor tree.new.nodes result.0 (source
        (spaces_of program.now.shader) a.now.place.number a.now.argument component) }
    ensures b { StandsFor tree.new.nodes result.1 (source
        (spaces_of program.now.shader) b.now.place.number b.now.argument component) }
{
    growing_laws();
    operand_laws();
    let first = source(tree, program, *a, component);
    let second = source(tree, program, *b, component);
    (first, second)
}

/// The words of three sources at a component.
fn three_sources(
    tree: &mut Tree,
    program: &Program,
    a: &Operand,
    b: &Operand,
    c: &Operand,
    component: u8,
) -> (Value, Value, Value)
    requires a { IsOperand tree.old.nodes (spaces_of program.now.shader) a.now }
    requires b { IsOperand tree.old.nodes (spaces_of program.now.shader) b.now }
    requires c { IsOperand tree.old.nodes (spaces_of program.now.shader) c.now }
    requires few { AreFew (spaces_of program.now.shader) }
    requires component { component < 4 }
    requires room { length tree.old.nodes +
        (source_nodes a.now.argument + source_nodes b.now.argument + source_nodes c.now.argument) ≤ tree.old.capacity }
    ensures grows { Grows tree.old tree.new
        (source_nodes a.now.argument + source_nodes b.now.argument + source_nodes c.now.argument) }
    ensures a { StandsFor tree.new.nodes result.0 (source
        (spaces_of program.now.shader) a.now.place.number a.now.argument component) }
    ensures b { StandsFor tree.new.nodes result.1 (source
        (spaces_of program.now.shader) b.now.place.number b.now.argument component) }
    ensures c { StandsFor tree.new.nodes result.2 (source
        (spaces_of program.now.shader) c.now.place.number c.now.argument component) }
{
    growing_laws();
    operand_laws();
    let (first, second) = two_sources(tree, program, a, b, component);
    let third = source(tree, program, *c, component);
    (first, second, third)
}

/// The words of four sources at a component.
fn four_sources(
    tree: &mut Tree,
    program: &Program,
    a: &Operand,
    b: &Operand,
    c: &Operand,
    d: &Operand,
    component: u8,
) -> (Value, Value, Value, Value)
    requires a { IsOperand tree.old.nodes (spaces_of program.now.shader) a.now }
    requires b { IsOperand tree.old.nodes (spaces_of program.now.shader) b.now }
    requires c { IsOperand tree.old.nodes (spaces_of program.now.shader) c.now }
    requires d { IsOperand tree.old.nodes (spaces_of program.now.shader) d.now }
    requires few { AreFew (spaces_of program.now.shader) }
    requires component { component < 4 }
    requires room { length tree.old.nodes +
        (source_nodes a.now.argument + source_nodes b.now.argument + source_nodes c.now.argument +
        source_nodes d.now.argument)
        ≤ tree.old.capacity }
    ensures grows { Grows tree.old tree.new
        (source_nodes a.now.argument + source_nodes b.now.argument + source_nodes c.now.argument +
        source_nodes d.now.argument) }
    ensures a { StandsFor tree.new.nodes result.0 (source
        (spaces_of program.now.shader) a.now.place.number a.now.argument component) }
    ensures b { StandsFor tree.new.nodes result.1 (source
        (spaces_of program.now.shader) b.now.place.number b.now.argument component) }
    ensures c { StandsFor tree.new.nodes result.2 (source
        (spaces_of program.now.shader) c.now.place.number c.now.argument component) }
    ensures d { StandsFor tree.new.nodes result.3 (source
        (spaces_of program.now.shader) d.now.place.number d.now.argument component) }
{
    growing_laws();
    operand_laws();
    let (first, second, third) = three_sources(tree, program, a, b, c, component);
    let fourth = source(tree, program, *d, component);
    (first, second, third, fourth)
}

/// The word of an operation on one source.
fn one(tree: &mut Tree, program: &Program, op: Unary, a: &Operand, component: u8) -> u32
    requires a { IsOperand tree.old.nodes (spaces_of program.now.shader) a.now }
    requires few { AreFew (spaces_of program.now.shader) }
    requires component { component < 4 }
    requires room { length tree.old.nodes + (source_nodes a.now.argument + 2) ≤ tree.old.capacity }
    ensures grows { Grows tree.old tree.new (source_nodes a.now.argument + 2) }
    ensures makes { let word = λ (o : Operand). source
        (spaces_of program.now.shader) o.place.number o.argument component in
        IsNode tree.new.nodes AWord result (unary_of op (word a.now)) }
{
    let word = source(tree, program, *a, component);
    let value = unary(tree, op, word);
    id_of(tree, value)
}

/// The word of an operation on two sources.
fn two(
    tree: &mut Tree,
    program: &Program,
    op: Binary,
    a: &Operand,
    b: &Operand,
    component: u8,
) -> u32
    requires a { IsOperand tree.old.nodes (spaces_of program.now.shader) a.now }
    requires b { IsOperand tree.old.nodes (spaces_of program.now.shader) b.now }
    requires few { AreFew (spaces_of program.now.shader) }
    requires component { component < 4 }
    requires room { length tree.old.nodes +
        (source_nodes a.now.argument + source_nodes b.now.argument + 3) ≤ tree.old.capacity }
    ensures grows { Grows tree.old tree.new (source_nodes a.now.argument + source_nodes b.now.argument + 3) }
    ensures makes { let word = λ (o : Operand). source
        (spaces_of program.now.shader) o.place.number o.argument component in
        IsNode tree.new.nodes AWord result (binary_of op (word a.now) (word b.now)) }
{
    let (first, second) = two_sources(tree, program, a, b, component);
    binary(tree, op, first, second)
}

/// The word of an operation on three sources.
fn three(
    tree: &mut Tree,
    program: &Program,
    op: Ternary,
    a: &Operand,
    b: &Operand,
    c: &Operand,
    component: u8,
) -> u32
    requires a { IsOperand tree.old.nodes (spaces_of program.now.shader) a.now }
    requires b { IsOperand tree.old.nodes (spaces_of program.now.shader) b.now }
    requires c { IsOperand tree.old.nodes (spaces_of program.now.shader) c.now }
    requires few { AreFew (spaces_of program.now.shader) }
    requires component { component < 4 }
    requires room { length tree.old.nodes +
        (source_nodes a.now.argument + source_nodes b.now.argument + source_nodes c.now.argument + 4)
        ≤ tree.old.capacity }
    ensures grows { Grows tree.old tree.new
        (source_nodes a.now.argument + source_nodes b.now.argument + source_nodes c.now.argument + 4) }
    ensures makes { let word = λ (o : Operand). source
        (spaces_of program.now.shader) o.place.number o.argument component in
        IsNode tree.new.nodes AWord result (ternary_of op (word a.now) (word b.now) (word c.now)) }
{
    growing_laws();
    let (first, second, third) = three_sources(tree, program, a, b, c, component);
    ternary(tree, op, first, second, third)
}

/// The word of `bfi`: bits of its third source put into its fourth.
fn inserts(
    tree: &mut Tree,
    program: &Program,
    a: &Operand,
    b: &Operand,
    c: &Operand,
    d: &Operand,
    component: u8,
) -> u32
    requires a { IsOperand tree.old.nodes (spaces_of program.now.shader) a.now }
    requires b { IsOperand tree.old.nodes (spaces_of program.now.shader) b.now }
    requires c { IsOperand tree.old.nodes (spaces_of program.now.shader) c.now }
    requires d { IsOperand tree.old.nodes (spaces_of program.now.shader) d.now }
    requires few { AreFew (spaces_of program.now.shader) }
    requires component { component < 4 }
    requires room { length tree.old.nodes +
        (source_nodes a.now.argument + source_nodes b.now.argument + source_nodes c.now.argument +
        source_nodes d.now.argument + 5)
        ≤ tree.old.capacity }
    ensures grows { Grows tree.old tree.new
        (source_nodes a.now.argument + source_nodes b.now.argument + source_nodes c.now.argument +
        source_nodes d.now.argument + 5) }
    ensures makes { let word = λ (o : Operand). source
        (spaces_of program.now.shader) o.place.number o.argument component in
        IsNode tree.new.nodes AWord result (insert_of (word a.now) (word b.now) (word c.now) (word d.now)) }
{
    growing_laws();
    let (width, offset, inserted, base) = four_sources(tree, program, a, b, c, d, component);
    insert(tree, width, offset, inserted, base)
}

/// The two words of an operation that gives two.
fn paired(
    tree: &mut Tree,
    program: &Program,
    op: Paired,
    a: &Operand,
    b: &Operand,
    component: u8,
) -> (u32, u32)
    requires a { IsOperand tree.old.nodes (spaces_of program.now.shader) a.now }
    requires b { IsOperand tree.old.nodes (spaces_of program.now.shader) b.now }
    requires few { AreFew (spaces_of program.now.shader) }
    requires component { component < 4 }
    requires room { length tree.old.nodes +
        (source_nodes a.now.argument + source_nodes b.now.argument + 4) ≤ tree.old.capacity }
    ensures grows { Grows tree.old tree.new (source_nodes a.now.argument + source_nodes b.now.argument + 4) }
    ensures first { let word = λ (o : Operand). source
        (spaces_of program.now.shader) o.place.number o.argument component in
        IsNode tree.new.nodes AWord result.0 (first_of op (word a.now) (word b.now)) }
    ensures second { let word = λ (o : Operand). source
        (spaces_of program.now.shader) o.place.number o.argument component in
        IsNode tree.new.nodes AWord result.1 (second_of op (word a.now) (word b.now)) }
{
    let (first, second) = two_sources(tree, program, a, b, component);
    pair(tree, op, first, second)
}

/// The two words of `swapc`: two sources, which change places where a third is not 0.
fn swaps(
    tree: &mut Tree,
    program: &Program,
    on: &Operand,
    a: &Operand,
    b: &Operand,
    component: u8,
) -> (u32, u32)
    requires on { IsOperand tree.old.nodes (spaces_of program.now.shader) on.now }
    requires a { IsOperand tree.old.nodes (spaces_of program.now.shader) a.now }
    requires b { IsOperand tree.old.nodes (spaces_of program.now.shader) b.now }
    requires few { AreFew (spaces_of program.now.shader) }
    requires component { component < 4 }
    requires room { length tree.old.nodes +
        (source_nodes on.now.argument + source_nodes a.now.argument + source_nodes b.now.argument + 6)
        ≤ tree.old.capacity }
    ensures grows { Grows tree.old tree.new
        (source_nodes on.now.argument + source_nodes a.now.argument + source_nodes b.now.argument + 6) }
    ensures first { let word = λ (o : Operand). source
        (spaces_of program.now.shader) o.place.number o.argument component in
        IsNode tree.new.nodes AWord result.0 (chosen (word on.now) (word a.now) (word b.now)) }
    ensures second { let word = λ (o : Operand). source
        (spaces_of program.now.shader) o.place.number o.argument component in
        IsNode tree.new.nodes AWord result.1 (chosen (word on.now) (word b.now) (word a.now)) }
{
    growing_laws();
    let (truth, first, second) = three_sources(tree, program, on, a, b, component);
    swapped(tree, truth, first, second)
}

/// The words that an instruction computes at a component: for its first destination, and for the second
/// where it has two.
pub(crate) fn words(
    tree: &mut Tree,
    program: &Program,
    meaning: Meaning,
    operands: &Operands,
    component: u8,
) -> (u32, Option<u32>)
    requires few { AreFew (spaces_of program.now.shader) }
    requires component { component < 4 }
    requires operands { AreOperands tree.old.nodes (spaces_of program.now.shader) operands.now }
    requires room { length tree.old.nodes +
        (sources_nodes meaning operands.now + operation_nodes meaning) ≤ tree.old.capacity }
    ensures grows { Grows tree.old tree.new (sources_nodes meaning operands.now + operation_nodes meaning) }
    ensures first { IsNode tree.new.nodes AWord result.0 (computed meaning
        (spaces_of program.now.shader) operands.now.instruction component) }
    ensures second { IsSecond tree.new.nodes meaning
        (spaces_of program.now.shader) operands.now.instruction component result.1 }
{
    let o = operands;
    match meaning {
        Meaning::One(op) => (one(tree, program, op, &o.o1, component), None),
        Meaning::Two(op) => (two(tree, program, op, &o.o1, &o.o2, component), None),
        Meaning::Three(op) => (
            three(tree, program, op, &o.o1, &o.o2, &o.o3, component),
            None,
        ),
        Meaning::Inserts => (
            inserts(tree, program, &o.o1, &o.o2, &o.o3, &o.o4, component),
            None,
        ),
        Meaning::Pair(op) => {
            let (first, second) = paired(tree, program, op, &o.o2, &o.o3, component);
            (first, Some(second))
        }
        Meaning::Swaps => {
            let (first, second) = swaps(tree, program, &o.o2, &o.o3, &o.o4, component);
            (first, Some(second))
        }
        _ => (expr(tree, Expr::Word(0)), None),
    }
}
