ghost use Rattle.std.specs.Prelude.{◌≡◌, ◌+◌, ◌-◌, ◌*◌, ◌<◌, ◌≤◌, ℕ, if◌then◌else◌, Some, None, length};
ghost use Rattle.tpf_program.specs.declared.instruction.Instruction.{Instruction};
ghost use Rattle.shader_tree.specs.Nodes.{AStatement};
ghost use Rattle.raise_alu.specs.Computing.{is_double};
ghost use Rattle.raise_alu.specs.Waits.{AreComponents, HasFour, HaveSteps, IsComponent, all_of, fours, most_nodes, chain_nodes, part_nodes, parts_nodes};
ghost use Rattle.raise_operands.specs.Building.{AreFew, AreOperands, Grows, IsNode, IsOperandOf, IsStep, step_of, front_of, operands_nodes, three_kept, three_nodes};
ghost use Rattle.raise_operands.specs.Raises.{InRange, IsRaisable, Raises, OfInstruction};
ghost use Rattle.raise_operands.specs.Raising.{followed, raised_by, statement_of};
ghost use Rattle.raise_operands.specs.Vectors.{spaces_of};
ghost use Rattle.shader_tree.specs.Terms.{Makes, term_at};

use crate::statement::{Component, Components, Four};
use crate::waiting::{NONE, first_turn, is_double, second_turn, writes_first, writes_second};
use crate::words::words;
use raise_operands::{
    Operands, begin, count_laws, followed, growing_laws, operand_laws, raised_laws, stmt,
};
use shader_tree::{Stmt, Tree};
use tpf_decode::{Meaning, instruction_meaning};
use tpf_program::{Instruction, Program};

/// What is done for a component of an instruction that is written.
fn written(
    tree: &mut Tree,
    program: &Program,
    meaning: Meaning,
    operands: &Operands,
    c: u8,
) -> Component
    requires operands { AreOperands tree.old.nodes (spaces_of program.now.shader) operands.now }
    requires few { AreFew (spaces_of program.now.shader) }
    requires component { c < 4 }
    requires room { length tree.old.nodes + part_nodes meaning operands.now c ≤ tree.old.capacity }
    ensures grows { Grows tree.old tree.new (part_nodes meaning operands.now c) }
    ensures component { IsComponent tree.new.nodes meaning
        (spaces_of program.now.shader) operands.now.instruction c result }
{
    growing_laws();
    operand_laws();
    let (word, other) = words(tree, program, meaning, operands, c);
    let first = first_turn(tree, meaning, operands, c, word);
    match other {
        Some(other) => {
            let second = second_turn(tree, meaning, operands, c, other);
            Component { first, second }
        }
        None => Component {
            first,
            second: NONE,
        },
    }
}

/// What is done for a component of an instruction.
fn component(
    tree: &mut Tree,
    program: &Program,
    meaning: Meaning,
    operands: &Operands,
    c: u8,
) -> Component
    requires operands { AreOperands tree.old.nodes (spaces_of program.now.shader) operands.now }
    requires few { AreFew (spaces_of program.now.shader) }
    requires component { c < 4 }
    requires room { length tree.old.nodes + part_nodes meaning operands.now c ≤ tree.old.capacity }
    ensures grows { Grows tree.old tree.new (part_nodes meaning operands.now c) }
    ensures component { IsComponent tree.new.nodes meaning
        (spaces_of program.now.shader) operands.now.instruction c result }
{
    if writes_first(meaning, operands, c) || writes_second(meaning, operands, c) {
        return written(tree, program, meaning, operands, c);
    }
    Component {
        first: NONE,
        second: NONE,
    }
}

/// A statement and two more behind it, each of which may be none.
fn behind_two(tree: &mut Tree, front: Option<u32>, a: Option<u32>, b: Option<u32>) -> Option<u32>
    requires front { IsStep tree.old.nodes front (step_of tree.old.nodes front) }
    requires a { IsStep tree.old.nodes a (step_of tree.old.nodes a) }
    requires b { IsStep tree.old.nodes b (step_of tree.old.nodes b) }
    requires room { length tree.old.nodes + 2 ≤ tree.old.capacity }
    ensures grows { Grows tree.old tree.new 2 }
    ensures makes { let step = step_of tree.old.nodes in IsStep tree.new.nodes result (followed (followed (step front)
        (step a)) (step b)) }
    ensures none { result ≡ None → (front ≡ None) × (length tree.new.nodes ≡ length tree.old.nodes) }
{
    growing_laws();
    let front = followed(tree, front, a);
    followed(tree, front, b)
}

/// A statement and those of four components behind it.
fn behind_four(tree: &mut Tree, front: Option<u32>, four: &Four) -> Option<u32>
    requires front { IsStep tree.old.nodes front (step_of tree.old.nodes front) }
    requires four { HasFour tree.old.nodes four.now }
    requires room { length tree.old.nodes + 4 ≤ tree.old.capacity }
    ensures grows { Grows tree.old tree.new 4 }
    ensures makes { IsStep tree.new.nodes result (fours tree.old.nodes four.now (step_of tree.old.nodes front)) }
    ensures none { result ≡ None → (front ≡ None) × (length tree.new.nodes ≡ length tree.old.nodes) }
{
    growing_laws();
    let front = behind_two(tree, front, four.x, four.y);
    behind_two(tree, front, four.z, four.w)
}

/// A statement, those of four components behind it, and four more.
fn behind_eight(tree: &mut Tree, front: Option<u32>, four: &Four, next: &Four) -> Option<u32>
    requires front { IsStep tree.old.nodes front (step_of tree.old.nodes front) }
    requires four { HasFour tree.old.nodes four.now }
    requires next { HasFour tree.old.nodes next.now }
    requires room { length tree.old.nodes + 8 ≤ tree.old.capacity }
    ensures grows { Grows tree.old tree.new 8 }
    ensures makes { let nodes = tree.old.nodes in IsStep tree.new.nodes result (fours nodes next.now
        (fours nodes four.now (step_of nodes front))) }
    ensures none { result ≡ None → (front ≡ None) × (length tree.new.nodes ≡ length tree.old.nodes) }
{
    growing_laws();
    let front = behind_four(tree, front, four);
    behind_four(tree, front, next)
}

/// What is done for two components of an instruction.
fn two_components(
    tree: &mut Tree,
    program: &Program,
    meaning: Meaning,
    operands: &Operands,
    c: u8,
    d: u8,
) -> (Component, Component)
    requires operands { AreOperands tree.old.nodes (spaces_of program.now.shader) operands.now }
    requires few { AreFew (spaces_of program.now.shader) }
    requires c { c < 4 }
    requires d { d < 4 }
    requires room { length tree.old.nodes +
        (part_nodes meaning operands.now c + part_nodes meaning operands.now d) ≤ tree.old.capacity }
    ensures grows { Grows tree.old tree.new (part_nodes meaning operands.now c + part_nodes meaning operands.now d) }
    ensures c { IsComponent tree.new.nodes meaning (spaces_of program.now.shader) operands.now.instruction c result.0 }
    ensures d { IsComponent tree.new.nodes meaning (spaces_of program.now.shader) operands.now.instruction d result.1 }
{
    growing_laws();
    operand_laws();
    let x = component(tree, program, meaning, operands, c);
    let y = component(tree, program, meaning, operands, d);
    (x, y)
}

/// What is done for the components of an instruction.
fn components(
    tree: &mut Tree,
    program: &Program,
    meaning: Meaning,
    operands: &Operands,
) -> Components
    requires operands { AreOperands tree.old.nodes (spaces_of program.now.shader) operands.now }
    requires few { AreFew (spaces_of program.now.shader) }
    requires room { length tree.old.nodes + parts_nodes meaning operands.now ≤ tree.old.capacity }
    ensures grows { Grows tree.old tree.new (parts_nodes meaning operands.now) }
    ensures components { AreComponents tree.new.nodes meaning
        (spaces_of program.now.shader) operands.now.instruction result }
{
    growing_laws();
    operand_laws();
    let (x, y) = two_components(tree, program, meaning, operands, 0, 1);
    let (z, w) = two_components(tree, program, meaning, operands, 2, 3);
    let first_now = Four {
        x: x.first.now,
        y: y.first.now,
        z: z.first.now,
        w: w.first.now,
    };
    let second_now = Four {
        x: x.second.now,
        y: y.second.now,
        z: z.second.now,
        w: w.second.now,
    };
    let first_behind = Four {
        x: x.first.behind,
        y: y.first.behind,
        z: z.first.behind,
        w: w.first.behind,
    };
    let second_behind = Four {
        x: x.second.behind,
        y: y.second.behind,
        z: z.second.behind,
        w: w.second.behind,
    };
    Components {
        first_now,
        second_now,
        first_behind,
        second_behind,
    }
}

/// The statements of an instruction's components behind the one that keeps its indices.
fn chain(
    tree: &mut Tree,
    meaning: Meaning,
    front: Option<u32>,
    components: &Components,
) -> Option<u32>
    requires front { IsStep tree.old.nodes front (step_of tree.old.nodes front) }
    requires steps { HaveSteps tree.old.nodes components.now }
    requires room { length tree.old.nodes + chain_nodes meaning ≤ tree.old.capacity }
    ensures grows { Grows tree.old tree.new (chain_nodes meaning) }
    ensures makes { let nodes = tree.old.nodes in IsStep tree.new.nodes result (all_of nodes meaning components.now
        (step_of nodes front)) }
    ensures none { result ≡ None → length tree.new.nodes ≡ length tree.old.nodes }
{
    growing_laws();
    let c = components;
    if is_double(meaning) {
        let now = behind_eight(tree, front, &c.first_now, &c.second_now);
        behind_eight(tree, now, &c.first_behind, &c.second_behind)
    } else {
        behind_eight(tree, front, &c.first_now, &c.first_behind)
    }
}

/// The statement of an id, or one that does nothing.
fn statement(tree: &mut Tree, meaning: Meaning, front: Option<u32>, components: &Components) -> u32
    requires front { IsStep tree.old.nodes front (step_of tree.old.nodes front) }
    requires steps { HaveSteps tree.old.nodes components.now }
    requires room { length tree.old.nodes + chain_nodes meaning ≤ tree.old.capacity }
    ensures grows { Grows tree.old tree.new (chain_nodes meaning) }
    ensures makes { let nodes = tree.old.nodes in IsNode tree.new.nodes AStatement result
        (all_of nodes meaning components.now (step_of nodes front)) }
{
    match chain(tree, meaning, front, components) {
        Some(id) => id,
        None => stmt(tree, Stmt::Nothing),
    }
}

/// The statement of an instruction with that meaning.
fn raised(tree: &mut Tree, program: &Program, meaning: Meaning, instruction: Instruction) -> u32
    requires few { AreFew (spaces_of program.now.shader) }
    requires o0 { InRange instruction.o0 }
    requires o1 { InRange instruction.o1 }
    requires o2 { InRange instruction.o2 }
    requires o3 { InRange instruction.o3 }
    requires o4 { InRange instruction.o4 }
    requires room { length tree.old.nodes + most_nodes meaning instruction ≤ tree.old.capacity }
    ensures grows { Grows tree.old tree.new (most_nodes meaning instruction) }
    ensures makes { IsNode tree.new.nodes AStatement result (raised_by meaning
        (spaces_of program.now.shader) instruction) }
{
    growing_laws();
    let begun = begin(tree, program, instruction);
    let components = components(tree, program, meaning, &begun.0);
    statement(tree, meaning, begun.1, &components)
}

/// The statement of an instruction that computes.
fn statement_of(tree: &mut Tree, program: &Program, instruction: Instruction) -> u32
    requires raisable { IsRaisable program.now.shader instruction }
    requires room { length tree.old.nodes + 16 * instruction.length ≤ tree.old.capacity }
    ensures grows { Grows tree.old tree.new (16 * instruction.length - 2) }
    ensures makes { IsNode tree.new.nodes AStatement result (statement_of program.now.shader instruction) }
{
    count_laws();
    growing_laws();
    match instruction_meaning(instruction.code) {
        Some(meaning) => raised(tree, program, meaning, instruction),
        None => stmt(tree, Stmt::Nothing),
    }
}

/// Adds the statement of an arithmetic instruction of a program, by its number, and gives its id. What
/// the instruction does to registers is what the statement does; it makes no event.
///
/// There must be room for 16 nodes for each word of the instruction; two fewer are added at most.
pub fn expressions(tree: &mut Tree, program: &Program, i: u32) -> u32
    requires there { i < length program.now.shader.instructions }
    requires raisable { OfInstruction program.now.shader i (IsRaisable program.now.shader) }
    requires room { OfInstruction program.now.shader i
        (λ x. length tree.old.nodes + 16 * x.length ≤ tree.old.capacity) }
    ensures makes { OfInstruction program.now.shader i (λ x. Makes tree.old.nodes tree.new.nodes AStatement result
        (statement_of program.now.shader x)) }
    ensures raises { OfInstruction program.now.shader i (λ x. Raises program.now.shader x
        (term_at tree.new.nodes result)) }
    ensures few { OfInstruction program.now.shader i
        (λ x. length tree.new.nodes + 2 ≤ length tree.old.nodes + 16 * x.length) }
    ensures rest { tree.new ≡ record tree.old { nodes = tree.new.nodes } }
{
    raised_laws();
    statement_of(tree, program, program.instruction(i))
}
