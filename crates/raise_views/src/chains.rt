ghost use Rattle.std.specs.Prelude.{◌≡◌, ◌+◌, ◌*◌, ◌<◌, ◌≤◌, length};
ghost use Rattle.shader_tree.specs.Nodes.{AStatement};
ghost use Rattle.shader_tree.specs.Terms.{Nothing};
ghost use Rattle.tpf_program.specs.Holding.{SelectsInRange};
ghost use Rattle.tpf_program.specs.Values.{selected};
ghost use Rattle.tpf_program.specs.Writes.{in_mask};
ghost use Rattle.raise_operands.specs.Building.{AreFew, Grows, IsNode, IsOperand, IsStep, is_written, source_nodes, step_of};
ghost use Rattle.raise_operands.specs.Raising.{source};
ghost use Rattle.raise_operands.specs.Vectors.{spaces_of};
ghost use Rattle.raise_views.specs.Reaching.{load_of, load_part, store_of, store_part, zero_of};
ghost use Rattle.raise_views.specs.Making.{base_nodes, four_of, more, next_if};

use crate::address::Reach;
use crate::parts::{load_bare, load_part, store_bare, store_part, then, zeroed};
use raise_operands::{Operand, in_mask, is_written, operand_laws, selected};
use shader_tree::Tree;
use tpf_program::{Argument, Program, Select};

/// The load of a component that is written, under its test, behind a statement.
fn next_load(
    tree: &mut Tree,
    front: Option<u32>,
    reach: Reach,
    to: Argument,
    select: Select,
    d: u8,
) -> Option<u32>
    requires front { IsStep tree.old.nodes front (step_of tree.old.nodes front) }
    requires select { SelectsInRange select }
    requires component { d < 4 }
    requires room { length tree.old.nodes + (14 + more reach.address.way) ≤ tree.old.capacity }
    ensures grows { Grows tree.old tree.new (14 + more reach.address.way) }
    ensures makes { IsStep tree.new.nodes result (next_if (is_written to d) (step_of tree.old.nodes front)
        (load_part reach d (selected select d))) }
{
    if is_written(&to, d) {
        let part = load_part(tree, reach, d, selected(select, d));
        then(tree, front, part)
    } else {
        front
    }
}

/// The loads of the components that are written, each under its test, behind a statement.
pub(crate) fn loads_apart(
    tree: &mut Tree,
    front: Option<u32>,
    reach: Reach,
    to: Argument,
    select: Select,
) -> Option<u32>
    requires front { IsStep tree.old.nodes front (step_of tree.old.nodes front) }
    requires select { SelectsInRange select }
    requires room { length tree.old.nodes + 4 * (14 + more reach.address.way) ≤ tree.old.capacity }
    ensures grows { Grows tree.old tree.new (4 * (14 + more reach.address.way)) }
    ensures makes { IsStep tree.new.nodes result
        (four_of (is_written to) (λ d. load_part reach d (selected select d)) (step_of tree.old.nodes front)) }
{
    let front = next_load(tree, front, reach, to, select, 0);
    let front = next_load(tree, front, reach, to, select, 1);
    let front = next_load(tree, front, reach, to, select, 2);
    next_load(tree, front, reach, to, select, 3)
}

/// The load of a component that is written, without a test, behind a statement.
fn next_bare(
    tree: &mut Tree,
    front: Option<u32>,
    reach: Reach,
    to: Argument,
    select: Select,
    d: u8,
) -> Option<u32>
    requires front { IsStep tree.old.nodes front (step_of tree.old.nodes front) }
    requires select { SelectsInRange select }
    requires component { d < 4 }
    requires room { length tree.old.nodes + 8 ≤ tree.old.capacity }
    ensures grows { Grows tree.old tree.new 8 }
    ensures makes { IsStep tree.new.nodes result (next_if (is_written to d) (step_of tree.old.nodes front)
        (load_of reach d (selected select d))) }
{
    if is_written(&to, d) {
        let part = load_bare(tree, reach, d, selected(select, d));
        then(tree, front, part)
    } else {
        front
    }
}

/// The loads of the components that are written, without tests.
pub(crate) fn loads_bare(tree: &mut Tree, reach: Reach, to: Argument, select: Select) -> Option<u32>
    requires select { SelectsInRange select }
    requires room { length tree.old.nodes + 32 ≤ tree.old.capacity }
    ensures grows { Grows tree.old tree.new 32 }
    ensures makes { IsStep tree.new.nodes result (four_of (is_written to) (λ d. load_of reach d
        (selected select d)) Nothing) }
{
    let front = next_bare(tree, None, reach, to, select, 0);
    let front = next_bare(tree, front, reach, to, select, 1);
    let front = next_bare(tree, front, reach, to, select, 2);
    next_bare(tree, front, reach, to, select, 3)
}

/// The scratch word of a component that is written becomes 0, behind a statement.
fn next_zero(tree: &mut Tree, front: Option<u32>, to: Argument, d: u8) -> Option<u32>
    requires front { IsStep tree.old.nodes front (step_of tree.old.nodes front) }
    requires component { d < 4 }
    requires room { length tree.old.nodes + 3 ≤ tree.old.capacity }
    ensures grows { Grows tree.old tree.new 3 }
    ensures makes { IsStep tree.new.nodes result (next_if (is_written to d) (step_of tree.old.nodes front)
        (zero_of d)) }
{
    if is_written(&to, d) {
        let part = zeroed(tree, 12 + u32::from(d));
        then(tree, front, part)
    } else {
        front
    }
}

/// The scratch words of the components that are written become 0, behind a statement.
pub(crate) fn zeros(tree: &mut Tree, front: Option<u32>, to: Argument) -> Option<u32>
    requires front { IsStep tree.old.nodes front (step_of tree.old.nodes front) }
    requires room { length tree.old.nodes + 12 ≤ tree.old.capacity }
    ensures grows { Grows tree.old tree.new 12 }
    ensures makes { IsStep tree.new.nodes result (four_of (is_written to) zero_of (step_of tree.old.nodes front)) }
{
    let front = next_zero(tree, front, to, 0);
    let front = next_zero(tree, front, to, 1);
    let front = next_zero(tree, front, to, 2);
    next_zero(tree, front, to, 3)
}

/// The store of a component of the mask, under its test, behind a statement.
fn next_store(
    tree: &mut Tree,
    program: &Program,
    front: Option<u32>,
    reach: Reach,
    mask: Select,
    from: Operand,
    c: u8,
) -> Option<u32>
    requires front { IsStep tree.old.nodes front (step_of tree.old.nodes front) }
    requires component { c < 4 }
    requires few { AreFew (spaces_of program.now.shader) }
    requires from { IsOperand tree.old.nodes (spaces_of program.now.shader) from }
    requires room { length tree.old.nodes +
        (source_nodes from.argument + 9 + base_nodes c + more reach.address.way) ≤ tree.old.capacity }
    ensures grows { Grows tree.old tree.new (source_nodes from.argument + 9 + base_nodes c + more reach.address.way) }
    ensures makes { IsStep tree.new.nodes result (next_if (in_mask mask c) (step_of tree.old.nodes front)
        (store_part reach c (source (spaces_of program.now.shader) from.place.number from.argument c))) }
{
    if in_mask(mask, c) {
        let part = store_part(tree, program, reach, from, c);
        then(tree, front, part)
    } else {
        front
    }
}

/// The stores of the components of the mask, each under its test, behind a statement.
pub(crate) fn stores_apart(
    tree: &mut Tree,
    program: &Program,
    front: Option<u32>,
    reach: Reach,
    mask: Select,
    from: Operand,
) -> Option<u32>
    requires front { IsStep tree.old.nodes front (step_of tree.old.nodes front) }
    requires few { AreFew (spaces_of program.now.shader) }
    requires from { IsOperand tree.old.nodes (spaces_of program.now.shader) from }
    requires room { length tree.old.nodes + (4 *
        (source_nodes from.argument + 11 + more reach.address.way) + 2) ≤ tree.old.capacity }
    ensures grows { Grows tree.old tree.new (4 * (source_nodes from.argument + 11 + more reach.address.way) + 2) }
    ensures makes { IsStep tree.new.nodes result (four_of (in_mask mask)
        (λ c. store_part reach c (source (spaces_of program.now.shader) from.place.number from.argument c)) (step_of tree.old.nodes front)) }
{
    operand_laws();
    let front = next_store(tree, program, front, reach, mask, from, 0);
    let front = next_store(tree, program, front, reach, mask, from, 1);
    let front = next_store(tree, program, front, reach, mask, from, 2);
    next_store(tree, program, front, reach, mask, from, 3)
}

/// The store of a component of the mask, without a test, behind a statement.
fn next_bare_store(
    tree: &mut Tree,
    program: &Program,
    front: Option<u32>,
    reach: Reach,
    mask: Select,
    from: Operand,
    c: u8,
) -> Option<u32>
    requires front { IsStep tree.old.nodes front (step_of tree.old.nodes front) }
    requires component { c < 4 }
    requires few { AreFew (spaces_of program.now.shader) }
    requires from { IsOperand tree.old.nodes (spaces_of program.now.shader) from }
    requires room { length tree.old.nodes + (source_nodes from.argument + 9) ≤ tree.old.capacity }
    ensures grows { Grows tree.old tree.new (source_nodes from.argument + 9) }
    ensures makes { IsStep tree.new.nodes result (next_if (in_mask mask c) (step_of tree.old.nodes front)
        (store_of reach (source (spaces_of program.now.shader) from.place.number from.argument) c)) }
{
    if in_mask(mask, c) {
        let part = store_bare(tree, program, reach, from, c);
        then(tree, front, part)
    } else {
        front
    }
}

/// The stores of the components of the mask, without tests.
pub(crate) fn stores_bare(
    tree: &mut Tree,
    program: &Program,
    reach: Reach,
    mask: Select,
    from: Operand,
) -> Option<u32>
    requires few { AreFew (spaces_of program.now.shader) }
    requires from { IsOperand tree.old.nodes (spaces_of program.now.shader) from }
    requires room { length tree.old.nodes + 4 * (source_nodes from.argument + 9) ≤ tree.old.capacity }
    ensures grows { Grows tree.old tree.new (4 * (source_nodes from.argument + 9)) }
    ensures makes { IsStep tree.new.nodes result (four_of (in_mask mask)
        (store_of reach (source (spaces_of program.now.shader) from.place.number from.argument)) Nothing) }
{
    operand_laws();
    let front = next_bare_store(tree, program, None, reach, mask, from, 0);
    let front = next_bare_store(tree, program, front, reach, mask, from, 1);
    let front = next_bare_store(tree, program, front, reach, mask, from, 2);
    next_bare_store(tree, program, front, reach, mask, from, 3)
}
