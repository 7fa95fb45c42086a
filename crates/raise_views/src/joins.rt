ghost use Rattle.std.specs.Prelude.{◌≡◌, ◌+◌, ◌*◌, ◌<◌, ◌≤◌, if◌then◌else◌, Some, None, length};
ghost use Rattle.shader_tree.specs.Nodes.{AStatement};
ghost use Rattle.shader_tree.specs.Terms.{Guard};
ghost use Rattle.tpf_program.specs.Holding.{SelectsInRange};
ghost use Rattle.tpf_program.specs.Values.{selected};
ghost use Rattle.tpf_program.specs.Writes.{in_mask, masked, written};
ghost use Rattle.raise_operands.specs.Building.{AreFew, Grows, IsNode, IsOperand, IsStep, is_written, source_nodes, step_of};
ghost use Rattle.raise_operands.specs.Raising.{chained_from, source};
ghost use Rattle.raise_operands.specs.Vectors.{spaces_of};
ghost use Rattle.raise_views.specs.Making.{more};
ghost use Rattle.raise_views.specs.Giving.{are_all, four_taken, inside, is_any};
ghost use Rattle.raise_views.specs.declared.address.Way.TheVariants.{Structures};
ghost use Rattle.raise_views.specs.Reaching.{index_of, index_test, is_index_known, loads, stand_together, stores, words_of};

use crate::address::{Reach, Way};
use crate::chains::{loads_apart, loads_bare, stores_apart, stores_bare, zeros};
use crate::locate::index_test;
use crate::parts::{guard, then};
use raise_operands::{Operand, in_mask, is_written, operand_laws, selected, some_statement};
use shader_tree::Tree;
use tpf_program::{Argument, Program, Select};

/// The component that a load takes for a component that is written.
fn loaded(to: Argument, select: Select, d: u8) -> Option<u8>
    requires { d < 4 }
    ensures { result ≡ (if is_written to d then Some (selected select d) else None) }
{
    if is_written(&to, d) {
        Some(selected(select, d))
    } else {
        None
    }
}

/// A component of a mask.
fn stored(mask: Select, c: u8) -> Option<u8>
    requires { c < 4 }
    ensures { result ≡ (if in_mask mask c then Some c else None) }
{
    if in_mask(mask, c) { Some(c) } else { None }
}

/// Whether a component that is there lies in its structure.
fn is_inside(words: u32, word: u32, c: Option<u8>) -> bool
    ensures { result ≡ inside words word c }
{
    match c {
        None => true,
        Some(c) => u64::from(word) + u64::from(c) < u64::from(words),
    }
}

/// Whether the index of an address is known to be in range.
fn is_index_known(words: u32, known: u64, index: Option<u32>) -> bool
    ensures { result ≡ is_index_known words known index }
{
    match index {
        Some(index) => words != 0 && u64::from(index) < known / u64::from(words),
        None => false,
    }
}

/// Whether one of four components is there.
fn is_any(x: Option<u8>, y: Option<u8>, z: Option<u8>, w: Option<u8>) -> bool
    ensures { result ≡ is_any x y z w }
{
    x.is_some() || y.is_some() || z.is_some() || w.is_some()
}

/// Whether each of four components that is there lies in its structure.
fn are_inside(
    words: u32,
    word: u32,
    x: Option<u8>,
    y: Option<u8>,
    z: Option<u8>,
    w: Option<u8>,
) -> bool
    ensures { result ≡ are_all words word x y z w }
{
    is_inside(words, word, x)
        && is_inside(words, word, y)
        && is_inside(words, word, z)
        && is_inside(words, word, w)
}

/// Whether components of structures of so many words at a word stand under one guard.
fn are_joined(
    reach: Reach,
    words: u32,
    word: u32,
    x: Option<u8>,
    y: Option<u8>,
    z: Option<u8>,
    w: Option<u8>,
) -> bool
    requires way { reach.address.way ≡ Structures words }
    requires word { reach.address.word ≡ Some word }
    ensures { result ≡ stand_together reach (four_taken x y z w) }
{
    let any = is_any(x, y, z, w);
    let inside = are_inside(words, word, x, y, z, w);
    let known = is_index_known(words, reach.known, reach.address.index);
    any & inside & !known
}

/// Whether components stand under one guard.
fn stand_together(reach: Reach, x: Option<u8>, y: Option<u8>, z: Option<u8>, w: Option<u8>) -> bool
    ensures { result ≡ stand_together reach (four_taken x y z w) }
{
    match (reach.address.way, reach.address.word) {
        (Way::Structures(words), Some(word)) => are_joined(reach, words, word, x, y, z, w),
        _ => false,
    }
}

/// A statement, which may be none, under the test of an index alone.
fn together(tree: &mut Tree, reach: Reach, body: Option<u32>) -> u32
    requires body { IsStep tree.old.nodes body (step_of tree.old.nodes body) }
    requires room { length tree.old.nodes + 6 ≤ tree.old.capacity }
    ensures grows { Grows tree.old tree.new 6 }
    ensures makes { let a = reach.address in
        IsNode tree.new.nodes AStatement result (Guard (index_test (words_of a.way) reach.room (index_of a)) (step_of tree.old.nodes body)) }
{
    let body = some_statement(tree, body);
    let words = match reach.address.way {
        Way::Structures(words) => words,
        _ => 0,
    };
    let truth = index_test(tree, words, reach.room, reach.address);
    guard(tree, truth, body)
}

/// The loads of the components that are written, behind a statement.
pub(crate) fn loads(
    tree: &mut Tree,
    front: Option<u32>,
    reach: Reach,
    to: Argument,
    select: Select,
) -> Option<u32>
    requires front { IsStep tree.old.nodes front (step_of tree.old.nodes front) }
    requires select { SelectsInRange select }
    requires room { length tree.old.nodes + 4 * (14 + more reach.address.way) ≤ tree.old.capacity }
    ensures grows { Grows tree.old tree.new (4 * (14 + more reach.address.way)) }
    ensures makes { IsStep tree.new.nodes result (chained_from (step_of tree.old.nodes front) (loads reach
        (written to) (selected select))) }
{
    let x = loaded(to, select, 0);
    let y = loaded(to, select, 1);
    let z = loaded(to, select, 2);
    let w = loaded(to, select, 3);
    if stand_together(reach, x, y, z, w) {
        let front = zeros(tree, front, to);
        let body = loads_bare(tree, reach, to, select);
        let part = together(tree, reach, body);
        then(tree, front, part)
    } else {
        loads_apart(tree, front, reach, to, select)
    }
}

/// The stores of the components of a mask, behind a statement.
pub(crate) fn stores(
    tree: &mut Tree,
    program: &Program,
    front: Option<u32>,
    reach: Reach,
    mask: Select,
    from: Operand,
) -> Option<u32>
    requires front { IsStep tree.old.nodes front (step_of tree.old.nodes front) }
    requires few { AreFew (spaces_of program.now.shader) }
    requires from { IsOperand tree.old.nodes (spaces_of program.now.shader) from }
    requires room { length tree.old.nodes + (4 *
        (source_nodes from.argument + 11 + more reach.address.way) + 2) ≤ tree.old.capacity }
    ensures grows { Grows tree.old tree.new (4 * (source_nodes from.argument + 11 + more reach.address.way) + 2) }
    ensures makes { IsStep tree.new.nodes result (chained_from (step_of tree.old.nodes front)
        (stores reach (masked mask) (source (spaces_of program.now.shader) from.place.number from.argument))) }
{
    let x = stored(mask, 0);
    let y = stored(mask, 1);
    let z = stored(mask, 2);
    let w = stored(mask, 3);
    if stand_together(reach, x, y, z, w) {
        let body = stores_bare(tree, program, reach, mask, from);
        let part = together(tree, reach, body);
        then(tree, front, part)
    } else {
        stores_apart(tree, program, front, reach, mask, from)
    }
}
