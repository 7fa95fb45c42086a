ghost use Rattle.std.specs.Prelude.{◌≡◌, ◌+◌, ◌*◌, ◌<◌, ◌≤◌, [], false, length};
ghost use Rattle.tpf_program.specs.Sizes.{of_view};
ghost use Rattle.tpf_program.specs.Views.{words_by};
ghost use Rattle.raise_operands.specs.Building.{AreFew, AreOperands, Grows, IsOperand, IsStep, source_nodes, step_of};
ghost use Rattle.raise_operands.specs.Raising.{chained_from, source};
ghost use Rattle.raise_operands.specs.Vectors.{spaces_of};
ghost use Rattle.raise_views.specs.Counting.{kept_nodes};
ghost use Rattle.raise_views.specs.Guarding.{at_of, way_of};
ghost use Rattle.raise_views.specs.Reaching.{address_of, in_structure, keeps, paired_by};

use crate::address::{Address, view};
use crate::keeping::{at_byte, in_structure};
use raise_operands::{Operand, Operands, operand_laws};
use shader_tree::Tree;
use tpf_decode::Meaning;
use tpf_program::{Argument, Program, ViewKind};

/// How many words the structures of a view have.
fn words_of(view: ViewKind) -> u32
    ensures { result ≡ words_by (of_view false view) }
{
    match view {
        ViewKind::Structured { stride } => stride / 4,
        _ => 0,
    }
}

/// The address of a structured access, which is kept behind a statement.
fn structured(
    tree: &mut Tree,
    program: &Program,
    front: Option<u32>,
    at: Argument,
    index: Operand,
    offset: Operand,
) -> (Address, Option<u32>)
    requires typed { program.now.shader.typed ≡ [] }
    requires front { IsStep tree.old.nodes front (step_of tree.old.nodes front) }
    requires few { AreFew (spaces_of program.now.shader) }
    requires index { IsOperand tree.old.nodes (spaces_of program.now.shader) index }
    requires offset { IsOperand tree.old.nodes (spaces_of program.now.shader) offset }
    requires room { length tree.old.nodes +
        (source_nodes index.argument + source_nodes offset.argument + 5) ≤ tree.old.capacity }
    ensures grows { Grows tree.old tree.new (source_nodes index.argument + source_nodes offset.argument + 5) }
    ensures address { let word = source (spaces_of program.now.shader) in result.0 ≡ address_of (in_structure
        (words_by (way_of program.now.shader at))
        (word index.place.number index.argument 0) (word offset.place.number offset.argument 0)) }
    ensures front { let word = source (spaces_of program.now.shader) in
        IsStep tree.new.nodes result.1 (chained_from (step_of tree.old.nodes front) (keeps (in_structure (words_by (way_of program.now.shader at))
        (word index.place.number index.argument 0) (word offset.place.number offset.argument 0)))) }
{
    let words = words_of(view(program, at.kind, at.slot));
    in_structure(tree, program, front, words, index, offset, 0)
}

/// The address of an atomic, which is kept behind a statement.
fn paired(
    tree: &mut Tree,
    program: &Program,
    front: Option<u32>,
    at: Argument,
    pair: Operand,
) -> (Address, Option<u32>)
    requires typed { program.now.shader.typed ≡ [] }
    requires front { IsStep tree.old.nodes front (step_of tree.old.nodes front) }
    requires few { AreFew (spaces_of program.now.shader) }
    requires pair { IsOperand tree.old.nodes (spaces_of program.now.shader) pair }
    requires room { length tree.old.nodes +
        (source_nodes pair.argument + source_nodes pair.argument + 5) ≤ tree.old.capacity }
    ensures grows { Grows tree.old tree.new (source_nodes pair.argument + source_nodes pair.argument + 5) }
    ensures address { let p = program.now.shader in
        result.0 ≡ address_of (paired_by (way_of p at) (spaces_of p) pair.place.number pair.argument) }
    ensures front { let p = program.now.shader in IsStep tree.new.nodes result.1
        (chained_from (step_of tree.old.nodes front) (keeps (paired_by (way_of p at) (spaces_of p) pair.place.number pair.argument))) }
{
    match view(program, at.kind, at.slot) {
        ViewKind::Structured { stride } => {
            in_structure(tree, program, front, stride / 4, pair, pair, 1)
        }
        _ => at_byte(tree, program, front, pair),
    }
}

/// The address of an instruction that reaches a room, which is kept behind a statement.
pub(crate) fn kept(
    tree: &mut Tree,
    program: &Program,
    front: Option<u32>,
    meaning: Meaning,
    os: &Operands,
) -> (Address, Option<u32>)
    requires typed { program.now.shader.typed ≡ [] }
    requires front { IsStep tree.old.nodes front (step_of tree.old.nodes front) }
    requires few { AreFew (spaces_of program.now.shader) }
    requires operands { AreOperands tree.old.nodes (spaces_of program.now.shader) os.now }
    requires room { length tree.old.nodes + kept_nodes meaning os.now ≤ tree.old.capacity }
    ensures grows { Grows tree.old tree.new (kept_nodes meaning os.now) }
    ensures address { result.0 ≡ address_of (at_of meaning program.now.shader os.now.instruction) }
    ensures front { IsStep tree.new.nodes result.1 (chained_from (step_of tree.old.nodes front) (keeps
        (at_of meaning program.now.shader os.now.instruction))) }
{
    operand_laws();
    let i = &os.instruction;
    match meaning {
        Meaning::LoadStructured => structured(tree, program, front, i.o3, os.o1, os.o2),
        Meaning::StoreStructured => structured(tree, program, front, i.o0, os.o1, os.o2),
        Meaning::Acts(_) => paired(tree, program, front, i.o0, os.o1),
        Meaning::Compares => paired(tree, program, front, i.o0, os.o1),
        Meaning::Fetches(_) => paired(tree, program, front, i.o1, os.o2),
        Meaning::Exchanges => paired(tree, program, front, i.o1, os.o2),
        _ => at_byte(tree, program, front, os.o1),
    }
}
