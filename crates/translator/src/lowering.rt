//! The tree of a program, and the module of the tree.
ghost use Rattle.std.specs.Prelude.{◌≤◌, length};
ghost use Rattle.spirv_words.specs.Versions.{number_of_version};
ghost use Rattle.translator.specs.Lowered.{CanBeLowered, HasRoomFor, KeepsRoom, Lowered};

use binding_map::Bindings;
use raise_program::{raise, raised_tree_laws};
use shader_tree::Tree;
use spirv_emit::Emitter;
use spirv_flow::emit_tree;
use spirv_setup::{begin, declared_laws, placed_laws, setup_laws, sum_laws};
use spirv_symbols::Ascending;
use spirv_words::Version;
use tpf_program::Program;

/// Writes the tree of a program, and its module, in place of what was there. The program breaks no rule, and there is
/// room for it.
///
/// Returns how many words the function's code has with its end, by which the emitter finds the module's words.
pub(crate) fn lower(
    program: &Program,
    bindings: &Bindings,
    version: Version,
    tree: &mut Tree,
    emitter: &mut Emitter,
    constants: &mut Ascending,
) -> u32
    requires program { CanBeLowered program.now.shader bindings.now }
    requires room { HasRoomFor program.now.shader.words tree.old emitter.old constants.old }
    ensures lowered { Lowered program.now.shader bindings.now (number_of_version version) tree.new emitter.new
        constants.new.list result }
    ensures room { KeepsRoom tree.old tree.new emitter.old emitter.new constants.old constants.new }
    ensures short { length emitter.new.code.list ≤ emitter.new.code.capacity }
{
    declared_laws();
    bindings.map_laws();
    placed_laws();
    raised_tree_laws();
    setup_laws();
    sum_laws();
    tree.clear();
    emitter.clear();
    raise(tree, program, bindings);
    let kind = begin(emitter, program, bindings, version.number());
    emit_tree(emitter, tree);
    let body = emitter.finish(kind, constants);
    emitter.word_laws();
    body
}
