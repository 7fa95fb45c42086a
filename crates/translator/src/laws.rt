//! no code: what the proof of a translation cites
ghost use Rattle.std.specs.Prelude.{ℕ, List};
ghost use Rattle.word_base.specs.Words.{words_of};
ghost use Rattle.dxbc_container.specs.Chunks.{IsShex};
ghost use Rattle.tpf_decode.specs.Profiles.{Base};
ghost use Rattle.tpf_program.specs.Program.{Shader};
ghost use Rattle.tpf_program.specs.Spelling.{Spells};
ghost use Rattle.binding_map.specs.Bindings.{Binding};
ghost use Rattle.shader_tree.specs.Trees.{Grown};
ghost use Rattle.spirv_symbols.specs.declared.numbered.Numbered.{Numbered};
ghost use Rattle.spirv_emit.specs.declared.emitter.Emitter.{Emitter};
ghost use Rattle.spirv_emit.specs.Finished.{text_of};
ghost use Rattle.translator.specs.Lowered.{CanBeLowered, Lowered};
ghost use Rattle.translator.specs.Means.{HasOrderedConstants, Means, TreeMeans};

use dispatch_machine::same_laws;
use raise_program::{program_word_laws, raised_lane_laws, raised_tree_laws};
use spirv_emit::finished_laws;
use spirv_flow::{lane_laws, shape_laws};
use spirv_setup::{placed_laws, setup_laws, size_laws};
use spirv_symbols::growth_laws;
use spirv_words::text_laws;

/// What holds of what is written for a program, for the proofs of callers. It does nothing when it runs.
///
/// The words of its module mean the program that the chunk `SHEX` spells, the tree that it was lowered from does what
/// the program does, and the constants of the module ascend.
pub(crate) fn lowered_laws()
    ensures means { (bytes content : List ℕ) (p : Shader) (bindings : List Binding) (version : ℕ) (tree : Grown)
        (e : Emitter) (cs : List Numbered) (body : ℕ) → IsShex bytes content → CanBeLowered p bindings
        → Spells Base p (words_of content) → Lowered p bindings version tree e cs body
        → Means bytes bindings version (text_of body e.code.list) }
    ensures lent { (bytes content : List ℕ) (p : Shader) (bindings : List Binding) (version : ℕ) (tree : Grown)
        (e : Emitter) (cs : List Numbered) (body : ℕ) → IsShex bytes content → CanBeLowered p bindings
        → Spells Base p (words_of content) → Lowered p bindings version tree e cs body
        → TreeMeans bytes bindings tree }
    ensures ordered { (bytes content : List ℕ) (p : Shader) (bindings : List Binding) (version : ℕ) (tree : Grown)
        (e : Emitter) (cs : List Numbered) (body : ℕ) → IsShex bytes content → CanBeLowered p bindings
        → Spells Base p (words_of content) → Lowered p bindings version tree e cs body
        → HasOrderedConstants (text_of body e.code.list) }
{
    finished_laws();
    growth_laws();
    lane_laws();
    placed_laws();
    program_word_laws();
    raised_lane_laws();
    raised_tree_laws();
    same_laws();
    setup_laws();
    shape_laws();
    size_laws();
    spirv_flow::form_laws();
    spirv_symbols::form_laws();
    text_laws();
}
