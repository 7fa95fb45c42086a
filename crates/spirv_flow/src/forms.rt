//! no code: what proofs above may cite
ghost use Rattle.std.specs.Prelude.{◌≡◌, ℕ, ◌++◌, ◌∷◌, [], List, IsTrue, false};
ghost use Rattle.shader_tree.specs.Placed.{is_placed};
ghost use Rattle.shader_tree.specs.Terms.{Term};
ghost use Rattle.spirv_words.specs.Form.{Form};
ghost use Rattle.spirv_words.specs.Text.{Instr, is_version};
ghost use Rattle.spirv_symbols.specs.declared.numbered.Numbered.{Numbered};
ghost use Rattle.spirv_symbols.specs.Contexts.{Context};
ghost use Rattle.spirv_symbols.specs.Modules.{Kind, IsReady, module_of};
ghost use Rattle.spirv_symbols.specs.Tables.{Table};
ghost use Rattle.spirv_symbols.specs.Wants.{HasPlaces, wanted_of};
ghost use Rattle.spirv_emit.specs.declared.emitter.Emitter.{Emitter as Emission};
ghost use Rattle.spirv_emit.specs.declared.emitter.Frame.{Frame};
ghost use Rattle.spirv_emit.specs.Sized.{IsSized};
ghost use Rattle.spirv_flow.specs.Formed.{Finishes, IsFitted, KeepsForm};
ghost use Rattle.spirv_flow.specs.Layout.{code_of, leave};
ghost use Rattle.spirv_flow.specs.Lowers.{Lowers, marks};

use spirv_emit::finished_laws;
use spirv_symbols::{growth_laws, id_laws, module_laws};

/// What holds of the form of a module around a statement's blocks: their code does its part for it, and a module
/// whose code does has the form for the variables of its table. In a statement whose cases stand in switches no
/// case stands directly, and some setting fits a frame with sizes. It does nothing when it runs.
pub fn form_laws()
    ensures keeps { (kind : Kind) (old new : Emission) (x : Term) (t : Table) (cs : List Numbered) (bound : ℕ)
        (h : Lowers old new 0 0 0 false false x) → Finishes old new x t cs bound
        → KeepsForm new.frame.context kind t cs bound (code_of h.layout 0 0 ++ leave ∷ []) }
    ensures unmarked { (x : Term) → IsTrue (is_placed x) → marks x ≡ 0 }
    ensures fitted { (f : Frame) → IsSized f → IsFitted f }
    ensures form { (c : Context) (kind : Kind) (t : Table) (cs : List Numbered) (bound : ℕ) (body : List Instr)
        → IsReady c t cs → KeepsForm c kind t cs bound body → HasPlaces c t.entries → IsTrue (is_version kind.version)
        → Form kind.version kind.threads (wanted_of c t.entries) (module_of c kind t.entries cs body bound) }
{
    finished_laws();
    id_laws();
    growth_laws();
    module_laws();
    spirv_symbols::form_laws();
}
