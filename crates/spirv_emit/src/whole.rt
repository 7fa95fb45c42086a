//! no code: what proofs above may cite
ghost use Rattle.std.specs.Prelude.{◌≡◌, ℕ, List, [], ◌∷◌, ◌++◌, IsTrue};
ghost use Rattle.std.specs.List.{list_all};
ghost use Rattle.word_base.specs.Settings.{Setting};
ghost use Rattle.spirv_words.specs.Globals.{Places};
ghost use Rattle.spirv_words.specs.Lane.{machine};
ghost use Rattle.spirv_words.specs.Operands.{is_sorted};
ghost use Rattle.spirv_words.specs.Text.{Instr, instruction};
ghost use Rattle.spirv_words.specs.Operations.{OpFunctionEnd};
ghost use Rattle.kept_values.specs.Tables as kept;
ghost use Rattle.spirv_symbols.specs.Starts.{AreFound};
ghost use Rattle.spirv_symbols.specs.declared.numbered.Numbered.{Numbered};
ghost use Rattle.spirv_symbols.specs.Modules.{Kind, IsReady, IsBody, HasIds, module_code, module_of};
ghost use Rattle.spirv_symbols.specs.Tables.{Table, Stands, Extends};
ghost use Rattle.spirv_emit.specs.Emission.{Emission, Frame};
ghost use Rattle.spirv_emit.specs.Growing.{Completes};
ghost use Rattle.spirv_emit.specs.Lanes.{Site, FitsSetting, IsWhole};
ghost use Rattle.spirv_emit.specs.Finished.{site, Opens};
ghost use Rattle.spirv_emit.specs.Linked.{ArePlaced, IsLinked};

use spirv_symbols::{growth_laws, id_laws, module_laws, room_laws, start_laws};

/// What holds of finished modules. It does nothing when it runs.
///
/// A module whose function's instructions have their sorts, with ids of their own, is whole under a setting
/// that fits it, and completes each emitter whose symbols it has. Its pointers are linked to the rooms of places
/// that have them, which need not be those that its lane is run at. A lane of it comes to the function's code,
/// and mirrors a lane of the tree at its start.
pub fn finished_laws()
    ensures whole { (f : Frame) (kind : Kind) (t : Table) (cs : List Numbered) (body : List Instr) (bound : ℕ)
        (places : Places) (setting : Setting) → IsReady f.context t cs → IsBody body → HasIds t bound body
        → IsTrue (list_all (is_sorted (module_code f.context kind t.entries cs body)) body)
        → FitsSetting f t.entries (machine (module_of f.context kind t.entries cs body bound) places setting)
        → IsWhole (site f kind t cs body bound places setting) }
    ensures linked { (f : Frame) (kind : Kind) (t : Table) (cs : List Numbered) (body : List Instr) (bound : ℕ)
        (own places : Places) (setting : Setting) → IsReady f.context t cs → IsBody body → HasIds t bound body
        → ArePlaced f.context t.entries places
        → IsLinked (site f kind t cs body bound own setting) places }
    ensures completes { (e : Emission) (t : Table) (z : Site) → Stands z.frame.context t → z.names ≡ t.entries
        → e.frame ≡ z.frame → Extends e.symbols t → IsWhole z → Completes e z }
    ensures opens { (f : Frame) (kind : Kind) (t : Table) (cs : List Numbered) (body : List Instr) (bound : ℕ)
        (places : Places) (setting : Setting) (table : kept.Table) → IsReady f.context t cs → IsBody body
        → AreFound f.context t.entries (machine (module_of f.context kind t.entries cs body bound) places setting)
        → kept.IsEmpty table
        → Opens (site f kind t cs body bound places setting) (module_of f.context kind t.entries cs body bound)
        places setting (body ++ instruction OpFunctionEnd [] ∷ []) table }
{
    start_laws();
    id_laws();
    growth_laws();
    module_laws();
    room_laws();
    spirv_symbols::form_laws();
    spirv_words::form_laws();
}
