//! no code: what proofs above may cite
ghost use Rattle.std.specs.Prelude.{◌≡◌, ◌<◌, ◌≤◌, ◌+◌, ◌*◌, ℕ, Bool, List, [], length};
ghost use Rattle.tpf_program.specs.Program.{Shader};
ghost use Rattle.spirv_words.specs.Globals.{Machine};
ghost use Rattle.binding_map.specs.Bindings.{Binding, IsMap};
ghost use Rattle.binding_map.specs.Completeness.{binding_refusals};
ghost use Rattle.binding_map.specs.Fits.{Fits};
ghost use Rattle.binding_map.specs.Places.{places_of};
ghost use Rattle.spirv_symbols.specs.Contexts.{IsSmall};
ghost use Rattle.spirv_symbols.specs.Modules.{interface};
ghost use Rattle.spirv_symbols.specs.Starts.{AreFound};
ghost use Rattle.spirv_symbols.specs.declared.entry.Entry.{Entry};
ghost use Rattle.spirv_symbols.specs.Wants as wants;
ghost use Rattle.spirv_symbols.specs.Wants.{HasPlaces};
ghost use Rattle.shader_tree.specs.declared.node.Node.{Node};
ghost use Rattle.shader_tree.specs.Terms.{term_at};
ghost use Rattle.spirv_emit.specs.Begun.{Names};
ghost use Rattle.spirv_emit.specs.Emission as emission;
ghost use Rattle.spirv_emit.specs.Naming.{Opened};
ghost use Rattle.spirv_emit.specs.declared.emitter.Emitter.{Emitter as Emission};
ghost use Rattle.spirv_emit.specs.Growing.{globals_in};
ghost use Rattle.spirv_emit.specs.Lanes.{FitsSetting};
ghost use Rattle.spirv_setup.specs.Named.{IsNamed, spaces_of};
ghost use Rattle.spirv_setup.specs.Premises.{IsDeclared};
ghost use Rattle.spirv_setup.specs.Setup.{IsSetUp};
ghost use Rattle.spirv_setup.specs.Variables.{variables};
ghost use Rattle.binding_map.specs.Wanted.{wanted_of};

use binding_map::binding_laws;
use spirv_symbols::growth_laws;

/// What holds in each table that has the global variables of an emitter that was set up, for the proofs of callers. It
/// does nothing when it runs.
///
/// A setting that fits the program and its map fits what is said of them, whether or not each word of `r#` is a
/// variable of its own; a lane of a module finds its variables at the places of the map, no two of them at one; and
/// the variables are those that are wanted. Where each declared constant buffer is bound, the spaces are the
/// program's, and what a tree of the program names is there when the emitter is open for it. There are at most two
/// variables for each declaration, and push constants; and an entry point lists at most 339.
pub fn setup_laws()
    ensures fits { (p : Shader) (bindings : List Binding) (e : Emission) (es : List Entry) (m : Machine) (separate : Bool)
        → IsDeclared p → IsMap bindings → IsSetUp p bindings e → globals_in es ≡ globals_in e.symbols.entries
        → m.places ≡ places_of bindings → Fits p bindings m.setting
        → FitsSetting (record e.frame { separate = separate }) es m }
    ensures found { (p : Shader) (bindings : List Binding) (e : Emission) (es : List Entry) (m : Machine)
        → IsDeclared p → IsMap bindings → IsSetUp p bindings e → globals_in es ≡ globals_in e.symbols.entries
        → m.places ≡ places_of bindings → Fits p bindings m.setting → AreFound e.frame.context es m }
    ensures places { (p : Shader) (bindings : List Binding) (e : Emission) (es : List Entry)
        → IsDeclared p → IsMap bindings → IsSetUp p bindings e → globals_in es ≡ globals_in e.symbols.entries
        → HasPlaces e.frame.context es }
    ensures wanted { (p : Shader) (bindings : List Binding) (e : Emission) (es : List Entry)
        → IsDeclared p → IsMap bindings → IsSetUp p bindings e → globals_in es ≡ globals_in e.symbols.entries
        → wants.wanted_of e.frame.context es ≡ wanted_of p bindings }
    ensures spaces { (p : Shader) (bindings : List Binding) (e : Emission) (separate : Bool)
        → IsDeclared p → binding_refusals p bindings ≡ [] → IsSetUp p bindings e
        → emission.spaces_of (record e.frame { separate = separate }) ≡ spaces_of p }
    ensures names { (p : Shader) (bindings : List Binding) (e o : Emission) (nodes : List Node) (id : ℕ)
        → IsDeclared p → IsMap bindings → binding_refusals p bindings ≡ [] → IsSetUp p bindings e → Opened e o nodes
        → IsNamed p bindings (term_at nodes id) → Names o (term_at nodes id) }
    ensures few { (p : Shader) (bindings : List Binding) → IsDeclared p → IsMap bindings
        → length (variables p bindings) ≤ 2 * length p.declarations + 1 }
    ensures interface { (p : Shader) (bindings : List Binding) (e : Emission) (es : List Entry) (version : ℕ)
        → IsDeclared p → IsMap bindings → IsSetUp p bindings e → globals_in es ≡ globals_in e.symbols.entries
        → length (interface version es) ≤ 339 }
    ensures small { (p : Shader) (bindings : List Binding) (e : Emission) → IsSetUp p bindings e
        → length p.constants < 65000 → IsSmall e.frame.context }
{
    binding_laws();
    growth_laws();
}
