//! no code: what proofs above may cite
ghost use Rattle.std.specs.Prelude.{◌≡◌, List, []};
ghost use Rattle.tpf_program.specs.Program.{Shader};
ghost use Rattle.binding_map.specs.Bindings.{Binding, IsMap};
ghost use Rattle.binding_map.specs.Completeness.{binding_refusals};
ghost use Rattle.shader_tree.specs.Terms.{Term};
ghost use Rattle.spirv_symbols.specs.declared.entry.Entry.{Entry};
ghost use Rattle.spirv_emit.specs.declared.emitter.Emitter.{Emitter as Emission};
ghost use Rattle.spirv_emit.specs.Growing.{globals_in};
ghost use Rattle.spirv_emit.specs.Linked.{ArePlaced};
ghost use Rattle.spirv_setup.specs.Named.{IsNamed};
ghost use Rattle.spirv_setup.specs.Premises.{IsDeclared};
ghost use Rattle.spirv_setup.specs.Setup.{IsSetUp};
ghost use Rattle.spirv_setup.specs.SharedPlaces.{places_in};
ghost use Rattle.spirv_setup.specs.Unopened.{AreThere};

use binding_map::binding_laws;

/// Where the variables of an emitter that was set up are, for the proofs of callers. It does nothing when it runs.
///
/// In each table with its global variables, rooms are at the places of the map, and shared memory is by the slots that
/// have words, ascending. What a tree of the program names is there before the function is opened for it.
pub fn placed_laws()
    ensures placed { (p : Shader) (bindings : List Binding) (e : Emission) (es : List Entry)
        → IsDeclared p → IsMap bindings → IsSetUp p bindings e → globals_in es ≡ globals_in e.symbols.entries
        → ArePlaced e.frame.context es (places_in p bindings) }
    ensures named { (p : Shader) (bindings : List Binding) (e : Emission) (x : Term)
        → IsDeclared p → IsMap bindings → binding_refusals p bindings ≡ [] → IsSetUp p bindings e
        → IsNamed p bindings x → AreThere e x }
{
    binding_laws();
}
