ghost use Rattle.std.specs.Prelude.{◌≡◌, ◌<◌, ◌^◌, ℕ, true, List, [], Some};
ghost use Rattle.text_lines.specs.Parts.{is_word};
ghost use Rattle.tpf_program.specs.Declarations.{declaration_refusals};
ghost use Rattle.tpf_program.specs.Program.{Shader};
ghost use Rattle.binding_map.specs.declared.register.Register.{Register};
ghost use Rattle.binding_map.specs.Bindings.{Binding, IsMap, slot_of};
ghost use Rattle.binding_map.specs.Completeness.{binding_refusals};
ghost use Rattle.binding_map.specs.Defaults.{default_map};
ghost use Rattle.binding_map.specs.Examples.{given, given_map, given_setting};
ghost use Rattle.binding_map.specs.Fits.{Fits};
ghost use Rattle.binding_map.specs.Names.{name_of, register_named, slots_of};
ghost use Rattle.binding_map.specs.Lookups.{LooksUp, FindsEach};

/// What holds of binding maps, for the proofs of callers: a register has a place exactly where it has
/// an entry, each entry of a map is found, and the default map of a program whose declarations break no
/// rule owes no binding. And there is a setting that fits a program with a null u#, the bound counter of
/// it, root constants and a bound constant buffer. It does nothing when it runs.
#[tactic(auto, using(crate::proofs::Inhabited::fits))]
pub fn binding_laws()
    ensures looks_up { (bindings : List Binding) → LooksUp bindings }
    ensures finds_each { (bindings : List Binding) → IsMap bindings → FindsEach bindings }
    ensures given_fits { Fits given given_map given_setting }
    ensures default_bound { (p : Shader) → declaration_refusals 0 p ≡ [] → binding_refusals p (default_map p) ≡ [] }
{}

/// What holds of the names of registers in texts: a register whose slot is below its kind's limit is read again by its
/// name, which is a word, and a register that is read has such a slot. It does nothing when it runs.
pub fn name_laws()
    ensures again { (r : Register) → slot_of r < slots_of r → register_named (name_of r) ≡ Some r }
    ensures word { (r : Register) → slot_of r < 2 ^ 64 → is_word (name_of r) ≡ true }
    ensures bounded { (name : List ℕ) (r : Register) → register_named name ≡ Some r → slot_of r < slots_of r }
{}
