//! no code: what proofs above may cite
ghost use Rattle.std.specs.Prelude.{◌≡◌, ℕ, ◌+◌, ◌*◌, ◌<◌, ◌≤◌, ◌⊎◌, List, [], ◌∷◌, ◌++◌, length, nat_eq, option_and_then, position, slice_get, Some, true, IsTrue};
ghost use Rattle.std.specs.List.{list_all};
ghost use Rattle.word_base.specs.Settings.{Setting};
ghost use Rattle.word_base.specs.declared.event.Room.TheVariants.{Shared};
ghost use Rattle.spirv_words.specs.Decoration.{ArrayStride, Binding, DescriptorSet, Offset};
ghost use Rattle.spirv_words.specs.Operations.{OpFunctionEnd};
ghost use Rattle.spirv_words.specs.Text.{Instr, instruction, is_instr, words_of_code, words_of_instr};
ghost use Rattle.spirv_words.specs.Ids.{type_of};
ghost use Rattle.spirv_words.specs.Sorts.{sort_of};
ghost use Rattle.spirv_words.specs.Globals.{Places, decoration, member_decoration, workgroup_ids};
ghost use Rattle.spirv_words.specs.Lane.{is_glsl, machine};
ghost use Rattle.spirv_words.specs.Operands.{is_sorted};
ghost use Rattle.spirv_words.specs.Definitions.{has_single_definitions, has_distinct_types, has_sorts};
ghost use Rattle.spirv_words.specs.Sections.{has_sections, has_interface};
ghost use Rattle.spirv_words.specs.Variables.{is_variable_well, has_variables};
ghost use Rattle.spirv_symbols.specs.declared.symbol.Access.{Access};
ghost use Rattle.spirv_symbols.specs.declared.symbol.TypeSymbol.{TypeSymbol};
ghost use Rattle.spirv_symbols.specs.declared.symbol.Symbol.{Symbol};
ghost use Rattle.spirv_symbols.specs.declared.symbol.Symbol.TheVariants.{AType, Import, Memory};
ghost use Rattle.spirv_symbols.specs.declared.row.Marks.TheVariants.{Stride, Block, Bound};
ghost use Rattle.spirv_symbols.specs.declared.numbered.Numbered.{Numbered};
ghost use Rattle.spirv_symbols.specs.Contexts.{Context, IsSmall};
ghost use Rattle.spirv_symbols.specs.Rows.{row_of, needs};
ghost use Rattle.spirv_symbols.specs.Sorted.{Defines, id_of_type, sort_for, value_type};
ghost use Rattle.spirv_symbols.specs.declared.symbol.Section.{Section};
ghost use Rattle.spirv_symbols.specs.Sections.{section_code, decorations_of};
ghost use Rattle.spirv_symbols.specs.Orders.{Sorts};
ghost use Rattle.spirv_symbols.specs.Modules.{Kind, IsReady, IsBody, HasIds, front, interface, module_code, module_of};
ghost use Rattle.spirv_symbols.specs.ModuleWords.{head};
ghost use Rattle.spirv_symbols.specs.Starts.{AreFound, Starts, shared_slots};
ghost use Rattle.spirv_symbols.specs.Wants.{HasPlaces, wanted_of};
ghost use Rattle.spirv_symbols.specs.Tables.{Table, Entry, Has, AreThere, Stands, Extends, Takes, empty_table, id_of, weight};

/// What holds of the ids of every table, for the proofs of callers: a symbol has one id and an id one
/// symbol, they are above 0 and below the first free one, and what a symbol needs has lower ones. It does
/// nothing when it runs.
#[tactic(auto, using(crate::proofs::Ids::one_of, crate::proofs::Ids::symbol_of, crate::proofs::Ids::id_found, crate::proofs::Ids::bounds, crate::proofs::Ids::needs_there, crate::proofs::Ids::number, crate::proofs::Ids::none))]
pub fn id_laws()
    ensures single { (c : Context) (t : Table) (s : Symbol) (x y : ℕ) → Stands c t → Has t.entries s x
        → Has t.entries s y → x ≡ y }
    ensures apart { (c : Context) (t : Table) (s u : Symbol) (x : ℕ) → Stands c t → Has t.entries s x
        → Has t.entries u x → s ≡ u }
    ensures found { (c : Context) (t : Table) (s : Symbol) (x : ℕ) → Stands c t → Has t.entries s x
        → id_of t.entries s ≡ x }
    ensures bounds { (c : Context) (t : Table) (s : Symbol) (x : ℕ) → Stands c t → Has t.entries s x
        → (0 < x) × (x < t.next) }
    ensures founded { (c : Context) (t : Table) (s : Symbol) (x : ℕ) → Stands c t → Has t.entries s x
        → AreThere t.entries (needs c s) x }
    ensures few { (c : Context) (t : Table) → Stands c t → length t.entries < t.next }
    ensures empty { (c : Context) (limit : ℕ) → Stands c (empty_table limit) }
{}

/// What holds of tables that grow, for the proofs of callers: symbols keep their ids, and further ones have
/// new ids. It does nothing when it runs.
#[tactic(auto, using(crate::proofs::Growing::has_on, crate::proofs::Ids::later, crate::proofs::Needs::extends_on, crate::proofs::Growing::stays, crate::proofs::Ids::taken))]
pub fn growth_laws()
    ensures kept { (old new : Table) (s : Symbol) (x : ℕ) → Extends old new → Has old.entries s x
        → Has new.entries s x }
    ensures later { (old new : Table) (s : Symbol) (x : ℕ) → Extends old new → Has new.entries s x
        → Has old.entries s x ⊎ (old.next ≤ x) }
    ensures on { (a b c : Table) → Extends a b → Extends b c → Extends a c }
    ensures itself { (t : Table) → Extends t t }
    ensures taken { (c : Context) (a b : Table) (r : ℕ) → Takes a b r → Stands c a → Stands c b × Extends a b }
{}

/// What holds of the code of a module, for the proofs of callers: it defines the ids of symbols by their
/// instructions, its types have their sorts, its values their types, its blocks and arrays their layouts.
/// It does nothing when it runs.
#[tactic(auto, using(crate::proofs::StartsWhole::defines, crate::proofs::ModuleFacts::sorts, crate::proofs::ModuleFacts::types, crate::proofs::ModuleFacts::imports, crate::proofs::ModuleFacts::strides, crate::proofs::ModuleFacts::offsets))]
pub fn module_laws()
    ensures defines { (c : Context) (kind : Kind) (t : Table) (cs : List Numbered) (body : List Instr)
        → IsReady c t cs → IsBody body → Defines c t.entries (module_code c kind t.entries cs body) }
    ensures sorts { (c : Context) (t : Table) (code : List Instr) (y : TypeSymbol) (x : ℕ) → Stands c t
        → Defines c t.entries code → Has t.entries (AType y) x → sort_of code x ≡ sort_for (id_of_type t.entries) y }
    ensures types { (c : Context) (t : Table) (code : List Instr) (s : Symbol) (y : TypeSymbol) (x : ℕ)
        → Stands c t → Defines c t.entries code → Has t.entries s x → value_type c s ≡ Some y
        → type_of code x ≡ Some (id_of_type t.entries y) }
    ensures imports { (c : Context) (t : Table) (code : List Instr) (x : ℕ) → Stands c t → Defines c t.entries code
        → Has t.entries Import x → is_glsl code x ≡ true }
    ensures strides { (c : Context) (kind : Kind) (t : Table) (cs : List Numbered) (body : List Instr) (s : Symbol)
        (x bytes : ℕ) → IsReady c t cs → IsBody body → Has t.entries s x → (row_of c s).marks ≡ Stride bytes
        → decoration (module_code c kind t.entries cs body) x ArrayStride ≡ Some bytes }
    ensures offsets { (c : Context) (kind : Kind) (t : Table) (cs : List Numbered) (body : List Instr) (s : Symbol)
        (x : ℕ) (access : Access) → IsReady c t cs → IsBody body → Has t.entries s x
        → (row_of c s).marks ≡ Block access
        → member_decoration (module_code c kind t.entries cs body) x 0 Offset ≡ Some 0 }
{}

/// What holds of the variables of rooms in a module, for the proofs of callers: those that are bound have
/// their set and binding, and those of shared memory stand in the order of the table. It does nothing when it
/// runs.
#[tactic(auto, using(crate::proofs::RoomFacts::sets, crate::proofs::RoomFacts::bindings))]
pub fn room_laws()
    ensures set { (c : Context) (kind : Kind) (t : Table) (cs : List Numbered) (body : List Instr) (s : Symbol)
        (x set binding : ℕ) → IsReady c t cs → IsBody body → Has t.entries s x → (row_of c s).marks ≡ Bound set binding
        → decoration (module_code c kind t.entries cs body) x DescriptorSet ≡ Some set }
    ensures binding { (c : Context) (kind : Kind) (t : Table) (cs : List Numbered) (body : List Instr) (s : Symbol)
        (x set binding : ℕ) → IsReady c t cs → IsBody body → Has t.entries s x → (row_of c s).marks ≡ Bound set binding
        → decoration (module_code c kind t.entries cs body) x Binding ≡ Some binding }
    ensures slot { (c : Context) (kind : Kind) (t : Table) (cs : List Numbered) (body : List Instr) (slot x : ℕ)
        → IsReady c t cs → IsBody body → Has t.entries (Memory (Shared slot)) x
        → option_and_then (slice_get (shared_slots t.entries))
        (position (nat_eq x) (workgroup_ids (module_code c kind t.entries cs body))) ≡ Some slot }
{}

/// What holds of the lane of a module at its start, for the proofs of callers: it comes to the code of the
/// function, knows all symbols, and the function's variables have their initial words. It does nothing when
/// it runs.
#[tactic(auto, using(crate::proofs::StartsWhole::starts))]
pub fn start_laws()
    ensures { (c : Context) (kind : Kind) (t : Table) (cs : List Numbered) (body : List Instr) (bound : ℕ) (places :
        Places) (setting : Setting) → IsReady c t cs → IsBody body
        → AreFound c t.entries (machine (module_of c kind t.entries cs body bound) places setting)
        → Starts c t.entries (module_of c kind t.entries cs body bound) places setting (body
        ++ instruction OpFunctionEnd [] ∷ []) }
{}

/// What holds of the form of a module, for the proofs of callers: its sections, definitions, types, sorts,
/// variables and interface, where its body does its part. It does nothing when it runs.
#[tactic(auto, using(crate::proofs::FormSections::sections_hold, crate::proofs::FormWhole::single_holds, crate::proofs::FormTypes::types_hold, crate::proofs::FormAll::sorts_hold, crate::proofs::FormLocals::variables_hold, crate::proofs::Interfaces::interface_holds, crate::proofs::FormInstrs::instrs_hold))]
pub fn form_laws()
    ensures sections { (c : Context) (kind : Kind) (t : Table) (cs : List Numbered) (body : List Instr)
        → IsReady c t cs → IsBody body → IsTrue (has_sections kind.threads (module_code c kind t.entries cs body)) }
    ensures single { (c : Context) (kind : Kind) (t : Table) (cs : List Numbered) (body : List Instr) (bound : ℕ)
        → IsReady c t cs → HasIds t bound body
        → IsTrue (has_single_definitions bound (module_code c kind t.entries cs body)) }
    ensures types { (c : Context) (kind : Kind) (t : Table) (cs : List Numbered) (body : List Instr)
        → IsReady c t cs → IsBody body → IsTrue (has_distinct_types (module_code c kind t.entries cs body)) }
    ensures sorts { (c : Context) (kind : Kind) (t : Table) (cs : List Numbered) (body : List Instr)
        → IsReady c t cs → IsBody body → IsTrue (list_all (is_sorted (module_code c kind t.entries cs body)) body)
        → IsTrue (has_sorts (module_code c kind t.entries cs body)) }
    ensures variables { (c : Context) (kind : Kind) (t : Table) (cs : List Numbered) (body : List Instr)
        → IsReady c t cs → IsBody body → HasPlaces c t.entries
        → IsTrue (list_all (is_variable_well (module_code c kind t.entries cs body)) body)
        → IsTrue (has_variables (wanted_of c t.entries) (module_code c kind t.entries cs body)) }
    ensures interface { (c : Context) (kind : Kind) (t : Table) (cs : List Numbered) (body : List Instr)
        → IsReady c t cs → IsBody body → IsTrue (has_interface kind.version (module_code c kind t.entries cs body)) }
    ensures instructions { (c : Context) (kind : Kind) (t : Table) (cs : List Numbered) (body : List Instr)
        → IsReady c t cs → IsSmall c → length (interface kind.version t.entries) < 65000
        → IsTrue (list_all is_instr body) → IsTrue (list_all is_instr (module_code c kind t.entries cs body)) }
{}

/// How many words are written for the symbols of a table, for the proofs of callers. It does nothing when it
/// runs.
#[tactic(auto, using(crate::proofs::Lengths::section_short, crate::proofs::Lengths::constants_short, crate::proofs::Lengths::decorations_short, crate::proofs::Lengths::module_long, crate::proofs::Lengths::module_words))]
pub fn length_laws()
    ensures section { (c : Context) (es : List Entry) (section : Section)
        → length (words_of_code (section_code c section es)) ≤ weight c es }
    ensures constants { (c : Context) (t : Table) (cs : List Numbered) → Stands c t → Sorts t.entries cs
        → 4 * length cs ≤ weight c t.entries }
    ensures decorations { (c : Context) (es : List Entry) → length (words_of_code (decorations_of c es)) ≤ weight c es }
    ensures words { (c : Context) (kind : Kind) (t : Table) (cs : List Numbered) (body : List Instr)
        → IsReady c t cs → length (words_of_code (module_code c kind t.entries cs body))
        ≡ weight c t.entries + length (interface kind.version t.entries) + length (words_of_code body) + 17 }
    ensures pieces { (c : Context) (kind : Kind) (es : List Entry) (cs : List Numbered) (body : List Instr)
        → words_of_code (module_code c kind es cs body)
        ≡ words_of_code (front c kind es cs) ++ (words_of_code (head c es)
        ++ (words_of_code body ++ words_of_instr (instruction OpFunctionEnd []))) }
{}
