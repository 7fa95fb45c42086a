//! no code: what proofs above may cite
ghost use Rattle.std.specs.Prelude.{◌≡◌, ◌++◌, ◌∷◌, [], ℕ, List, IsTrue, false, map};
ghost use Rattle.word_base.specs.declared.event.Event.{Event};
ghost use Rattle.word_base.specs.Lanes.{Makes, NeverWrong, SameLanes};
ghost use Rattle.std.specs.List.{list_all};
ghost use Rattle.spirv_words.specs.Globals.{Places};
ghost use Rattle.spirv_words.specs.Text.{Instr, Module, is_instr};
ghost use Rattle.spirv_words.specs.Definitions.{results, are_distinct};
ghost use Rattle.spirv_words.specs.Lane.{State, step};
ghost use Rattle.shader_tree.specs.Chains.{push};
ghost use Rattle.shader_tree.specs.Shape.{shape};
ghost use Rattle.shader_tree.specs.Terms.{Term};
ghost use Rattle.shader_tree.specs.Values.{Words};
ghost use Rattle.shader_tree.specs.Lane.{State as TreeState, state, step as tree_step};
ghost use Rattle.spirv_symbols.specs.declared.entry.Entry.{Entry};
ghost use Rattle.spirv_symbols.specs.declared.numbered.Numbered.{Numbered};
ghost use Rattle.spirv_symbols.specs.Contexts.{Context};
ghost use Rattle.spirv_symbols.specs.Modules.{Kind, front};
ghost use Rattle.spirv_symbols.specs.ModuleWords.{head};
ghost use Rattle.spirv_emit.specs.Emission.{spaces_of};
ghost use Rattle.spirv_emit.specs.declared.emitter.Emitter.{Emitter as Emission};
ghost use Rattle.spirv_emit.specs.Growing.{Completes};
ghost use Rattle.spirv_emit.specs.Lanes.{Site, HasAt};
ghost use Rattle.spirv_emit.specs.Linked.{IsLinked};
ghost use Rattle.spirv_emit.specs.ModuleShape.{Seen, module_shape};
ghost use Rattle.word_base.specs.Counted.{Counted, at_count, counted};
ghost use Rattle.spirv_flow.specs.GoingBack.{goes_back};
ghost use Rattle.spirv_flow.specs.Layout.{Layout, Placed, code_of, leave};
ghost use Rattle.spirv_flow.specs.Fronts.{IsFront, IsStructured, whole};
ghost use Rattle.spirv_flow.specs.Lowers.{Holds, Lowers};
ghost use Rattle.spirv_flow.specs.Pieces.{HasSingleLabels};
ghost use Rattle.spirv_flow.specs.Shapes.{HasNoItems};

/// What holds of the blocks of a function that are a layout's, where all ids are defined once: they meet
/// the conditions on blocks, merges, branches and the order of switches. It does nothing when it runs.
pub fn layout_laws()
    ensures structured { (front : List Instr) (x : Layout) → IsFront front → Placed x false false
        → IsTrue (are_distinct (results (whole front x))) → IsStructured (whole front x) }
{}

/// What holds of the lane of a finished module that stands in front of a statement's blocks, with the
/// words of the statement's own lane: it makes the same events, ends and spins with it, is never wrong, and
/// goes back as often as the other begins a loop anew. A branch to a label goes to it where all ids are
/// defined once. It does nothing when it runs.
pub fn lane_laws()
    ensures labels { (code : List Instr) → IsTrue (list_all is_instr code) → IsTrue (are_distinct (results code))
        → HasSingleLabels code }
    ensures same { (z : Site) (old new : Emission) (x : Term) (h : Lowers old new 0 0 0 false false x) (s : State) (w : Words)
        → Completes new z → HasSingleLabels z.machine.code
        → HasAt z.machine.code s.place (code_of h.layout 0 0 ++ leave ∷ []) → Holds z old.kept s w
        → NeverWrong (tree_step (spaces_of z.frame) z.machine.setting) (state (push x []) w 0)
        → SameLanes (tree_step (spaces_of z.frame) z.machine.setting) (step z.machine) (state (push x []) w 0) s }
    ensures turns { (z : Site) (old new : Emission) (x : Term) (h : Lowers old new 0 0 0 false false x) (s : State) (w : Words)
        → Completes new z → HasSingleLabels z.machine.code
        → HasAt z.machine.code s.place (code_of h.layout 0 0 ++ leave ∷ []) → Holds z old.kept s w
        → NeverWrong (tree_step (spaces_of z.frame) z.machine.setting) (state (push x []) w 0)
        → (events : List Event) (answers : List ℕ) (u : TreeState) (d : Counted State)
        → Makes (tree_step (spaces_of z.frame) z.machine.setting) (state (push x []) w 0) events answers u
        → Makes (counted (step z.machine) goes_back) (at_count s 0) events answers d → u.turns ≡ d.count }
{}

/// What holds of the items of a module whose function's blocks are a statement's: they are the items of the
/// statement, none of them hidden, where what stands in front of the blocks has none; and that has none in the
/// modules of tables. It does nothing when it runs.
pub fn shape_laws()
    ensures shown { (z : Site) (places : Places) (m : Module) (front : List Instr) (old new : Emission) (x : Term)
        (h : Lowers old new 0 0 0 false false x) → Completes new z → IsLinked z places → HasNoItems front
        → m.code ≡ z.machine.code → z.machine.code ≡ whole front h.layout
        → module_shape m places ≡ map Seen (shape x) }
    ensures front { (c : Context) (kind : Kind) (es : List Entry) (cs : List Numbered)
        → HasNoItems (front c kind es cs ++ head c es) }
{}
