//! no code: what proofs above may cite
ghost use Rattle.std.specs.Prelude.{◌≡◌, ℕ, ◌+◌, ◌<◌, ◌^◌, Bool, if◌then◌else◌, List, [], ◌∷◌, ◌++◌, Some, IsTrue, slice_get};
ghost use Rattle.word_base.specs.declared.event.Act.{Act};
ghost use Rattle.word_base.specs.declared.event.Event.{Event};
ghost use Rattle.word_base.specs.declared.event.Event.TheVariants as event;
ghost use Rattle.word_base.specs.declared.event.Room.{Room};
ghost use Rattle.word_base.specs.Lanes.{Silent, Asks};
ghost use Rattle.word_base.specs.Registers.{Registers};
ghost use Rattle.word_base.specs.Settings.{Setting};
ghost use Rattle.shader_tree.specs.declared.node.Node.{Node};
ghost use Rattle.shader_tree.specs.declared.node.Space.{Space};
ghost use Rattle.shader_tree.specs.Chains.{Link, Run, push, flattened, switched};
ghost use Rattle.shader_tree.specs.Costs.{words_in, ids_in, node_cost, sum_over};
ghost use Rattle.shader_tree.specs.Holding.{AreGiven, HoldWords, OfWords, IsOfWords, Keeps};
ghost use Rattle.shader_tree.specs.Lane.{State, state, with_scratch, with_word, second_operand, step};
ghost use Rattle.shader_tree.specs.Nodes.{Sort, named, are_nodes, are_short};
ghost use Rattle.shader_tree.specs.Plans.{Performs};
ghost use Rattle.shader_tree.specs.Reads.{Sight, SameFor};
ghost use Rattle.shader_tree.specs.Terms.{Term, Set, Write, Load, Store, Atomic, Guard, If, Switch, Then, Nothing, term_at, term_by, Stands, Extends, Makes};
ghost use Rattle.shader_tree.specs.Values.{Spaces, Words, words, word, truth, size_of, value};

use word_base::result_laws;

/// What holds of nodes and their terms. It does nothing when it runs.
///
/// In a list whose nodes name earlier ones, the term of an id is that of its node, and nodes that are
/// added at the end change no term. What was added in several steps was added in one, and what was made
/// by some of them stays.
pub fn node_laws()
    ensures stands { (nodes : List Node) (id : ℕ) (n : Node)
        → IsTrue (are_nodes nodes) → slice_get nodes id ≡ Some n → Stands nodes id n }
    ensures extends { (old more : List Node) → IsTrue (are_nodes old) → Extends old (old ++ more) }
    ensures itself { (nodes : List Node) → Extends nodes nodes }
    ensures on { (a b c : List Node) → Extends a b → Extends b c → Extends a c }
    ensures makes_on { (a b c : List Node) (sort : Sort) (id : ℕ) (t : Term)
        → Makes a b sort id t → Extends b c → Makes a c sort id t }
    ensures makes_after { (a b c : List Node) (sort : Sort) (id : ℕ) (t : Term)
        → Extends a b → Makes b c sort id t → Makes a c sort id t }
{}

/// What holds of chains: a statement in front of a chain is its statements one by one, so a chain is its
/// flattening. It does nothing when it runs.
pub fn chain_laws()
    ensures flattened { (t : Term) (k : List Link) → push t k ≡ flattened t ++ k }
    ensures behind { (t : Term) (k l : List Link) → push t (k ++ l) ≡ push t k ++ l }
{}

/// The value of an expression depends on what it reads alone. It does nothing when it runs.
pub fn value_laws()
    ensures { (a b : Sight) (e : Term) → SameFor a b e
        → value a.spaces a.setting a.words e ≡ value b.spaces b.setting b.words e }
{}

/// The step of each statement whose parts have values. It does nothing when it runs.
pub fn step_laws()
    ensures set { (g : Spaces) (s : Setting) (k : List Link) (t : Words) (n m : ℕ) (v : Term) (w : ℕ)
        → value g s t v ≡ word w → step g s (state (Run (Set m v) ∷ k) t n) ≡ Silent (state k (with_scratch t m w) n) }
    ensures write { (g : Spaces) (s : Setting) (k : List Link) (t : Words) (n : ℕ) (place : Space) (x v : Term) (i w : ℕ)
        (r : Registers)
        → value g s t x ≡ word i → value g s t v ≡ word w → i < size_of g place
        → with_word t.registers place i w ≡ Some r
        → step g s (state (Run (Write place x v) ∷ k) t n) ≡ Silent (state k (words t.scratch r) n) }
    ensures load { (g : Spaces) (s : Setting) (k : List Link) (t : Words) (n m : ℕ) (room : Room) (x : Term) (i : ℕ)
        → value g s t x ≡ word i → i < s.extent room
        → step g s (state (Run (Load m room x) ∷ k) t n)
        ≡ Asks (event.Load room i) (λ answer. state k (with_scratch t m answer) n) }
    ensures store { (g : Spaces) (s : Setting) (k : List Link) (t : Words) (n : ℕ) (room : Room) (x v : Term) (i w : ℕ)
        → value g s t x ≡ word i → value g s t v ≡ word w → i < s.extent room
        → step g s (state (Run (Store room x v) ∷ k) t n) ≡ Asks (event.Store room i w) (λ answer. state k t n) }
    ensures atomic { (g : Spaces) (s : Setting) (k : List Link) (t : Words) (n m : ℕ) (room : Room) (x : Term) (kind : Act)
        (a b : Term) (i y z : ℕ) → value g s t x ≡ word i → value g s t a ≡ word y → value g s t b ≡ word z
        → i < s.extent room
        → step g s (state (Run (Atomic m room x kind a b) ∷ k) t n)
        ≡ Asks (event.Atomic room i kind y (second_operand kind z)) (λ answer. state k (with_scratch t m answer) n) }
    ensures guard { (g : Spaces) (s : Setting) (k : List Link) (t : Words) (n : ℕ) (b body : Term) (holds : Bool)
        → value g s t b ≡ truth holds
        → step g s (state (Run (Guard b body) ∷ k) t n) ≡ Silent (state (if holds then push body k else k) t n) }
    ensures choice { (g : Spaces) (s : Setting) (k : List Link) (t : Words) (n : ℕ) (b x y : Term) (holds : Bool)
        → value g s t b ≡ truth holds
        → step g s (state (Run (If b x y) ∷ k) t n) ≡ Silent (state (if holds then push x k else push y k) t n) }
    ensures switch { (g : Spaces) (s : Setting) (k : List Link) (t : Words) (n : ℕ) (on cases : Term) (w : ℕ)
        → value g s t on ≡ word w
        → step g s (state (Run (Switch on cases) ∷ k) t n) ≡ Silent (state (switched w cases k) t n) }
{}

/// What holds of words: where the literals of nodes are words, so are those of their terms; from words the
/// value of an expression is a word, and a step leads to words again. It does nothing when it runs.
pub fn word_laws()
    ensures literals { (nodes : List Node) (id : ℕ) → IsTrue (are_short nodes) → OfWords (term_at nodes id) }
    ensures value { (g : Spaces) (s : Setting) (t : Words) (e : Term) (w : ℕ)
        → AreGiven g s → HoldWords t → OfWords e → value g s t e ≡ word w → w < 2 ^ 32 }
    ensures step { (g : Spaces) (s : Setting) (x : State) → AreGiven g s → IsOfWords x → Keeps (step g s x) }
{
    result_laws();
}

/// The numbers of a node's term are its own and those of what it names. It does nothing when it runs.
pub fn cost_laws()
    ensures words { (f : ℕ → Term) (n : Node)
        → words_in (term_by f n) ≡ (node_cost n).words + sum_over (λ id. words_in (f id)) (named n) }
    ensures ids { (f : ℕ → Term) (n : Node)
        → ids_in (term_by f n) ≡ (node_cost n).ids + sum_over (λ id. ids_in (f id)) (named n) }
{}

/// What statements do one after the other, where one of them makes no event. It does nothing when it
/// runs.
pub fn plan_laws()
    ensures nothing { (g : Spaces) (s : Setting) (r : Registers) → Performs g s Nothing r [] (λ answers. r) }
    ensures first { (g : Spaces) (s : Setting) (a b : Term) (r q : Registers) (es : List Event)
        (to : List ℕ → Registers)
        → Performs g s a r [] (λ answers. q) → Performs g s b q es to → Performs g s (Then a b) r es to }
    ensures last { (g : Spaces) (s : Setting) (a b : Term) (r : Registers) (es : List Event)
        (mid to : List ℕ → Registers)
        → Performs g s a r es mid → ((answers : List ℕ) → Performs g s b (mid answers) [] (λ none. to answers))
        → Performs g s (Then a b) r es to }
{}
