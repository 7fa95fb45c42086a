ghost use Rattle.std.specs.Prelude.{◌≡◌, ℕ, List, [], ◌++◌, Some, IsTrue, slice_get};
ghost use Rattle.std.specs.List.{list_all};
ghost use Rattle.spirv_words.specs.Operations.{Op, op_of, number_of};
ghost use Rattle.spirv_words.specs.Text.{Instr, Module, IsTextOf, is_instr, is_version, words_of_code};
ghost use Rattle.spirv_words.specs.Smallest.{smallest};
ghost use Rattle.spirv_words.specs.Operands.{is_sorted, is_defined};
ghost use Rattle.spirv_words.specs.Globals.{Machine};
ghost use Rattle.spirv_words.specs.Lane.{State, step, act_of_op};
ghost use Rattle.word_base.specs.Settings.{Axes, axes};
ghost use Rattle.spirv_words.specs.Variables.{Wanted, nothing_wanted};
ghost use Rattle.spirv_words.specs.Broken.{broken_in};
ghost use Rattle.spirv_words.specs.Definitions.{has_sorts, has_single_definitions};
ghost use Rattle.spirv_words.specs.Form.{Form};

/// What holds of the numbers of instructions, for the proofs of callers. It does nothing when it
/// runs.
#[tactic(auto, using(crate::proofs::Numbers::op_again, crate::proofs::Numbers::found))]
pub fn number_laws()
    ensures again { (op : Op) → op_of (number_of op) ≡ Some op }
    ensures found { (n : ℕ) (op : Op) → op_of n ≡ Some op → number_of op ≡ n }
{}

/// What holds of the words of instructions, for the proofs of callers. It does nothing when it
/// runs.
#[tactic(auto, using(crate::proofs::Texts::append, crate::proofs::Texts::determined))]
pub fn text_laws()
    ensures append { (xs ys : List Instr) → words_of_code (xs ++ ys) ≡ words_of_code xs ++ words_of_code ys }
    ensures determined { (m n : Module) (words : List ℕ) → IsTextOf m words → IsTextOf n words → m ≡ n }
{}

/// What holds of a lane's steps, for the proofs of callers. It does nothing when it runs.
#[tactic(auto, using(crate::proofs::Steps::sorted))]
pub fn lane_laws()
    ensures sorted { (m : Machine) (s : State) (i : Instr) → slice_get m.code s.place ≡ Some i →
        IsTrue (is_sorted m.code i) → IsTrue (is_defined m.code i) → step m s ≡ act_of_op m s (op_of i.op) i.operands }
{}

/// What holds of modules with the form, for the proofs of callers: no instruction breaks the first
/// two strict rules by its operands' sorts or definitions, and the form is that no condition is
/// broken. It does nothing when it runs.
#[tactic(auto, using(crate::proofs::Typed::sorted, crate::proofs::Typed::defined, crate::proofs::Formed::whole, crate::proofs::Formed::back))]
pub fn form_laws()
    ensures sorted { (code : List Instr) (k : ℕ) (i : Instr) →
        IsTrue (has_sorts code) → slice_get code k ≡ Some i → IsTrue (is_sorted code i) }
    ensures defined { (bound : ℕ) (code : List Instr) (k : ℕ) (i : Instr) →
        IsTrue (has_single_definitions bound code) → slice_get code k ≡ Some i → IsTrue (is_defined code i) }
    ensures whole { (version : ℕ) (threads : Axes) (wanted : Wanted) (m : Module) →
        broken_in version threads wanted m ≡ [] → Form version threads wanted m }
    ensures back { (version : ℕ) (threads : Axes) (wanted : Wanted) (m : Module) →
        Form version threads wanted m → broken_in version threads wanted m ≡ [] }
{}

/// What holds of the smallest module, for the proofs of callers. It does nothing when it runs.
#[tactic(auto, using(crate::proofs::Small::form))]
pub fn smallest_laws()
    ensures form { (version x y z : ℕ) → IsTrue (is_version version) →
        Form version (axes x y z) nothing_wanted (smallest version x y z) }
    ensures instructions { (version x y z : ℕ) → IsTrue (list_all is_instr (smallest version x y z).code) }
{}
