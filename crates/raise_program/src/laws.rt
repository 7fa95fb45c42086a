//! no code: what proofs above may cite
ghost use Rattle.std.specs.Prelude.{◌≡◌, ◌++◌, ◌∷◌, ℕ, ◌+◌, List, None, Some, is_some, length, slice_get, true};
ghost use Rattle.word_base.specs.declared.event.Event.{Event};
ghost use Rattle.word_base.specs.Lanes.{Makes, SameLanes};
ghost use Rattle.word_base.specs.Settings.{Setting};
ghost use Rattle.tpf_decode.specs.Profiles.{Base};
ghost use Rattle.tpf_program.specs.Bytecode.{State as Standing, start, step};
ghost use Rattle.tpf_program.specs.Program.{Shader};
ghost use Rattle.tpf_program.specs.Values.{context};
ghost use Rattle.tpf_program.specs.declared.instruction.Instruction.{Instruction};
ghost use Rattle.tpf_program.specs.Ends.{around, case_of, close, close_around, else_of};
ghost use Rattle.tpf_program.specs.Ends.{is_if, is_loop, is_loop_or_switch};
ghost use Rattle.binding_map.specs.Bindings.{Binding};
ghost use Rattle.binding_map.specs.Fits.{Fits, is_null_in};
ghost use Rattle.shader_check.specs.Checked.{IsChecked as BreaksNoRule};
ghost use Rattle.shader_check.specs.Statements.{If, IfElse, IsNested, IsSound, Loop, Statement, Switch, flattened};
ghost use Rattle.shader_tree.specs.Chains.{Again, Link, left, push, renewed, switched};
ghost use Rattle.shader_tree.specs.Lane.{State as TreeState, start as tree_start, step as tree_step};
ghost use Rattle.shader_tree.specs.Terms.{Term};
ghost use Rattle.shader_tree.specs.Values.{Spaces};
ghost use Rattle.raise_operands.specs.Raises.{IsChecked};
ghost use Rattle.raise_operands.specs.Vectors.{spaces_of};
ghost use Rattle.word_base.specs.Counted.{Counted, at_count, counted};
ghost use Rattle.raise_program.specs.GoingBack.{times_back};
ghost use Rattle.raise_program.specs.Parts.{parts_of};
ghost use Rattle.raise_program.specs.Spots.{Frame, IsSpot, behind, filled, in_front, inside, leave_around};
ghost use Rattle.raise_program.specs.Spots.{loop_around, opening_of, place_in, place_of_label, size, where_in};
ghost use Rattle.raise_program.specs.SpotLane.{Follows, IsMoved, Spot, SpotState, at_place, in_list, left_spot};
ghost use Rattle.raise_program.specs.SpotLane.{moved, place_of, renewed_spot, spot_step, switched_spot, whole_of};
ghost use Rattle.raise_program.specs.Advances.{Advances, Serves, is_control, scalar_at};
ghost use Rattle.raise_program.specs.Raised.{AreUnmarked, Parts, chain_of, chain_of_any, links, raised};

use raise_operands::{program_laws, raisable_laws, raised_laws};
use raise_views::{guardable_laws, guarded_laws};
use shader_check::checked_laws;
use tpf_program::bytecode_laws;

/// Where the instructions of a nested program lead, for the proofs of callers: each place is a sum of
/// how many instructions statements have. It does nothing when it runs.
///
/// A statement in its frames stands in the list behind what is in front of it, and is sound where it
/// stands. A construct closes at its end. An `if` whose test is false goes to its else, or to its end,
/// and an else to the end; a switch goes to the label that its body has for the value; a break to the
/// end of the innermost loop or switch, and a continue to the opening of the innermost loop, as the end
/// of that loop does.
pub fn leap_laws()
    ensures flat { (frames : List Frame) (s : Statement)
        → flattened (filled frames s) ≡ in_front frames ++ (flattened s ++ behind frames) }
    ensures sound { (code : List Instruction) (frames : List Frame) (s : Statement) → IsSpot code frames s
        → IsSound (where_in frames) s }
    ensures reads { (code : List Instruction) (frames : List Frame) (s : Statement) → IsSpot code frames s
        → (k : ℕ) (i : Instruction) → slice_get (flattened s) k ≡ Some i
        → slice_get code (place_in frames + k) ≡ Some i }
    ensures closes { (code : List Instruction) (frames : List Frame) (s : Statement) → IsSpot code frames s
        → (opening : Instruction) → opening_of s ≡ Some opening
        → close Base code (place_in frames) ≡ Some (place_in frames + 1 + length (inside s)) }
    ensures if_goes { (code : List Instruction) (frames : List Frame) (opening : Instruction) (body : Statement)
        (end : Instruction) → IsSpot code frames (If opening body end)
        → else_of Base code (place_in frames) ≡ Some (place_in frames + 1 + size body) }
    ensures choice_goes { (code : List Instruction) (frames : List Frame) (opening : Instruction) (body : Statement)
        (middle : Instruction) (other : Statement) (end : Instruction)
        → IsSpot code frames (IfElse opening body middle other end)
        → else_of Base code (place_in frames) ≡ Some (place_in frames + 1 + size body) }
    ensures else_goes { (code : List Instruction) (frames : List Frame) (opening : Instruction) (body : Statement)
        (middle : Instruction) (other : Statement) (end : Instruction)
        → IsSpot code frames (IfElse opening body middle other end)
        → close_around Base is_if code (place_in frames + 1 + size body)
        ≡ Some (place_in frames + 1 + size body + 1 + size other) }
    ensures switch_goes { (code : List Instruction) (frames : List Frame) (opening : Instruction) (body : Statement)
        (end : Instruction) → IsSpot code frames (Switch opening body end)
        → (w : ℕ) → case_of Base code (place_in frames) w ≡ place_of_label w (place_in frames + 1) body }
    ensures loop_goes { (code : List Instruction) (frames : List Frame) (opening : Instruction) (body : Statement)
        (end : Instruction) → IsSpot code frames (Loop opening body end)
        → around Base is_loop code (place_in frames + 1 + size body) ≡ Some (place_in frames) }
    ensures continue_goes { (code : List Instruction) (frames : List Frame) (s : Statement) → IsSpot code frames s
        → around Base is_loop code (place_in frames) ≡ loop_around frames }
    ensures break_goes { (code : List Instruction) (frames : List Frame) (s : Statement) → IsSpot code frames s
        → close_around Base is_loop_or_switch code (place_in frames) ≡ leave_around frames s }
{}

/// What holds of a lane that stands at the statements of a nested program, for the proofs of callers. It
/// does nothing when it runs.
///
/// Moves lead from a spot to the next at the same place, and to one at which an instruction stands. A
/// step of the lane in the list of instructions is the turn at such a spot; it leads into the same whole,
/// and to a greater place but where the lane goes back, at a continue and at the end of a loop. A break
/// in a loop or switch leads somewhere, and so does a continue in a loop.
pub fn spot_laws()
    ensures stands { (p : Shader) (nested : IsNested p) (frames : List Frame) (s : Statement)
        → filled frames s ≡ nested.front → IsSpot p.instructions frames s }
    ensures moves { (x : Spot) (y : Spot) → moved x ≡ Some y
        → (place_of y ≡ place_of x) × (whole_of y ≡ whole_of x) }
    ensures settles { (x : Spot) → (n : ℕ) × (y : Spot) × IsMoved n x y × (moved y ≡ None) }
    ensures steps { (p : Shader) (nested : IsNested p) (setting : Setting) (x : SpotState)
        → moved x.spot ≡ None → whole_of x.spot ≡ nested.front
        → step Base p setting (at_place x) ≡ in_list (spot_step p setting x) }
    ensures follows { (p : Shader) (setting : Setting) (x : SpotState)
        → Follows (context p setting x.registers) x.spot (spot_step p setting x) }
    ensures breaks { (frames : List Frame) (s : Statement) → (where_in frames).leaves ≡ true
        → is_some (left_spot frames s) ≡ true }
    ensures continues { (frames : List Frame) (s : Statement) → (where_in frames).loops ≡ true
        → is_some (renewed_spot frames s) ≡ true }
{}

/// What is still to be run of the raised tree at the spots of a program, for the proofs of callers. It
/// does nothing when it runs.
///
/// A move keeps it. A break leads to what is to be run behind the construct that it leaves; a continue
/// to the end of the loop's body, which is begun anew; and a switch to what is behind its label.
pub fn chain_laws()
    ensures moves { (parts : Parts) (last : List Link) (x : Spot) (y : Spot) → moved x ≡ Some y
        → chain_of parts last y ≡ chain_of parts last x }
    ensures breaks { (parts : Parts) (last : List Link) (frames : List Frame) (s : Statement) (y : Spot)
        → left_spot frames s ≡ Some y → left (links parts last frames s) ≡ Some (chain_of parts last y) }
    ensures continues { (parts : Parts) (last : List Link) (frames : List Frame) (s : Statement) (y : Spot)
        → renewed_spot frames s ≡ Some y
        → (body : Term) × (k : List Link) × (renewed (links parts last frames s) ≡ Some (Again body ∷ k))
        × (chain_of parts last y ≡ push body (Again body ∷ k)) }
    ensures switches { (parts : Parts) (last : List Link) (w : ℕ) (code : List Instruction) (frames : List Frame)
        (opening : Instruction) (body : Statement) (end : Instruction) → AreUnmarked code parts
        → IsSpot code frames (Switch opening body end)
        → Some (switched w (raised parts body) (links parts last frames (Switch opening body end)))
        ≡ chain_of_any parts last (switched_spot w frames opening body end) }
{}

/// How the lane of a raised tree goes on where the lane of the program goes on by control flow, for the
/// proofs of callers. It does nothing when it runs.
///
/// At a construct, an end, a label, a break, a continue or a return, where an instruction stands: from
/// what is to be run there the tree's lane comes, without an event, to what is to be run at the spot where
/// the program's lane goes, with the same registers, or to its end where that lane ends. It begins a loop
/// anew where that lane goes back, and nowhere else. What is given: that what stands in front of the
/// scalar which the instruction reads leads to its test and its word.
pub fn advance_laws()
    ensures { (p : Shader) (nested : IsNested p) (g : Spaces) (setting : Setting) (parts : Parts) (last : List Link)
        (x : SpotState) (scratch : ℕ → ℕ) (turns : ℕ) → AreUnmarked p.instructions parts
        → is_control x.spot ≡ true → moved x.spot ≡ None → whole_of x.spot ≡ nested.front
        → ((i : Instruction) → scalar_at x.spot ≡ Some i → Serves p g setting parts x.registers i)
        → Advances p g setting parts last x.registers scratch turns x.spot (spot_step p setting x) }
{}

/// What the lane of a program and that of its raised tree have in common, for the proofs of callers. It
/// does nothing when it runs.
///
/// Under each setting that fits the program and its bindings, and under every list of answers, the tree's
/// lane makes the events of the program's lane, ends and spins where that one does, and is never wrong.
/// Between the same events it begins loops anew as often as the program's lane goes back.
pub fn raised_lane_laws()
    ensures same { (p : Shader) (tokens : List ℕ) (bindings : List Binding) (nested : IsNested p) (setting : Setting)
        → IsChecked p tokens → BreaksNoRule p → Fits p bindings setting
        → SameLanes (step Base p setting) (tree_step (spaces_of p) setting) start (tree_start
        (raised (parts_of (is_null_in bindings) p) nested.front)) }
    ensures turns { (p : Shader) (tokens : List ℕ) (bindings : List Binding) (nested : IsNested p) (setting : Setting)
        → IsChecked p tokens → BreaksNoRule p → Fits p bindings setting
        → (events : List Event) (answers : List ℕ) (s : Counted Standing) (t : TreeState)
        → Makes (counted (step Base p setting) times_back) (at_count start 0) events answers s
        → Makes (tree_step (spaces_of p) setting) (tree_start (raised (parts_of (is_null_in bindings) p) nested.front))
        events answers t → s.count ≡ t.turns }
{
    bytecode_laws();
    checked_laws();
    guardable_laws();
    guarded_laws();
    program_laws();
    raisable_laws();
    raised_laws();
}
