//! no code: what proofs above may cite
ghost use Rattle.std.specs.Prelude.{◌≡◌, ◌↔◌, ℕ, ◌<◌, List, [], ◌∷◌, ◌++◌, IsTrue, Some, slice_get};
ghost use Rattle.word_base.specs.declared.event.Event.{Event};
ghost use Rattle.word_base.specs.Lanes.{Turn, Asks, Ends, Wrong, Standing, Goes, MeetsIn, Meets};
ghost use Rattle.word_base.specs.Settings.{Axes, Setting};
ghost use Rattle.tpf_decode.specs.Profiles.{Base};
ghost use Rattle.tpf_program.specs.declared.instruction.Instruction.{Instruction};
ghost use Rattle.tpf_program.specs.Bytecode as bytecode;
ghost use Rattle.tpf_program.specs.Bytecode.{State};
ghost use Rattle.tpf_program.specs.Declarations.{threads_in};
ghost use Rattle.tpf_program.specs.Holding.{AreOfWords, IsProgramOfWords};
ghost use Rattle.tpf_program.specs.Program.{Shader};
ghost use Rattle.spirv_words.specs.Globals.{Places};
ghost use Rattle.spirv_words.specs.Lane as lane;
ghost use Rattle.spirv_words.specs.Smallest.{smallest};
ghost use Rattle.spirv_words.specs.Text.{Module};
ghost use Rattle.binding_map.specs.Bindings.{Binding};
ghost use Rattle.binding_map.specs.Examples.{given, given_map};
ghost use Rattle.binding_map.specs.Fits.{Fits};
ghost use Rattle.dispatch_machine.specs.declared.lane.Next.TheVariants as next;
ghost use Rattle.dispatch_machine.specs.declared.lane.Strict.{Strict};
ghost use Rattle.dispatch_machine.specs.BufferExamples.{one_buffer, b0_bound, b0_pushed, with_buffer};
ghost use Rattle.dispatch_machine.specs.Dispatch.{Dispatch, Shares, IsDispatch};
ghost use Rattle.dispatch_machine.specs.Lane.{Position, At, behind, found, go, go_from};
ghost use Rattle.dispatch_machine.specs.NullExamples.{with_null};
ghost use Rattle.dispatch_machine.specs.RunExamples.{summing, one_group, in_turns, returns, run_by, u0_bound};
ghost use Rattle.dispatch_machine.specs.Runs.{Machine, HasValue, Leads};
ghost use Rattle.dispatch_machine.specs.SameRuns.{FollowsIn, SameRuns, ProgramRuns, ModuleRuns};
ghost use Rattle.dispatch_machine.specs.WrongExamples.{loud_in};

use crate::lane::Lane;
use binding_map::binding_laws;
use tpf_program::bytecode_laws;
use word_base::result_laws;

/// What holds of runs over picks, for the proofs of callers. It does nothing when it runs.
///
/// A run over two lists of picks is the run over one and then the other; a lane that waits or has
/// ended makes nothing.
#[tactic(auto, using(crate::proofs::Picks::join, crate::proofs::Picks::split, crate::proofs::Picks::idle))]
pub fn run_laws()
    ensures join { (m : Machine Shares) (step : ℕ → State → Turn State) (at : ℕ → State) (c : Shares) (picks more : List ℕ) (at' : ℕ → State) (c' value : Shares)
        → Leads m step at c picks at' c' → HasValue m step at' c' more value → HasValue m step at c (picks ++ more) value }
    ensures split { (m : Machine Shares) (step : ℕ → State → Turn State) (at : ℕ → State) (c : Shares) (picks more : List ℕ) (value : Shares)
        → HasValue m step at c (picks ++ more) value → (at' : ℕ → State) × (c' : Shares) × Leads m step at c picks at' c' × HasValue m step at' c' more value }
    ensures idle { (m : Machine Shares) (step : ℕ → State → Turn State) (at : ℕ → State) (c : Shares) (lane : ℕ) (picks : List ℕ) (value : Shares)
        → IsTrue (m.is_idle c lane) → HasValue m step at c (lane ∷ picks) value → HasValue m step at c picks value }
{}

/// What holds of whole dispatches, for the proofs of callers. It does nothing when it runs.
///
/// A program that returns at once has the runs of the module that does, under every dispatch and
/// list of picks; there is a dispatch of another program whose run has a value, one with a constant
/// buffer, at a descriptor or in push constants, and one with a null view beside its bound counter.
#[tactic(auto, using(crate::proofs::Summed::is_dispatch, crate::proofs::Buffered::at_descriptor, crate::proofs::Buffered::in_push_words, crate::proofs::Nulled::is_dispatch))]
pub fn dispatch_laws()
    ensures same { (x y z : ℕ) (p : Shader) (bindings : List Binding) (i : Instruction) → p.instructions ≡ i ∷ [] → IsTrue (returns i) → SameRuns Base p bindings (smallest 0x00010300 x y z) }
    ensures at_descriptor { IsDispatch (threads_in one_buffer.declarations) (Fits one_buffer b0_bound) with_buffer }
    ensures in_push_words { IsDispatch (threads_in one_buffer.declarations) (Fits one_buffer b0_pushed) with_buffer }
    ensures with_null { IsDispatch (threads_in given.declarations) (Fits given given_map) with_null }
    ensures dispatch { IsDispatch (threads_in summing.declarations) (Fits summing u0_bound) one_group }
    ensures run { (value : Shares) × ProgramRuns Base summing one_group in_turns value }
{
    binding_laws();
}

/// What turns and runs that are found by computation say of lanes and dispatches, for the examples.
/// It does nothing when it runs.
#[tactic(auto)]
pub fn example_laws()
    ensures turn { (m : Module) (places : Places) (setting : Setting) (n : ℕ) (turn : Turn (Standing lane.State))
        → loud_in n (lane.lane m places setting) (lane.start m places setting) ≡ Some turn → Meets (lane.lane m places setting) (lane.start m places setting) turn }
    ensures module_run { (threads : Axes) (places : Places) (m : Module) (d : Dispatch) (n : ℕ) (picks : List ℕ) (value : Shares)
        → run_by threads (lane.lane m places) (lane.start m places) d n picks ≡ Some value → ModuleRuns threads places m d picks value }
    ensures program_run { (p : Shader) (d : Dispatch) (n : ℕ) (picks : List ℕ) (value : Shares)
        → run_by (threads_in p.declarations) (bytecode.step Base p) (λ setting. bytecode.start) d n picks ≡ Some value → ProgramRuns Base p d picks value }
{}

/// Where the lanes of a program and of a module are the same under every setting that fits, their
/// runs are, for the proofs of callers. It does nothing when it runs.
pub fn same_laws()
    ensures { (p : Shader) (bindings : List Binding) (m : Module) → IsProgramOfWords p
        → ((n : ℕ) (i : Instruction) → slice_get p.instructions n ≡ Some i → AreOfWords i)
        → ((setting : Setting) → Fits p bindings setting → FollowsIn Base p bindings m setting)
        → SameRuns Base p bindings m }
{
    bytecode_laws();
    result_laws();
}

/// What `next` of a lane finds, in the words of steps and turns, for the proofs of callers. It does
/// nothing when it runs.
///
/// It finds an event, an end or a broken rule exactly where the lane takes that turn behind that many
/// silent steps, fewer than the fuel, and nothing exactly where as many silent steps as the fuel lead
/// on. Behind an end or a broken rule it finds the same again, with no step.
pub fn lane_laws<L: Lane>()
    ensures event { (step : L.State → Turn L.State) (fuel k : ℕ) (s : L.State) (e : Event) (at : Position L.State)
        → ((go step fuel s ≡ found (next.Event e) k at)
        ↔ ((k < fuel) × ((after : ℕ → L.State) × MeetsIn step k s (Asks e after) × (at ≡ behind e after)))) }
    ensures ended { (step : L.State → Turn L.State) (fuel k : ℕ) (s : L.State) (at : Position L.State)
        → ((go step fuel s ≡ found next.Ended k at)
        ↔ ((k < fuel) × ((t : L.State) × Goes step k s t × (step t ≡ Ends) × (at ≡ At t)))) }
    ensures wrong { (step : L.State → Turn L.State) (fuel k : ℕ) (s : L.State) (w : Strict) (at : Position L.State)
        → ((go step fuel s ≡ found (next.Wrong w) k at)
        ↔ ((k < fuel) × ((t : L.State) × Goes step k s t × (step t ≡ Wrong w.place w.rule) × (at ≡ At t)))) }
    ensures spinning { (step : L.State → Turn L.State) (fuel k : ℕ) (s : L.State) (at : Position L.State)
        → ((go step fuel s ≡ found next.Spinning k at)
        ↔ ((k ≡ fuel) × ((t : L.State) × Goes step fuel s t × (at ≡ At t)))) }
    ensures ended_again { (step : L.State → Turn L.State) (fuel k more : ℕ) (s : L.State) (at : Position L.State)
        → go step fuel s ≡ found next.Ended k at → 0 < more → go_from step more at ≡ found next.Ended 0 at }
    ensures wrong_again { (step : L.State → Turn L.State) (fuel k more : ℕ) (s : L.State) (w : Strict)
        (at : Position L.State) → go step fuel s ≡ found (next.Wrong w) k at → 0 < more
        → go_from step more at ≡ found (next.Wrong w) 0 at }
{}
