ghost use Rattle.std.specs.Prelude.{◌≡◌, ◌⊎◌, ℕ, ◌<◌, List, Some};
ghost use Rattle.tpf_decode.specs.Profiles.{Profile};
ghost use Rattle.tpf_program.specs.declared.instruction.Instruction.{Instruction};
ghost use Rattle.tpf_program.specs.Ends.{close};

/// What holds of the ends that match, for the proofs of callers. It does nothing when it runs.
///
/// Of two constructs the later one closes before the earlier one does, if it opens in it; so they
/// are nested, or the earlier one closes before the later one opens.
#[tactic(auto, using(crate::proofs::Nested::closes_nest, crate::proofs::Nested::apart_or_nested))]
pub fn ends_laws()
    ensures closes_nest { (profile : Profile) (code : List Instruction) (q r c d : ℕ) → q < r
        → close profile code q ≡ Some c → close profile code r ≡ Some d → r < c → d < c }
    ensures apart_or_nested { (profile : Profile) (code : List Instruction) (q r c d : ℕ) → q < r
        → close profile code q ≡ Some c → close profile code r ≡ Some d → (c < r) ⊎ (d < c) }
{}
