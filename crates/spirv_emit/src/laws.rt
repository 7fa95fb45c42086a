//! no code: what proofs above may cite
ghost use Rattle.std.specs.Prelude.{ℕ, List, [], ◌++◌};
ghost use Rattle.spirv_words.specs.Text.{Instr};
ghost use Rattle.spirv_emit.specs.Emission.{Emission};
ghost use Rattle.spirv_emit.specs.Growing.{Grows, Completes};
ghost use Rattle.spirv_emit.specs.Lanes.{Site};
ghost use Rattle.spirv_emit.specs.Steps.{Takes, TakesRow};

/// What holds of emitters that grow. It does nothing when it runs.
///
/// Code behind code was added in one. A finished module that completes an emitter completes the emitters in
/// front of it. Ids that were taken add no code.
pub fn emit_laws()
    ensures on { (a b c : Emission) (x y : List Instr) → Grows a b x → Grows b c y → Grows a c (x ++ y) }
    ensures back { (a b : Emission) (x : List Instr) (z : Site) → Grows a b x → Completes b z → Completes a z }
    ensures takes { (a b : Emission) (r : ℕ) → Takes a b r → Grows a b [] }
    ensures takes_row { (a b : Emission) (first count : ℕ) → TakesRow a b first count → Grows a b [] }
{}
