//! no code: what the examples say
ghost use Rattle.tpf_decode.specs.Profiles.{Base};
ghost use Rattle.dispatch_machine.specs.RunExamples.{u0_bound};
ghost use Rattle.translator.specs.Shape.{HasShape};
ghost use Rattle.translator.specs.ShapeExamples.{storing, hiding};

/// A module that stores through a pointer from a struct has not the shape of a program. It does nothing when it runs.
#[tactic(auto, using(crate::proofs::ShapeRefuted::refuted))]
pub fn shape_laws()
    ensures { HasShape Base storing u0_bound hiding → ⊥ }
{}
