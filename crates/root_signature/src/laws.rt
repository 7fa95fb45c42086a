//! no code: what proofs above may cite
ghost use Rattle.std.specs.Prelude.{◌≡◌, ℕ, List};
ghost use Rattle.word_base.specs.declared.rule.Refusal.{Refusal};
ghost use Rattle.dxbc_container.specs.Chunks.{IsSole};
ghost use Rattle.root_signature.specs.declared.covers.Covers.{Covers};
ghost use Rattle.root_signature.specs.Layout.{rts0_tag};
ghost use Rattle.root_signature.specs.Refusals.{IsBroken, IsBrokenIn};
ghost use Rattle.root_signature.specs.Signatures.{Reads};

use dxbc_container::container_laws;

/// What holds of files with root signatures, for the proofs of callers: a file has one list of
/// entries, and the rules of one with a single chunk `RTS0` are those of its data. It does nothing when
/// it runs.
pub fn signature_laws()
    ensures single { (bytes : List ℕ) (a b : List Covers) → Reads bytes a → Reads bytes b → a ≡ b }
    ensures inside { (bytes : List ℕ) (start : ℕ) (content : List ℕ) (r : Refusal) → IsSole bytes rts0_tag start content
        → IsBroken bytes r → IsBrokenIn content r }
    ensures outside { (bytes : List ℕ) (start : ℕ) (content : List ℕ) (r : Refusal) → IsSole bytes rts0_tag start content
        → IsBrokenIn content r → IsBroken bytes r }
{
    container_laws();
}
