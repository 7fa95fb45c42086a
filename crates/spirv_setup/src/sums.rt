//! What is declared costs no more than the words of a program pay for.
ghost use Rattle.std.specs.Prelude.{◌≡◌, ℕ, Bool, ◌+◌, ◌*◌, ◌≤◌, List, length, sum_by};
ghost use Rattle.word_base.specs.Words.{AreWords};
ghost use Rattle.tpf_decode.specs.Profiles.{Base};
ghost use Rattle.tpf_program.specs.Program.{Shader};
ghost use Rattle.tpf_program.specs.Spelling.{Spells};
ghost use Rattle.shader_check.specs.Checked.{IsChecked as BreaksNoRule};
ghost use Rattle.binding_map.specs.Bindings.{Binding, IsMap};
ghost use Rattle.spirv_symbols.specs.declared.entry.Entry.{Entry};
ghost use Rattle.spirv_symbols.specs.Modules.{interface};
ghost use Rattle.spirv_emit.specs.Growing.{globals_in};
ghost use Rattle.spirv_emit.specs.Sized.{IsSized};
ghost use Rattle.spirv_emit.specs.declared.emitter.Emitter.{Emitter as Emission};
ghost use Rattle.spirv_setup.specs.Premises.{IsDeclared, declared_ids, declared_words};
ghost use Rattle.spirv_setup.specs.Setup.{IsSetUp};
ghost use Rattle.spirv_setup.specs.Variables.{variables};

use binding_map::binding_laws;
use shader_check::checked_laws;

/// What is declared of a program costs, against the words that spell it. It does nothing when it runs.
///
/// What is declared takes, with 256 words and 48 ids for each word of the instructions, no more than 256 words and 48
/// ids for each word of the program and a fixed number: so a tree of instructions that takes no more of each has room
/// behind it. The immediate constants are those of one buffer. There are no more declarations, and no more words of that
/// buffer, than words.
pub fn sum_laws()
    ensures listed { (p : Shader) (tokens : List ℕ) → Spells Base p tokens
        → (length p.declarations ≤ p.words) × (length p.constants ≤ p.words) }
    ensures constants { (p : Shader) (tokens : List ℕ) → Spells Base p tokens → IsDeclared p
        → length p.constants ≤ 16384 }
    ensures words { (p : Shader) (bindings : List Binding) (tokens : List ℕ) (version : ℕ) (entries : List Entry)
        → Spells Base p tokens → IsDeclared p → IsMap bindings → globals_in entries ≡ variables p bindings
        → declared_words p bindings + length (interface version entries) + 66
        + 256 * sum_by (λ i. i.length) p.instructions ≤ 256 * p.words + 8192 }
    ensures ids { (p : Shader) (bindings : List Binding) (tokens : List ℕ)
        → Spells Base p tokens → IsDeclared p → IsMap bindings
        → declared_ids p bindings + 6 + 48 * sum_by (λ i. i.length) p.instructions ≤ 48 * p.words + 4096 }
{}

/// What a program that breaks no rule declares, as far as its variables ask. It does nothing when it runs.
pub fn declared_laws()
    ensures { (p : Shader) (tokens : List ℕ) → AreWords tokens → Spells Base p tokens → BreaksNoRule p → IsDeclared p }
{
    checked_laws();
}

/// What is said of an emitter's variables is of some setting: sizes that are words, blocks with all their words. It does
/// nothing when it runs.
pub fn size_laws()
    ensures { (p : Shader) (bindings : List Binding) (e : Emission) (separate : Bool) → IsDeclared p → IsMap bindings
        → IsSetUp p bindings e → IsSized (record e.frame { separate = separate }) }
{
    binding_laws();
}
