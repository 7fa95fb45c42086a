//! What is to be known of a container before a workspace is made: the room for its program.
ghost use Rattle.std.specs.Prelude.{◌≡◌, ◌≤◌, ℕ, List, [], length};
ghost use Rattle.word_base.specs.Rules.{IsFirst, IsSound};
ghost use Rattle.word_base.specs.declared.rule.Refusal.{Refusal};
ghost use Rattle.tpf_program.specs.Program.{Shader};
ghost use Rattle.shader_check.specs.Checked.{checked_refusals};
ghost use Rattle.binding_map.specs.Bindings.{Binding};
ghost use Rattle.binding_map.specs.Defaults.{default_map};
ghost use Rattle.translator.specs.Input.{BreaksInput, HasProgram, IsBroken, NamesWords};

use binding_map::binding_laws;
use dxbc_container::{container_laws, shex};
use tpf_decode::header;
use tpf_program::spelled_laws;
use word_base::first_laws;

/// The fewest words that a program has: those of its head.
const FEWEST: u32 = 2;

/// Returns how many words the program of a container has. A workspace that is to hold the program needs room for them.
///
/// It refuses no container. Where a rule of the container or of the head of its program is broken, the answer is 2, and
/// `Workspace::read` names the rule.
pub fn room_for(bytes: &[u8]) -> u32
    requires { length bytes.now ≤ 16777216 }
    ensures limit { result ≤ 65536 }
    ensures named { (n : ℕ) → NamesWords bytes.now n → result ≡ n }
    ensures unnamed { ((n : ℕ) → NamesWords bytes.now n → ⊥) → result ≡ 2 }
{
    first_laws();
    container_laws();
    let Ok(part) = shex(bytes) else {
        return FEWEST;
    };
    let start = part.start as usize;
    let content = &bytes[start..start + part.size as usize];
    match header(content) {
        Ok(words) => words,
        Err(_) => FEWEST,
    }
}

/// What holds of the rules that no binding map is needed for, for the proofs of callers. It does nothing when it runs.
///
/// Where there is room for the program of a container, the first rule that is broken under the default map is the first
/// of these. None of them is broken where a program is read that breaks none, and an input has one program.
pub fn input_laws()
    ensures first { (bytes : List ℕ) (room : ℕ) → ((n : ℕ) → NamesWords bytes n → n ≤ room) → (r : Refusal)
        → IsFirst (IsBroken room bytes default_map) r → IsFirst (BreaksInput bytes) r }
    ensures sound { (bytes : List ℕ) (p : Shader) → HasProgram bytes p → checked_refusals p ≡ []
        → IsSound (BreaksInput bytes) }
    ensures single { (bytes : List ℕ) (p q : Shader) → HasProgram bytes p → HasProgram bytes q → p ≡ q }
{
    binding_laws();
    container_laws();
    spelled_laws();
}
