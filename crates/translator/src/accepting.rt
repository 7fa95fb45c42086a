//! The rules that are tested before the bindings of a program are known.
ghost use Rattle.std.specs.Prelude.{◌≡◌, ◌≤◌, List, length, IfErr, OnOk};
ghost use Rattle.word_base.specs.Rules.{IsFirst};
ghost use Rattle.tpf_program.specs.Program.{Shader};
ghost use Rattle.binding_map.specs.Bindings.{Binding};
ghost use Rattle.translator.specs.Accepted.{IsRead};
ghost use Rattle.translator.specs.Input.{IsBroken};

use dxbc_container::{container_laws, shex};
use shader_check::{check, checked_laws};
use tpf_decode::header;
use tpf_program::{Program, read_into, spelled_laws};
use word_base::{Refusal, Rule, byte_laws, first_laws};

/// Reads the program of a container, in place of what was there, and tests its rules. It takes no memory.
///
/// # Errors
///
/// The first broken rule: of the container; then of the head, and `M4` at 1 where that names more words than the
/// program has room for; then of the tokens, and of the program: the first under every binding map.
pub(crate) fn accept(program: &mut Program, bytes: &[u8]) -> Result<(), Refusal>
    requires size { length bytes.now ≤ 16777216 }
    requires short { program.old.shader.words ≤ program.old.room }
    ensures read { OnOk result (IsRead program.old.room bytes.now program.new.shader) }
    ensures refused { (map_for : Shader → List Binding)
        → IfErr result (IsFirst (IsBroken program.old.room bytes.now map_for)) }
    ensures short { program.new.shader.words ≤ program.new.room }
    ensures room { program.new.room ≡ program.old.room }
{
    first_laws();
    container_laws();
    spelled_laws();
    checked_laws();
    let part = shex(bytes)?;
    let start = part.start as usize;
    let content = &bytes[start..start + part.size as usize];
    byte_laws(content);
    let words = header(content)?;
    if program.room() < words {
        return Err(TOO_LONG);
    }
    read_into(program, content)?;
    check(program)?;
    Ok(())
}

/// The answer to a program of more words than there is room for.
const TOO_LONG: Refusal = Refusal {
    rule: Rule::M4,
    place: 1,
};
