ghost use Rattle.std.specs.Prelude.{◌≡◌};
ghost use Rattle.word_base.specs.Rules.{first};
ghost use Rattle.tpf_decode.specs.Refusals.{refusal_of};
ghost use Rattle.shader_check.specs.Checked.{checked_refusals};

use crate::declarations::refused_things;
use crate::nested::refused_structure;
use tpf_program::Program;
use word_base::Refusal;

/// Tests the rules on a program's declarations (`L1` to `L4` and `L7`), on what its instructions use
/// (`L5`, `L6` and `L8`) and on its structure (`S1` to `S9` and `M3`). Ok comes exactly where none of
/// them is broken. It takes no memory.
///
/// # Errors
///
/// The first broken rule: those named `L` come before the others, and among them the lowest place
/// counts, then the lowest number, with `M3` behind the rules `S` of its place. `L4`, and `S9` without
/// any instruction, stand at the number of words; each other rule stands at its opcode token. `S2` is
/// tested only where no rule among `S1`, `S3` to `S8` and `M3` is broken.
pub fn check(program: &Program) -> Result<(), Refusal>
    ensures { refusal_of result ≡ first (checked_refusals program.now.shader) }
{
    program.typed_laws();
    program.order_laws();
    if let Some(refusal) = refused_things(program) {
        return Err(refusal);
    }
    refused_structure(program)
}
