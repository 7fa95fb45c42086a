ghost use Rattle.std.specs.Prelude.{◌≡◌, ◌+◌, ◌≤◌, ◌++◌, OnOk, OnErr, length, vec_len, vec_capacity};
ghost use Rattle.spirv_words.specs.Text.{IsInstr, instr, words_of_instr};

use word_base::NoMemory;

/// Writes one instruction behind the words of `out`: its number `op` and its operand words.
///
/// The instruction is one of the table in `specs/Layouts`, and its operands fit there. (SPIR-V
/// specification, section 2.3, Physical Layout of a SPIR-V Module and Instruction.)
///
/// # Errors
///
/// `NoMemory` where `out` has no room for the instruction and cannot grow; then it is as before.
#[tactic(auto, using(crate::proofs::Numbers::joined, crate::proofs::Numbers::number_is_short, crate::proofs::Numbers::operands_are_short))]
pub fn put(out: &mut Vec<u32>, op: u32, operands: &[u32]) -> Result<(), NoMemory>
    requires instruction { IsInstr (instr op operands.now) }
    ensures ok { OnOk result (out.new.items ≡ out.old.items ++ words_of_instr (instr op operands.now)) }
    ensures err { OnErr result (out.new.items ≡ out.old.items) }
    ensures full { OnErr result (vec_capacity out.old ≤ vec_len out.old + length operands.now) }
{
    let words = operands.len() + 1;
    out.reserve(words).map_err(|_| NoMemory)?;
    out.push(65536 * words as u32 + op).map_err(|_| NoMemory)?;
    out.extend_from_slice(operands).map_err(|_| NoMemory)
}
