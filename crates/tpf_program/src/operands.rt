ghost use Rattle.std.specs.Prelude.{◌≡◌, ◌+◌, ◌<◌, ◌≤◌, Some, length, IfOk, IfErr, slice_index};
ghost use Rattle.word_base.specs.Words.{words_of};
ghost use Rattle.word_base.specs.Rules.{refusal, first};
ghost use Rattle.tpf_decode.specs.Profiles.{Base};
ghost use Rattle.tpf_decode.specs.Declarations.{layout_of, roles_at};
ghost use Rattle.tpf_decode.specs.Spelling.{words_between, further_words};
ghost use Rattle.tpf_decode.specs.Refusals.{Rest, IsOrderly, operands_faults, refusal_of};
ghost use Rattle.tpf_program.specs.Reading.{HasOperands, parts_faults};

use crate::instruction::NOTHING;
use tpf_decode::{Argument, Role, operand};
use word_base::{Refusal, Rule, word_at, word_laws};

/// The word with the number `i`, counted from 0.
pub(crate) fn word(bytes: &[u8], i: u32) -> u32
    requires { i < length (words_of bytes.now) }
    ensures { result ≡ slice_index (words_of bytes.now) i }
{
    word_laws();
    word_at(bytes, i)
}

/// The refusal of a rule at a place.
pub(crate) fn refuse<T>(rule: Rule, place: u32) -> Result<T, Refusal>
    ensures { result ≡ Err (refusal rule place) }
{
    Err(Refusal { rule, place })
}

/// The operands of an opcode, which stand one after the other, and the place behind them.
fn read_operands(
    bytes: &[u8],
    at: u32,
    end: u32,
    code: u32,
    roles: &[Role],
) -> Result<([Argument; 5], u32), Refusal>
    requires order { at ≤ end }
    requires words { end ≤ length (words_of bytes.now) }
    requires few { length roles.now ≤ 5 }
    requires roles { roles.now ≡ roles_at Base code }
    ensures refused { IfErr result (λ r. (rest : Rest) → IsOrderly rest
        → first (operands_faults Base code roles.now rest at (words_between bytes.now at end)) ≡ Some r) }
    ensures within { IfOk result (λ r. (at ≤ r.1) × (r.1 ≤ end)) }
    ensures spelled { IfOk result (λ r. HasOperands code roles.now r.0 (words_between bytes.now at r.1)) }
{
    let mut places = [NOTHING; 5];
    let mut place = at;
    for k in 0..roles.len() {
        let (argument, next) = operand(bytes, place, end, code, roles[k])?;
        places[k] = argument;
        place = next;
    }
    Ok((places, place))
}

/// What stands behind an opcode's tokens: its operands, and so many further words, which are the last
/// of the instruction or the declaration. Their place is given with the operands.
pub(crate) fn read_parts(
    bytes: &[u8],
    at: u32,
    end: u32,
    code: u32,
    roles: &[Role],
    further: u32,
) -> Result<([Argument; 5], u32), Refusal>
    requires order { at ≤ end }
    requires words { end ≤ length (words_of bytes.now) }
    requires few { length roles.now ≤ 5 }
    requires roles { roles.now ≡ roles_at Base code }
    requires further { further ≡ further_words (layout_of Base code) }
    ensures refused { refusal_of result ≡ first (parts_faults code at (words_between bytes.now at end)) }
    ensures place { IfOk result (λ r. (at ≤ r.1) × (r.1 + further ≡ end)) }
    ensures spelled { IfOk result (λ r. HasOperands code (roles_at Base code) r.0 (words_between bytes.now at r.1)) }
{
    let (places, place) = read_operands(bytes, at, end, code, roles)?;
    if end - place < further {
        return refuse(Rule::K11, end);
    }
    if end - place != further {
        return refuse(Rule::K11, place + further);
    }
    Ok((places, place))
}
