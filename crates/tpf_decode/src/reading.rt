ghost use Rattle.std.specs.Prelude.{◌≡◌, ℕ, ◌+◌, ◌-◌, ◌<◌, ◌≤◌, ◌++◌, List, Option, Some, None, true, length, IfOk, IfErr, ◌^◌, slice_range};
ghost use Rattle.word_base.specs.Words.{words_of};
ghost use Rattle.word_base.specs.declared.rule.Rule.TheVariants.{K11};
ghost use Rattle.word_base.specs.declared.rule.Refusal.{Refusal};
ghost use Rattle.word_base.specs.Rules.{first, refusal};
ghost use Rattle.tpf_decode.specs.declared.argument.Argument.{Argument};
ghost use Rattle.tpf_decode.specs.declared.argument.Role.{Role};
ghost use Rattle.tpf_decode.specs.Profiles.{Profile, Base};
ghost use Rattle.tpf_decode.specs.Declarations.{HasRole};
ghost use Rattle.tpf_decode.specs.Spelling.{words_between, SpellsOperand, SpellsFixed, SpellsPlace, SpellsRelative, SpellsImmediate, SpellsIndex, SpellsElement, SpellsBehind, component_of};
ghost use Rattle.tpf_decode.specs.Tokens.{kind_of, Literal, fixed_of, fixed_count, has_immediate, immediate_count};
ghost use Rattle.tpf_decode.specs.Refusals.{Rest, IsOrderly, refusal_of, nothing, operand_faults, token_tests, first_rule, behind_faults, element_faults, relative_faults};
ghost use Rattle.tpf_decode.specs.Laws.{WordsTellOperand, PassesOperand, RefusesOperand, OperandsAreOrderly};
ghost use Rattle.tpf_decode.specs.Roles.{index_count, is_relative_type};

use crate::argument::{Argument, Kind, Relative, Role, Select};
use crate::chain::{Extended, chain_end, has_negation};
use crate::role::{
    declares, is_indexed, is_negatable, is_permitted, is_selected, places, relative_kind,
};
use crate::token::{
    element_representation, holds_immediate, holds_relative, is_set, operand_kind, refuse,
    selection, word,
};
use word_base::{Refusal, Rule, field};

/// The place behind so many words, in an instruction with an end.
fn behind(at: u32, end: u32, count: u32) -> Result<u32, Refusal>
    requires { at ≤ end }
    ensures missing { IfErr result (λ r. (r ≡ refusal K11 end) × (end - at < count)) }
    ensures place { IfOk result (λ r. (r ≡ at + count) × (r ≤ end)) }
{
    if end - at < count {
        return refuse(Rule::K11, end);
    }
    Ok(at + count)
}

/// The type of an operand token in a role of an opcode, or the rule that the token breaks.
fn token_kind(code: u32, role: Role, token: u32) -> Result<Kind, Rule>
    ensures broken { IfErr result (λ rule. first_rule (token_tests Base code role (kind_of token) token) ≡ Some rule) }
    ensures sound { IfOk result (λ kind. first_rule (token_tests Base code role (Some kind) token) ≡ None) }
    ensures kind { IfOk result (λ kind. kind_of token ≡ Some kind) }
{
    let kind = operand_kind(token);
    if !is_selected(code, role, kind, token) {
        return Err(Rule::K6);
    }
    match kind {
        Some(kind) if is_permitted(code, role, Some(kind)) => {
            if is_indexed(declares(code), Some(kind), token) {
                Ok(kind)
            } else {
                Err(Rule::K8)
            }
        }
        _ => Err(Rule::K7),
    }
}

/// The slot and the words of an immediate.
#[derive(Clone, Copy)]
struct Fixed {
    slot: u32,
    x: u32,
    y: u32,
    z: u32,
    w: u32,
}

/// How many words stand directly behind an operand's tokens.
fn fixed_words(kind: Kind, token: u32) -> u32
    ensures { result ≡ fixed_count (fixed_of kind token) }
{
    match kind {
        Kind::Immediate => if field(token, 1, 0) == 2 { 4 } else { 1 },
        Kind::Temp | Kind::Indexable | Kind::Resource | Kind::Constant | Kind::Uav | Kind::Shared =>
            1,
        _ => 0,
    }
}

/// An immediate of four words, or of one that stands for each.
fn read_literal(bytes: &[u8], at: u32, four: bool) -> Fixed
    requires words { at + fixed_count (Literal four) ≤ length (words_of bytes.now) }
    requires fits { at + fixed_count (Literal four) < 2 ^ 32 }
    ensures { SpellsFixed (Literal four) result.slot result.x result.y result.z result.w
        (words_between bytes.now at (at + fixed_count (Literal four))) }
{
    let x = word(bytes, at);
    if four {
        Fixed {
            slot: 0,
            x,
            y: word(bytes, at + 1),
            z: word(bytes, at + 2),
            w: word(bytes, at + 3),
        }
    } else {
        Fixed {
            slot: 0,
            x,
            y: x,
            z: x,
            w: x,
        }
    }
}

/// The words directly behind an operand's tokens, by its type.
fn read_fixed(bytes: &[u8], at: u32, kind: Kind, token: u32) -> Fixed
    requires words { at + fixed_count (fixed_of kind token) ≤ length (words_of bytes.now) }
    requires fits { at + fixed_count (fixed_of kind token) < 2 ^ 32 }
    ensures { SpellsFixed (fixed_of kind token) result.slot result.x result.y result.z result.w
        (words_between bytes.now at (at + fixed_count (fixed_of kind token))) }
{
    let slot = match kind {
        Kind::Immediate => return read_literal(bytes, at, field(token, 1, 0) == 2),
        Kind::Temp | Kind::Indexable | Kind::Resource | Kind::Constant | Kind::Uav | Kind::Shared =>
            word(bytes, at),
        _ => 0,
    };
    Fixed {
        slot,
        x: 0,
        y: 0,
        z: 0,
        w: 0,
    }
}

/// The slot and the element or vector of a relative operand.
fn read_place(bytes: &[u8], at: u32, kind: Kind) -> (u32, u32)
    requires words { at + index_count kind ≤ length (words_of bytes.now) }
    requires fits { at + index_count kind < 2 ^ 32 }
    requires kind { is_relative_type kind ≡ true }
    ensures { SpellsPlace kind result.0 result.1 (words_between bytes.now at (at + index_count kind)) }
{
    match kind {
        Kind::Temp => (word(bytes, at), 0),
        Kind::Indexable | Kind::Constant => (word(bytes, at), word(bytes, at + 1)),
        _ => (0, 0),
    }
}

/// The component that a relative operand selects.
fn component(kind: Kind, token: u32) -> u8
    ensures { result ≡ component_of kind token }
{
    match kind {
        Kind::FlatId => 0,
        _ => field(token, 5, 4) as u8,
    }
}

/// A relative operand, and the place behind it.
fn read_relative(bytes: &[u8], at: u32, end: u32) -> Result<(Relative, u32), Refusal>
    requires order { at ≤ end }
    requires words { end ≤ length (words_of bytes.now) }
    ensures refused { refusal_of result ≡ first (relative_faults true nothing at (words_between bytes.now at end)) }
    ensures within { IfOk result (λ r. (at ≤ r.1) × (r.1 ≤ end)) }
    ensures spelled { IfOk result (λ r. SpellsRelative r.0 (words_between bytes.now at r.1)) }
{
    if at == end {
        return refuse(Rule::K11, end);
    }
    let token = word(bytes, at);
    let Some(kind) = relative_kind(token) else {
        return refuse(Rule::K9, at);
    };
    let next = behind(at + 1, end, places(kind))?;
    let (slot, index) = read_place(bytes, at + 1, kind);
    let component = component(kind, token);
    Ok((
        Relative {
            kind,
            slot,
            index,
            component,
        },
        next,
    ))
}

/// The immediate part of an index of a representation, and the place behind it.
fn read_immediate(
    bytes: &[u8],
    at: u32,
    end: u32,
    representation: u32,
) -> Result<(u32, u32), Refusal>
    requires order { at ≤ end }
    requires words { end ≤ length (words_of bytes.now) }
    ensures missing { IfErr result (λ r. (r ≡ refusal K11 end) × (end - at < immediate_count representation)) }
    ensures place { IfOk result (λ r. (r.1 ≡ at + immediate_count representation) × (r.1 ≤ end)) }
    ensures spelled { IfOk result (λ r. SpellsImmediate (has_immediate representation) r.0 (words_between bytes.now at r.1)) }
{
    if !holds_immediate(representation) {
        return Ok((0, at));
    }
    if at == end {
        return refuse(Rule::K11, end);
    }
    Ok((word(bytes, at), at + 1))
}

/// The immediate part and the relative operand of an index of a representation, and the place behind
/// them.
fn read_index(
    bytes: &[u8],
    at: u32,
    end: u32,
    representation: u32,
) -> Result<(u32, Option<Relative>, u32), Refusal>
    requires order { at ≤ end }
    requires words { end ≤ length (words_of bytes.now) }
    ensures refused { refusal_of result
        ≡ first (element_faults (Some representation) nothing at (words_between bytes.now at end)) }
    ensures within { IfOk result (λ r. (at ≤ r.2) × (r.2 ≤ end)) }
    ensures spelled { IfOk result (λ r. SpellsIndex representation r.0 r.1 (words_between bytes.now at r.2)) }
{
    let (index, place) = read_immediate(bytes, at, end, representation)?;
    if !holds_relative(representation) {
        return Ok((index, None, place));
    }
    let (relative, next) = read_relative(bytes, place, end)?;
    Ok((index, Some(relative), next))
}

/// The index behind the slot, where there is one, and the place behind it.
fn read_element(
    bytes: &[u8],
    at: u32,
    end: u32,
    representation: Option<u32>,
) -> Result<(u32, Option<Relative>, u32), Refusal>
    requires order { at ≤ end }
    requires words { end ≤ length (words_of bytes.now) }
    ensures refused { refusal_of result ≡ first (element_faults representation nothing at (words_between bytes.now at end)) }
    ensures within { IfOk result (λ r. (at ≤ r.2) × (r.2 ≤ end)) }
    ensures spelled { IfOk result (λ r. SpellsElement representation r.0 r.1 (words_between bytes.now at r.2)) }
{
    match representation {
        None => Ok((0, None, at)),
        Some(representation) => read_index(bytes, at, end, representation),
    }
}

/// What an operand's tokens say.
#[derive(Clone, Copy)]
struct Head {
    kind: Kind,
    select: Select,
    negate: bool,
}

/// An operand whose tokens are read, and the place behind it.
fn read_behind(
    bytes: &[u8],
    at: u32,
    end: u32,
    token: u32,
    head: Head,
) -> Result<(Argument, u32), Refusal>
    requires order { at ≤ end }
    requires words { end ≤ length (words_of bytes.now) }
    ensures refused { refusal_of result
        ≡ first (behind_faults (Some head.kind) token nothing at (words_between bytes.now at end)) }
    ensures within { IfOk result (λ r. (at ≤ r.1) × (r.1 ≤ end)) }
    ensures head { IfOk result (λ r. (r.0.kind ≡ head.kind) × (r.0.select ≡ head.select) × (r.0.negate ≡ head.negate)) }
    ensures spelled { IfOk result (λ r. SpellsBehind token r.0 (words_between bytes.now at r.1)) }
{
    let Head {
        kind,
        select,
        negate,
    } = head;
    let place = behind(at, end, fixed_words(kind, token))?;
    let Fixed { slot, x, y, z, w } = read_fixed(bytes, at, kind, token);
    let (index, relative, next) = read_element(
        bytes,
        place,
        end,
        element_representation(kind, token),
    )?;
    let argument = Argument {
        kind,
        select,
        negate,
        slot,
        index,
        relative,
        x,
        y,
        z,
        w,
    };
    Ok((argument, next))
}

/// Reads an operand in a role of an opcode, from a place to the instruction's end, and gives the place
/// behind it. Places are words counted from the program's first.
///
/// # Errors
///
/// The first of K6 to K11, by place and then by number; K11 stands at the end, where a word is
/// missing.
pub fn operand(
    bytes: &[u8],
    at: u32,
    end: u32,
    code: u32,
    role: Role,
) -> Result<(Argument, u32), Refusal>
    requires order { at ≤ end }
    requires words { end ≤ length (words_of bytes.now) }
    requires role { HasRole Base code role }
    ensures refused { refusal_of result ≡ first (operand_faults Base code role nothing at (words_between bytes.now at end)) }
    ensures within { IfOk result (λ r. (at < r.1) × (r.1 ≤ end)) }
    ensures spelled { IfOk result (λ r. SpellsOperand Base code role r.0 (words_between bytes.now at r.1)) }

    // What is spelled is read, whatever stands behind it.
    ensures read { (a : Argument) (front back : List ℕ) → SpellsOperand Base code role a front
        → words_between bytes.now at end ≡ front ++ back → result ≡ Ok (a, at + length front) }
{
    if at == end {
        return refuse(Rule::K11, end);
    }
    let token = word(bytes, at);
    let kind = match token_kind(code, role, token) {
        Ok(kind) => kind,
        Err(rule) => return refuse(rule, at),
    };
    let of = Extended::Operand {
        negatable: is_negatable(code, role),
    };
    let place = chain_end(bytes, at + 1, end, is_set(token, 31), of)?;
    let head = Head {
        kind,
        select: selection(kind, token),
        negate: has_negation(bytes, at + 1, place),
    };
    let (argument, next) = read_behind(bytes, place, end, token, head)?;
    Ok((argument, next))
}

/// What holds of the words of operands, for the proofs of callers: they say what the operand is and
/// where it ends; behind a spelled operand the rest is tested; and what is refused of an operand is
/// refused before the rest. It does nothing when it runs.
pub fn operand_laws()
    ensures told { WordsTellOperand }
    ensures passed { PassesOperand }
    ensures refused { RefusesOperand }
    ensures orderly { OperandsAreOrderly }
{}
