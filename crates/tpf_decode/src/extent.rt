ghost use Rattle.std.specs.Prelude.{◌≡◌, ℕ, ◌+◌, ◌-◌, ◌<◌, ◌≤◌, List, ◌++◌, Option, Some, None, true, false, length, IfOk, nat_eq, slice_index, slice_range, ◌≢◌, not};
ghost use Rattle.word_base.specs.Words.{words_of};
ghost use Rattle.word_base.specs.declared.rule.Rule.TheVariants.{K13};
ghost use Rattle.word_base.specs.declared.rule.Refusal.{Refusal};
ghost use Rattle.word_base.specs.Rules.{broken, first};
ghost use Rattle.tpf_decode.specs.declared.argument.Argument.{Argument};
ghost use Rattle.tpf_decode.specs.declared.argument.Role.{Role};
ghost use Rattle.tpf_decode.specs.declared.extent.Extent.{Extent};
ghost use Rattle.tpf_decode.specs.Spelling.{words_between, Spells};
ghost use Rattle.tpf_decode.specs.Profiles.{Profile, Base};
ghost use Rattle.tpf_decode.specs.Laws.{WordsTellInstruction, PassesHead, RefusesHead};
ghost use Rattle.tpf_decode.specs.Tokens.{opcode_of};
ghost use Rattle.tpf_decode.specs.Refusals.{Rest, IsOrderly, faults_with, operands_faults, refusal_of, header_faults, cut_faults, head_faults, nothing, has_wrong_sync, has_wrong_flags, is_custom, is_custom_size, IsExtent, first_rule, head_tests};

use crate::chain::{Extended, chain_end};
use crate::declaration::declaration_layout;
use crate::opcode::instruction_form;
use crate::role::gives_result;
use crate::token::{is_set, refuse, word};
use word_base::{Refusal, Rule, field, word_laws};

/// Where an instruction, a declaration or a block of custom data stands. Places are words counted
/// from the program's first.
#[derive(Clone, Copy, Debug, PartialEq, Eq)]
pub struct Extent {
    /// The opcode.
    pub code: u32,
    /// Bits 23 to 11 of the first token where they stand; all other bits are 0.
    pub controls: u32,
    /// The place of the first word behind the opcode's tokens.
    pub first: u32,
    /// The place behind the last word.
    pub end: u32,
}

/// The number of words of a program, from its two first words: the version token of cs_5_0, and the
/// length in words with both included. Words of the data past that number are ignored.
///
/// # Errors
///
/// K1 at 0 where the version is another, K2 at 1 where the length is below 2 or above the words of
/// the data, and M2 at 1 where it is above 65,536, in this order.
pub fn header(bytes: &[u8]) -> Result<u32, Refusal>
    requires { 8 ≤ length bytes.now }
    ensures refused { refusal_of result ≡ first (header_faults (words_of bytes.now)) }
    ensures count { IfOk result (λ n. n ≡ slice_index (words_of bytes.now) 1) }
{
    word_laws();
    if word(bytes, 0) != 0x0005_0050 {
        return refuse(Rule::K1, 0);
    }
    let count = word(bytes, 1);
    if count < 2 || bytes.len() / 4 < count as usize {
        return refuse(Rule::K2, 1);
    }
    if 65_536 < count {
        return refuse(Rule::M2, 1);
    }
    Ok(count)
}

/// Whether a `sync` asks for nothing, or for both scopes of views.
fn is_wrong_sync(token: u32) -> bool
    ensures { result ≡ has_wrong_sync token }
{
    field(token, 10, 0) == 190
        && (field(token, 14, 11) == 0 || (is_set(token, 13) && is_set(token, 14)))
}

/// Whether the global flags have one outside the profile.
fn is_wrong_flags(token: u32) -> bool
    ensures { result ≡ has_wrong_flags token }
{
    field(token, 10, 0) == 106 && !(field(token, 13, 12) == 0 && field(token, 23, 16) == 0)
}

const CUSTOM_DATA: u32 = 53;

/// Where the instruction, the declaration or the custom data at a place stands, in a program of `n`
/// words. Custom data has no extended tokens, so the first word behind its token is its length.
///
/// # Errors
///
/// The first of K3 to K5 and K12 to K15, and K11 where an extended token is missing, by place and
/// then by number. Other rules of the instruction are not looked at, nor what follows it.
pub fn cut(bytes: &[u8], n: u32, at: u32) -> Result<Extent, Refusal>
    requires head { 2 ≤ at }
    requires inside { at < n }
    requires words { n ≤ length (words_of bytes.now) }
    ensures refused { refusal_of result ≡ first (cut_faults Base at (words_between bytes.now at n)) }
    ensures extent { IfOk result (IsExtent Base (words_of bytes.now) n at) }
{
    let token = word(bytes, at);
    if field(token, 10, 0) == CUSTOM_DATA {
        cut_custom(bytes, n, at, token)
    } else {
        cut_head(bytes, n, at, token)
    }
}

/// Whether custom data of a class may have a length, where there is room for that many words.
fn is_sound_size(class: u32, size: u32, room: u32) -> bool
    ensures { result ≡ is_custom_size class size room }
{
    class <= 3
        && 2 <= size
        && size <= room
        && (class != 3 || ((size - 2) % 4 == 0 && size != 2 && size - 2 <= 16_384))
}

fn cut_custom(bytes: &[u8], n: u32, at: u32, token: u32) -> Result<Extent, Refusal>
    requires inside { at < n }
    requires words { n ≤ length (words_of bytes.now) }
    requires token { token ≡ slice_index (words_of bytes.now) at }
    requires custom { opcode_of token ≡ 53 }
    ensures refused { refusal_of result
        ≡ first (broken (not (is_custom token (words_between bytes.now (at + 1) n))) K13 at) }
    ensures extent { IfOk result (IsExtent Base (words_of bytes.now) n at) }
{
    if n - at < 2 {
        return refuse(Rule::K13, at);
    }
    let size = word(bytes, at + 1);
    if !is_sound_size(field(token, 31, 11), size, n - at) {
        return refuse(Rule::K13, at);
    }
    Ok(Extent {
        code: field(token, 10, 0),
        controls: field(token, 23, 11) * 2048,
        first: at + 1,
        end: at + size,
    })
}

fn cut_head(bytes: &[u8], n: u32, at: u32, token: u32) -> Result<Extent, Refusal>
    requires inside { at < n }
    requires words { n ≤ length (words_of bytes.now) }
    requires token { token ≡ slice_index (words_of bytes.now) at }
    requires other { opcode_of token ≢ 53 }
    ensures refused { refusal_of result
        ≡ first (head_faults Base nothing at token (words_between bytes.now (at + 1) n)) }
    ensures extent { IfOk result (IsExtent Base (words_of bytes.now) n at) }
{
    if let Some(rule) = head_rule(token, n - at) {
        return refuse(rule, at);
    }
    let end = at + field(token, 30, 24);
    let first = chain_end(bytes, at + 1, end, is_set(token, 31), Extended::Opcode)?;
    Ok(Extent {
        code: field(token, 10, 0),
        controls: field(token, 23, 11) * 2048,
        first,
        end,
    })
}

/// The first rule that an opcode token breaks, where so many words are left up to the program's end.
fn head_rule(token: u32, left: u32) -> Option<Rule>
    ensures { result ≡ first_rule (head_tests Base left token) }
{
    let code = field(token, 10, 0);
    let length = field(token, 30, 24);
    let form = instruction_form(code);
    if length == 0 || left < length {
        Some(Rule::K3)
    } else if form.is_none() && declaration_layout(code).is_none() {
        Some(Rule::K4)
    } else if gives_result(form) && is_set(token, 13) {
        Some(Rule::K12)
    } else if is_wrong_sync(token) {
        Some(Rule::K14)
    } else if is_wrong_flags(token) {
        Some(Rule::K15)
    } else {
        None
    }
}

/// What holds of the words of instructions and declarations, for the proofs of callers: they say what
/// the instruction is and where it ends; behind the opcode's tokens that `cut` passes the rest is
/// tested; and what `cut` refuses is refused before the rest. It does nothing when it runs.
pub fn instruction_laws()
    ensures told { WordsTellInstruction }
    ensures passed { PassesHead }
    ensures refused { RefusesHead }
{}
