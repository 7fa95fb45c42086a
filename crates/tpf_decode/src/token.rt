ghost use Rattle.std.specs.Prelude.{◌≡◌, ◌+◌, ◌≤◌, ◌<◌, Option, length, slice_index};
ghost use Rattle.word_base.specs.Words.{words_of};
ghost use Rattle.word_base.specs.Rules.{refusal};
ghost use Rattle.tpf_decode.specs.Tokens.{has_flag, is_opcode_extension, kind_of, has_selection, is_mask, is_one, is_choice, select_of, has_immediate, has_relative, is_modifier, is_negation, element_of, selection_by, mode_of};

use crate::argument::{Kind, Select};
use word_base::{Refusal, Rule, field, word_at, word_laws};

/// The word with the number `i`, counted from 0.
pub fn word(bytes: &[u8], i: u32) -> u32
    requires { i < length (words_of bytes.now) }
    ensures { result ≡ slice_index (words_of bytes.now) i }
{
    word_laws();
    word_at(bytes, i)
}

/// The refusal of a rule at a place.
pub fn refuse<T>(rule: Rule, place: u32) -> Result<T, Refusal>
    ensures { result ≡ Err (refusal rule place) }
{
    Err(Refusal { rule, place })
}

/// Whether a bit is 1.
pub fn is_set(word: u32, bit: u32) -> bool
    requires { bit < 32 }
    ensures { result ≡ has_flag word bit }
{
    field(word, bit, bit) == 1
}

/// Whether an extended opcode token is of a type that is passed over.
pub fn is_extension(token: u32) -> bool
    ensures { result ≡ is_opcode_extension token }
{
    matches!(field(token, 5, 0), 0 | 2 | 3)
}

/// The type of an operand.
pub fn operand_kind(token: u32) -> Option<Kind>
    ensures { result ≡ kind_of token }
{
    match field(token, 19, 12) {
        0 => Some(Kind::Temp),
        3 => Some(Kind::Indexable),
        4 => Some(Kind::Immediate),
        7 => Some(Kind::Resource),
        8 => Some(Kind::Constant),
        9 => Some(Kind::ImmediateConstant),
        13 => Some(Kind::Null),
        30 => Some(Kind::Uav),
        31 => Some(Kind::Shared),
        32 => Some(Kind::ThreadId),
        33 => Some(Kind::GroupId),
        34 => Some(Kind::IdInGroup),
        36 => Some(Kind::FlatId),
        _ => None,
    }
}

/// Whether the component count and the mode are those of a selection.
pub fn selects_something(token: u32) -> bool
    ensures { result ≡ has_selection token }
{
    match field(token, 1, 0) {
        3 => false,
        2 => field(token, 3, 2) != 3,
        _ => true,
    }
}

/// Whether four components have a mask.
pub fn is_masked(token: u32) -> bool
    ensures { result ≡ is_mask token }
{
    field(token, 1, 0) == 2 && field(token, 3, 2) == 0
}

/// Whether one of four components is selected.
pub fn is_single(token: u32) -> bool
    ensures { result ≡ is_one token }
{
    field(token, 1, 0) == 2 && field(token, 3, 2) == 2
}

/// Whether four components have a swizzle, or one is selected of them.
pub fn is_chosen(token: u32) -> bool
    ensures { result ≡ is_choice token }
{
    field(token, 1, 0) == 2 && (field(token, 3, 2) == 1 || field(token, 3, 2) == 2)
}

/// What an operand of a type selects. An immediate's own selection is ignored.
pub fn selection(kind: Kind, token: u32) -> Select
    ensures { result ≡ select_of kind token }
{
    let four = field(token, 1, 0) == 2;
    match kind {
        Kind::Immediate => if four {
            Select::Swizzle(228)
        } else {
            Select::Bare
        },
        _ => if four {
            component_selection(token)
        } else {
            Select::Bare
        },
    }
}

fn component_selection(token: u32) -> Select
    ensures { result ≡ selection_by (mode_of token) token }
{
    match field(token, 3, 2) {
        0 => Select::Mask(field(token, 7, 4) as u8),
        1 => Select::Swizzle(field(token, 11, 4) as u8),
        _ => Select::One(field(token, 5, 4) as u8),
    }
}

/// Whether an index of a representation has an immediate word.
pub fn holds_immediate(representation: u32) -> bool
    ensures { result ≡ has_immediate representation }
{
    representation == 0 || representation == 3
}

/// Whether an index of a representation has a relative operand.
pub fn holds_relative(representation: u32) -> bool
    ensures { result ≡ has_relative representation }
{
    representation == 2 || representation == 3
}

/// The representation of the index behind the slot, where the type has one.
pub fn element_representation(kind: Kind, token: u32) -> Option<u32>
    ensures { result ≡ element_of kind token }
{
    match kind {
        Kind::Indexable | Kind::Constant => Some(field(token, 27, 25)),
        Kind::ImmediateConstant => Some(field(token, 24, 22)),
        _ => None,
    }
}

/// Whether an extended operand token is one that is taken.
pub fn modifies(negatable: bool, token: u32) -> bool
    ensures { result ≡ is_modifier negatable token }
{
    match field(token, 5, 0) {
        0 => true,
        1 => {
            let modifier = field(token, 13, 6);
            (modifier == 0 || (negatable && modifier == 1)) && field(token, 16, 14) == 0
        }
        _ => false,
    }
}

/// Whether an extended operand token negates.
pub fn negates(token: u32) -> bool
    ensures { result ≡ is_negation token }
{
    field(token, 5, 0) == 1 && field(token, 13, 6) == 1
}
