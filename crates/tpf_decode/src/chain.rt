ghost use Rattle.std.specs.Prelude.{◌≡◌, ◌≤◌, true, length, IfOk, slice_range};
ghost use Rattle.std.specs.List.{list_all, list_any};
ghost use Rattle.word_base.specs.Words.{words_of};
ghost use Rattle.word_base.specs.Rules.{first};
ghost use Rattle.tpf_decode.specs.Tokens.{is_negation};
ghost use Rattle.tpf_decode.specs.Spelling.{words_between, IsChain};

use crate::token::{is_extension, is_set, modifies, negates, refuse, word};
use word_base::{Refusal, Rule};

/// What extended tokens belong to.
#[derive(Clone, Copy, Debug, PartialEq, Eq)]
pub enum Extended {
    /// An opcode token.
    Opcode,
    /// An operand token.
    Operand {
        /// Whether the operand may be negated.
        negatable: bool,
    },
}

impl Extended {
    ghost use Rattle.tpf_decode.specs.Refusals.{is_taken, rule_of};

    fn rule(self) -> Rule
        ensures { result ≡ rule_of self }
    {
        match self {
            Extended::Opcode => Rule::K5,
            Extended::Operand { negatable: _ } => Rule::K10,
        }
    }

    fn takes(self, token: u32) -> bool
        ensures { result ≡ is_taken self token }
    {
        match self {
            Extended::Opcode => is_extension(token),
            Extended::Operand { negatable } => modifies(negatable, token),
        }
    }
}

ghost use Rattle.tpf_decode.specs.Refusals.{refusal_of, chain_faults, nothing, is_taken};

/// The place behind the extended tokens that begin at a place, where the token before says that one
/// follows, in an instruction with an end.
pub fn chain_end(
    bytes: &[u8],
    start: u32,
    end: u32,
    follows: bool,
    of: Extended,
) -> Result<u32, Refusal>
    requires order { start ≤ end }
    requires words { end ≤ length (words_of bytes.now) }
    ensures refused { refusal_of result ≡ first (chain_faults of follows nothing start (words_between bytes.now start end)) }
    ensures within { IfOk result (λ r. (start ≤ r) × (r ≤ end)) }
    ensures chain { IfOk result (λ r. IsChain follows (words_between bytes.now start r)) }
    ensures taken { IfOk result (λ r. list_all (is_taken of) (words_between bytes.now start r) ≡ true) }
{
    let mut place = start;
    let mut more = follows;
    while more {
        if place == end {
            return refuse(Rule::K11, end);
        }
        let token = word(bytes, place);
        if !of.takes(token) {
            return refuse(of.rule(), place);
        }
        more = is_set(token, 31);
        place += 1;
    }
    Ok(place)
}

/// Whether one of the words from a place to another negates.
pub fn has_negation(bytes: &[u8], start: u32, end: u32) -> bool
    requires order { start ≤ end }
    requires words { end ≤ length (words_of bytes.now) }
    ensures { result ≡ list_any is_negation (words_between bytes.now start end) }
{
    for place in start..end {
        if negates(word(bytes, place)) {
            return true;
        }
    }
    false
}
