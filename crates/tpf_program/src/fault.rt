ghost use Rattle.std.specs.Prelude.{◌≡◌, ◌↔◌, ◌⊎◌, ℕ, ◌<◌, ◌≤◌, List, Contains, Some, length};
ghost use Rattle.word_base.specs.Words.{words_of};
ghost use Rattle.word_base.specs.Rules.{first};
ghost use Rattle.word_base.specs.declared.rule.Refusal.{Refusal};
ghost use Rattle.tpf_decode.specs.Profiles.{Profile, Base};
ghost use Rattle.tpf_decode.specs.Spelling.{words_between};
ghost use Rattle.tpf_decode.specs.Refusals.{header_faults, instruction_faults};
ghost use Rattle.tpf_program.specs.Faults.{body_faults, program_faults, early_of, early_rule, IsBrokenInside};

use crate::operands::word;
use tpf_decode::{declaration_layout, instruction_form};
use word_base::{Refusal, Rule, field};

/// The opcode of custom data.
pub(crate) const CUSTOM_DATA: u32 = 53;

/// The rule that an opcode token breaks by its length or its opcode, where it has so many words up to
/// the program's end.
fn rule_of_token(token: u32, left: u32) -> Option<Rule>
    ensures { result ≡ early_of left token }
{
    let code = field(token, 10, 0);
    let length = field(token, 30, 24);
    if code == CUSTOM_DATA {
        None
    } else if length == 0 || left < length {
        Some(Rule::K3)
    } else if instruction_form(code).is_none() && declaration_layout(code).is_none() {
        Some(Rule::K4)
    } else {
        None
    }
}

/// The same of the token at a place.
fn rule_at(bytes: &[u8], n: u32, at: u32) -> Option<Rule>
    requires inside { at < n }
    requires words { n ≤ length (words_of bytes.now) }
    ensures { result ≡ early_rule (words_between bytes.now at n) }
{
    rule_of_token(word(bytes, at), n - at)
}

/// The first broken rule of the part at a place and of those behind it, from the first of the part
/// alone: where that is a missing word, the next token may break a rule of a lower number there.
pub(crate) fn first_reached(bytes: &[u8], n: u32, at: u32, refusal: Refusal) -> Refusal
    requires inside { at < n }
    requires words { n ≤ length (words_of bytes.now) }
    requires size { n ≤ 65536 }
    requires refused { Some refusal ≡ first (instruction_faults Base at (words_between bytes.now at n)) }
    ensures { first (body_faults Base 0 at (words_between bytes.now at n)) ≡ Some result }
{
    let end = at + field(word(bytes, at), 30, 24);
    if refusal.place != end {
        return refusal;
    }
    if n <= end {
        return refusal;
    }
    match rule_at(bytes, n, end) {
        Some(rule) => Refusal { rule, place: end },
        None => refusal,
    }
}

/// What holds of the rules of tokens that words break, for the proofs of callers: those of the head;
/// and where the head breaks none those that the part at a place breaks which is reached, part by
/// part. It does nothing when it runs.
pub fn fault_laws()
    ensures { (profile : Profile) (words : List ℕ) (r : Refusal)
        → Contains (program_faults profile words) r ↔ (Contains (header_faults words) r ⊎ IsBrokenInside profile words r) }
{}
