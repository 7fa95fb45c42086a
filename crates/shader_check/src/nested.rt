ghost use Rattle.std.specs.Prelude.{◌≡◌, ◌<◌, IfErr, IfNone, IfOk, None, Some, length};
ghost use Rattle.word_base.specs.Rules.{first};
ghost use Rattle.tpf_decode.specs.Profiles.{Base};
ghost use Rattle.tpf_decode.specs.Opcodes.{meaning_of};
ghost use Rattle.tpf_decode.specs.Refusals.{refusal_of};
ghost use Rattle.tpf_program.specs.Cases.{previous_case};
ghost use Rattle.tpf_program.specs.Ends.{has};
ghost use Rattle.tpf_program.specs.Nesting.{is_return, last_from, nesting_refusals};
ghost use Rattle.tpf_program.specs.Program.{AreInOrder};
ghost use Rattle.shader_check.specs.Nested.{GoesOn, IsPassed, at_end, is_behind, last_number, openings, rule_visited};

use crate::constructs::Nesting;
use tpf_decode::{Meaning, instruction_meaning};
use tpf_program::Program;
use word_base::{Refusal, Rule};

/// Whether the instruction `q` is a case whose value the innermost construct around it already has.
fn is_again(program: &Program, nesting: &Nesting, q: u32) -> bool
    requires { q < length program.now.shader.instructions }
    ensures { result ≡ is_behind nesting.now.around.opening (previous_case Base program.now.shader.instructions q) }
{
    match (nesting.around.opening, program.previous_case(q)) {
        (Some(opening), Some(before)) => opening < before,
        _ => false,
    }
}

/// The first rule of the structure that the instruction `q` with that opcode breaks. Where it breaks
/// none the constructs are then those around the next instruction.
fn visit(program: &Program, nesting: &mut Nesting, q: u32, code: u32) -> Option<Rule>
    requires { q < length program.now.shader.instructions }
    ensures rule { result
        ≡ rule_visited nesting.old (previous_case Base program.now.shader.instructions q) (meaning_of Base code) }
    ensures next { IfNone result (GoesOn nesting.old (meaning_of Base code) q nesting.new) }
{
    let Some(meaning) = instruction_meaning(code) else {
        return None;
    };
    let again = is_again(program, nesting, q);
    if let Some(rule) = nesting.rule(again, meaning) {
        return Some(rule);
    }
    nesting.step(meaning, q);
    None
}

/// The rule that counts where an instruction breaks this one, and is or is not the last. A nesting that is
/// too deep stands behind the rule that the last instruction is `ret`.
fn counted(last: bool, rule: Rule) -> Rule
    ensures { result ≡ at_end last rule }
{
    match rule {
        Rule::M3 if last => Rule::S9,
        _ => rule,
    }
}

/// Walks over the instructions, and answers the opening of the outermost construct that is never
/// closed.
///
/// # Errors
///
/// The first rule of the structure that is broken, where an instruction on the way breaks one.
fn walk(program: &Program) -> Result<Option<u32>, Refusal>
    requires order { AreInOrder (λ i. i.place) program.now.shader.words program.now.shader.instructions }
    ensures refused { IfErr result (λ r. Some r ≡ first (nesting_refusals Base program.now.shader)) }
    ensures passed { IfOk result (IsPassed program.now.shader.instructions) }
{
    let count = program.instructions();
    let mut nesting = Nesting::none();
    for q in 0..count {
        let instruction = program.instruction(q);
        if let Some(rule) = visit(program, &mut nesting, q, instruction.code) {
            let place = instruction.place;
            let rule = counted(q + 1 == count, rule);
            return Err(Refusal { rule, place });
        }
    }
    Ok(nesting.outermost())
}

/// Whether an opcode is that of `ret`.
fn returns(code: u32) -> bool
    ensures { result ≡ has is_return (meaning_of Base code) }
{
    matches!(instruction_meaning(code), Some(Meaning::Return))
}

/// Tests the last instruction of a program whose constructs are all closed.
///
/// # Errors
///
/// `S9` where it is not `ret`, at its place, or there is none, at the number of words.
#[tactic(auto, using(crate::proofs::NestedEnds::last_missing))]
fn ends_in_return(program: &Program) -> Result<(), Refusal>
    requires closed { None
        ≡ last_number (openings program.now.shader.instructions (length program.now.shader.instructions)) }
    ensures { refusal_of result ≡ first (last_from Base program.now.shader.words program.now.shader.instructions 0
        program.now.shader.instructions) }
{
    let count = program.instructions();
    if count == 0 {
        let place = program.words();
        let rule = Rule::S9;
        return Err(Refusal { rule, place });
    }
    let last = program.instruction(count - 1);
    if returns(last.code) {
        Ok(())
    } else {
        let place = last.place;
        let rule = Rule::S9;
        Err(Refusal { rule, place })
    }
}

/// Tests the rules on the structure of a program. It takes no memory.
///
/// # Errors
///
/// The first that is broken, by its place and then by its number, with `M3` behind the others of its
/// place. `S2` stands at the outermost construct that is never closed, where no other rule but `S9` is
/// broken.
pub(crate) fn refused_structure(program: &Program) -> Result<(), Refusal>
    requires order { AreInOrder (λ i. i.place) program.now.shader.words program.now.shader.instructions }
    ensures { refusal_of result ≡ first (nesting_refusals Base program.now.shader) }
{
    match walk(program) {
        Err(refusal) => Err(refusal),
        Ok(Some(n)) => {
            let place = program.instruction(n).place;
            let rule = Rule::S2;
            Err(Refusal { rule, place })
        }
        Ok(None) => ends_in_return(program),
    }
}
