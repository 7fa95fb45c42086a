ghost use Rattle.std.specs.Prelude.{◌≡◌, ◌<◌, ◌≤◌, Some, [], ◌∷◌, length, slice_get};
ghost use Rattle.tpf_decode.specs.Opcodes.{form_of_meaning, roles_of};
ghost use Rattle.tpf_program.specs.Spelling.{operands};
ghost use Rattle.tpf_program.specs.Uses.{is_indexed, is_thing, operand_uses, use_of, uses};
ghost use Rattle.shader_check.specs.Things.{both_faults, fault_at, faults_of, rule_among, rule_using, used_before};

use crate::things::{Faults, Things};
use tpf_decode::{Meaning, instruction_meaning};
use tpf_program::{Argument, Instruction, Kind, Program};
use word_base::{Refusal, Rule};

/// Whether an operand of that kind names something.
fn names_thing(kind: Kind) -> bool
    ensures { result ≡ is_thing kind }
{
    !matches!(kind, Kind::Immediate | Kind::Null)
}

/// The rules that an instruction breaks by a thing that it names.
fn faults_by(things: &Things, meaning: Meaning, kind: Kind, slot: u32) -> Faults
    ensures { result ≡ fault_at things.now meaning (use_of kind slot) }
{
    let entry = things.named(kind, slot);
    Faults {
        missing: names_thing(kind) && !entry.declared,
        past: entry.declared && matches!(kind, Kind::Temp) && things.temps <= slot,
        other: entry.differs_from(meaning),
    }
}

/// The rules that one of two breaks.
fn joined(left: Faults, right: Faults) -> Faults
    ensures { result ≡ both_faults left right }
{
    Faults {
        missing: left.missing || right.missing,
        past: left.past || right.past,
        other: left.other || right.other,
    }
}

/// Whether what is added to an index of that kind is named too.
fn adds(kind: Kind) -> bool
    ensures { result ≡ is_indexed kind }
{
    matches!(
        kind,
        Kind::Indexable | Kind::Constant | Kind::ImmediateConstant
    )
}

/// The rules that an instruction breaks by an operand.
#[tactic(auto, using(crate::proofs::Faults::one_fault, crate::proofs::Faults::two_faults))]
fn operand_faults(things: &Things, meaning: Meaning, operand: Argument) -> Faults
    ensures { result ≡ faults_of things.now meaning (operand_uses operand) }
{
    let named = faults_by(things, meaning, operand.kind, operand.slot);
    match operand.relative {
        Some(relative) if adds(operand.kind) => {
            joined(
                named,
                faults_by(things, meaning, relative.kind, relative.slot),
            )
        }
        _ => named,
    }
}

/// How many operands the instruction has.
fn operand_count(meaning: Meaning) -> usize
    ensures count { result ≡ length (roles_of (form_of_meaning meaning)) }
    ensures few { result ≤ 5 }
{
    meaning.form().roles().len()
}

/// The operand with that number, counted from 0.
fn operand_at(instruction: Instruction, i: usize) -> Argument
    requires { i < 5 }
    ensures { slice_get (operands instruction) i ≡ Some result }
{
    match i {
        0 => instruction.o0,
        1 => instruction.o1,
        2 => instruction.o2,
        3 => instruction.o3,
        _ => instruction.o4,
    }
}

/// The rules that an instruction with that meaning breaks by what it names.
fn instruction_faults(things: &Things, meaning: Meaning, instruction: Instruction) -> Faults
    ensures { result ≡ faults_of things.now meaning (uses meaning instruction) }
{
    let mut faults = Faults::NONE;
    for i in 0..operand_count(meaning) {
        let operand = operand_at(instruction, i);
        faults = joined(faults, operand_faults(things, meaning, operand));
    }
    faults
}

/// The first of the rules that are broken.
fn first_rule(faults: Faults) -> Option<Rule>
    ensures { result ≡ rule_among faults }
{
    if faults.missing {
        Some(Rule::L5)
    } else if faults.past {
        Some(Rule::L6)
    } else if faults.other {
        Some(Rule::L8)
    } else {
        None
    }
}

/// The first rule that an instruction breaks by what it names.
fn rule_of_uses(things: &Things, instruction: Instruction) -> Option<Rule>
    ensures { result ≡ rule_using things.now instruction }
{
    match instruction_meaning(instruction.code) {
        Some(meaning) => first_rule(instruction_faults(things, meaning, instruction)),
        None => None,
    }
}

/// The first rule that the instructions before a place break by what they name.
pub(crate) fn refused_before(program: &Program, things: &Things, end: u32) -> Option<Refusal>
    ensures { result ≡ used_before things.now end program.now.shader.instructions }
{
    for i in 0..program.instructions() {
        let instruction = program.instruction(i);
        if instruction.place >= end {
            return None;
        }
        if let Some(rule) = rule_of_uses(things, instruction) {
            return Some(Refusal {
                rule,
                place: instruction.place,
            });
        }
    }
    None
}
