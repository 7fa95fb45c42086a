ghost use Rattle.std.specs.Prelude.{◌≡◌, ◌+◌, ◌*◌, ◌%◌, ◌-◌, ◌/◌, ◌<◌, ◌≤◌, [], ◌∷◌, ◌++◌, Contains, Some, None, length, slice_index, IfOk, IfErr, OnOk};
ghost use Rattle.word_base.specs.Rules.{HaltsBy, IsFirst, first};
ghost use Rattle.word_base.specs.Words.{words_of};
ghost use Rattle.tpf_decode.specs.Refusals.{header_faults};
ghost use Rattle.tpf_decode.specs.Spelling.{words_between};
ghost use Rattle.tpf_decode.specs.Profiles.{Base};
ghost use Rattle.tpf_program.specs.Faults.{body_faults, program_faults};
ghost use Rattle.tpf_program.specs.KeptCases.{IsRoomFor};
ghost use Rattle.tpf_program.specs.Program.{IsBehind, empty};
ghost use Rattle.tpf_program.specs.Spelling.{Spells, listed};
ghost use Rattle.tpf_program.specs.Reading.{IsReadTo};

use crate::declaration::{Declaration, Declared};
use crate::fault::first_reached;
use crate::instruction::Instruction;
use crate::item::{Piece, read_piece};
use crate::operands::word;
use crate::program::Program;
use node_pool::Pool;
use std::alloc::Global;
use tpf_decode::header;
use word_base::{Halt, Refusal, first_laws, word_laws};

/// Reads the program that the data of a SHEX chunk spell: any that breaks no rule of the head and the
/// tokens.
///
/// # Errors
///
/// The first rule that is broken of the head and the tokens, by phase, then by place, then by number.
pub fn read(alloc: Global, bytes: &[u8]) -> Result<Program, Halt>
    requires whole { length bytes.now % 4 ≡ 0 }
    requires head { 8 ≤ length bytes.now }
    ensures ok { IfOk result (λ p. Spells Base p.shader (words_of bytes.now)) }
    ensures size { IfOk result (λ p. p.shader.words ≤ 65536) }
    ensures sound { OnOk result (program_faults Base (words_of bytes.now) ≡ []) }
    ensures halted { IfErr result (HaltsBy (Contains (program_faults Base (words_of bytes.now)))) }
{
    first_laws();
    let words = match header(bytes) {
        Ok(words) => words,
        Err(refusal) => return Err(Halt::Refused(refusal)),
    };
    let mut program = match Program::make(alloc, words) {
        Ok(program) => program,
        Err(_) => return Err(Halt::NoMemory),
    };
    match spelled(&mut program, bytes, words) {
        Ok(()) => Ok(program),
        Err(refusal) => Err(Halt::Refused(refusal)),
    }
}

/// Reads the program that the data of a SHEX chunk spell, any that breaks no rule of the head and the
/// tokens, into one that was made before, in place of what it held. It takes no memory. The second word
/// of the data, the program's length in words, is at most the room.
///
/// # Errors
///
/// The first rule that is broken of the head and the tokens, by phase, then by place, then by number.
/// The program is then empty, as it was made.
pub fn read_into(program: &mut Program, bytes: &[u8]) -> Result<(), Refusal>
    requires whole { length bytes.now % 4 ≡ 0 }
    requires head { 8 ≤ length bytes.now }
    requires room { slice_index (words_of bytes.now) 1 ≤ program.old.room }
    ensures ok { OnOk result (Spells Base program.new.shader (words_of bytes.now)) }
    ensures size { OnOk result (program.new.shader.words ≤ 65536) }
    ensures sound { OnOk result (program_faults Base (words_of bytes.now) ≡ []) }
    ensures refused { IfErr result (IsFirst (Contains (program_faults Base (words_of bytes.now)))) }
    ensures empty { IfErr result (λ r. program.new.shader ≡ empty) }
    ensures room { program.new.room ≡ program.old.room }
{
    first_laws();
    match read_over(program, bytes) {
        Ok(()) => Ok(()),
        Err(refusal) => {
            program.begin(0);
            Err(refusal)
        }
    }
}

/// Reads a program into one that was made before, and leaves there what was read so far where the
/// words are refused.
fn read_over(program: &mut Program, bytes: &[u8]) -> Result<(), Refusal>
    requires head { 8 ≤ length bytes.now }
    requires room { slice_index (words_of bytes.now) 1 ≤ program.old.room }
    ensures ok { OnOk result (Spells Base program.new.shader (words_of bytes.now)) }
    ensures size { OnOk result (program.new.shader.words ≤ 65536) }
    ensures sound { OnOk result (first (program_faults Base (words_of bytes.now)) ≡ None) }
    ensures refused { IfErr result (λ r. first (program_faults Base (words_of bytes.now)) ≡ Some r) }
    ensures room { program.new.room ≡ program.old.room }
{
    match header(bytes) {
        Ok(words) => spelled(program, bytes, words),
        Err(refusal) => Err(refusal),
    }
}

/// Reads any program of the base profile whose head is sound into one with room for it.
///
/// Refuses by the first broken rule of its tokens, by place, then by number.
pub(crate) fn spelled(program: &mut Program, bytes: &[u8], words: u32) -> Result<(), Refusal>
    requires head { None ≡ first (header_faults (words_of bytes.now)) }
    requires count { words ≡ slice_index (words_of bytes.now) 1 }
    requires room { words ≤ program.old.room }
    ensures ok { OnOk result (Spells Base program.new.shader (words_of bytes.now)) }
    ensures size { OnOk result (program.new.shader.words ≤ 65536) }
    ensures sound { OnOk result (first (program_faults Base (words_of bytes.now)) ≡ None) }
    ensures refused { IfErr result (λ r. first (program_faults Base (words_of bytes.now)) ≡ Some r) }
    ensures room { program.new.room ≡ program.old.room }
{
    program.begin(words);
    let mut at = 2;
    while at < words {
        at = take_piece(program, bytes, at)?;
    }
    Ok(())
}

/// Adds what stands at a place, and gives the place behind it.
fn take_piece(program: &mut Program, bytes: &[u8], at: u32) -> Result<u32, Refusal>
    requires head { 2 ≤ at }
    requires inside { at < program.now.shader.words }
    requires words { program.now.shader.words ≤ length (words_of bytes.now) }
    requires size { program.now.shader.words ≤ 65536 }
    requires room { program.now.shader.words ≤ program.now.room }
    requires read { IsReadTo (words_of bytes.now) at program.now.shader }
    ensures words { IfOk result (λ end. program.new.shader.words ≡ program.old.shader.words) }
    ensures within { IfOk result (λ end. (at < end) × (end ≤ program.old.shader.words)) }
    ensures read { IfOk result (λ end. IsReadTo (words_of bytes.now) end program.new.shader) }
    ensures refused { IfErr result (λ r. first (body_faults Base 0 at (words_between bytes.now at program.old.shader.words)) ≡ Some r) }
    ensures room { program.new.room ≡ program.old.room }
{
    let (piece, end) = match read_piece(bytes, program.words, at) {
        Ok(found) => found,
        Err(refusal) => return Err(first_reached(bytes, program.words, at, refusal)),
    };
    match piece {
        Piece::Declaration(declared) => {
            add_declaration(program, declared);
            Ok(end)
        }
        Piece::Instruction(instruction) => {
            add_instruction(program, instruction);
            Ok(end)
        }
        Piece::Constants => {
            add_constants(program, bytes, at, end);
            Ok(end)
        }
        Piece::Nothing => Ok(end),
    }
}

fn add_declaration(program: &mut Program, declared: Declared)
    requires room { length program.now.shader.declarations < program.now.room }
    requires place { IsBehind program.now.shader declared.place }
    ensures { program.new ≡ record program.old {
      shader = record program.old.shader { declarations = program.old.shader.declarations ++ declared ∷ [] };
    } }
{
    program.declarations.push(declared);
}

fn add_instruction(program: &mut Program, instruction: Instruction)
    requires room { length program.now.shader.instructions < program.now.room }
    requires few { length program.now.shader.instructions < 65536 }
    requires place { IsBehind program.now.shader instruction.place }
    requires cases { IsRoomFor program.now.room program.now.shader.instructions instruction }
    ensures { program.new ≡ record program.old {
      shader = record program.old.shader { instructions = program.old.shader.instructions ++ instruction ∷ [] };
    } }
{
    program.cases.add(&program.instructions, instruction);
    program.instructions.push(instruction);
}

/// Adds words from a place to another.
fn add_words(words: &mut Pool<u32>, bytes: &[u8], start: u32, end: u32)
    requires order { start ≤ end }
    requires words { end ≤ length (words_of bytes.now) }
    requires room { length words.now.list + (end - start) ≤ words.now.capacity }
    ensures added { words.new.list ≡ words.old.list ++ words_between bytes.now start end }
    ensures capacity { words.new.capacity ≡ words.old.capacity }
{
    for place in start..end {
        words.push(word(bytes, place));
    }
}

/// Adds an immediate constant buffer, which counts as a declaration.
fn add_constants(program: &mut Program, bytes: &[u8], at: u32, end: u32)
    requires order { at + 2 ≤ end }
    requires words { end ≤ length (words_of bytes.now) }
    requires room { length program.now.shader.constants + (end - (at + 2)) ≤ program.now.room }
    requires room_behind { length program.now.shader.declarations < program.now.room }
    requires place { IsBehind program.now.shader at }
    ensures { program.new ≡ record program.old {
      shader = record program.old.shader {
        constants = program.old.shader.constants ++ words_between bytes.now (at + 2) end;
        declarations = program.old.shader.declarations ++ listed at (words_between bytes.now (at + 2) end) ∷ [];
      };
    } }
{
    add_words(&mut program.constants, bytes, at + 2, end);
    let vectors = (end - at - 2) / 4;
    add_declaration(
        program,
        Declared {
            place: at,
            what: Declaration::ImmediateConstants { vectors },
        },
    );
}
