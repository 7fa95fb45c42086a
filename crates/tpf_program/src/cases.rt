ghost use Rattle.std.specs.Prelude.{◌≡◌, ℕ, ◌<◌, [], ◌∷◌, ◌++◌, length, true, IfOk};
ghost use Rattle.tpf_decode.specs.Opcodes.{meaning_of};
ghost use Rattle.tpf_decode.specs.Profiles.{Base};
ghost use Rattle.tpf_program.specs.Cases.{case_before_at, is_any_case, last_case, level};
ghost use Rattle.tpf_program.specs.Ends.{count, means};
ghost use Rattle.tpf_program.specs.Kept.{AreLast};
ghost use Rattle.tpf_program.specs.Steps.{step_of};
ghost use Rattle.tpf_program.specs.KeptCases.{AreCases, AreLevels, IsOfRoom, IsRoomFor};

use crate::instruction::Instruction;
use node_pool::{Key, Keys, Pool};
use std::alloc::Global;
use tpf_decode::{Meaning, instruction_meaning};
use word_base::NoMemory;

/// What an instruction is for the cases behind it.
pub(crate) enum Step {
    /// A case.
    Case,
    /// An opening of a construct.
    Opens,
    /// A close of one.
    Closes,
    /// Anything else.
    Other,
}

fn step_at(code: u32) -> Step
    ensures { result ≡ step_of (meaning_of Base code) }
{
    match instruction_meaning(code) {
        Some(Meaning::Case) => Step::Case,
        Some(Meaning::If | Meaning::Loop | Meaning::Switch) => Step::Opens,
        Some(Meaning::EndIf | Meaning::EndLoop | Meaning::EndSwitch) => Step::Closes,
        _ => Step::Other,
    }
}

/// What is kept of the instructions of a program that is read, to find the case before each.
#[derive(Drop)]
pub(crate) struct Cases {
    /// How many instructions open a construct.
    pub(crate) openings: u32,
    /// How many close one.
    pub(crate) closings: u32,
    /// The levels and values that cases have.
    pub(crate) keys: Keys,
    /// The last case of each.
    pub(crate) last: Pool<u32>,
    /// The case before each instruction.
    pub(crate) previous: Pool<Option<u32>>,
}

impl Cases {
    /// Makes room for the instructions of so many words. A case has at least three.
    ///
    /// # Errors
    ///
    /// `NoMemory` where the room cannot be had.
    pub(crate) fn make(alloc: Global, words: u32) -> Result<Cases, NoMemory>
        ensures { IfOk result (λ c. IsOfRoom words c × AreCases [] c) }
    {
        let keys = Keys::make(alloc, words / 3)?;
        let last = Pool::make(alloc, words / 3)?;
        let previous = Pool::make(alloc, words)?;
        Ok(Cases {
            openings: 0,
            closings: 0,
            keys,
            last,
            previous,
        })
    }

    /// Forgets all instructions.
    pub(crate) fn clear(&mut self)
        ensures stands { AreCases [] self.new }
        ensures room { (room : ℕ) → IsOfRoom room self.old → IsOfRoom room self.new }
    {
        self.openings = 0;
        self.closings = 0;
        self.keys.clear();
        self.last.clear();
        self.previous.clear();
    }

    /// Counts an instruction behind those that are kept, and gives the case before it.
    fn pass(&mut self, code: &Pool<Instruction>, instruction: Instruction) -> Option<u32>
        requires stands { AreCases code.now.list self.old }
        requires room { IsOfRoom code.now.capacity self.old }
        requires more { length code.now.list < code.now.capacity }
        requires few { length code.now.list < 65536 }
        requires cases { IsRoomFor code.now.capacity code.now.list instruction }
        ensures levels { AreLevels (code.now.list ++ instruction ∷ []) self.new }
        ensures last { AreLast (code.now.list ++ instruction ∷ []) self.new.keys.list self.new.last.list }
        ensures before { result ≡ case_before_at Base code.now.list (length code.now.list) instruction }
        ensures previous { self.new.previous ≡ self.old.previous }
        ensures room { IsOfRoom code.now.capacity self.new }
    {
        match step_at(instruction.code) {
            Step::Case => {
                let depth = self.openings.saturating_sub(self.closings);
                add_case(&mut self.keys, &mut self.last, code, instruction, depth)
            }
            Step::Opens => {
                self.openings += 1;
                None
            }
            Step::Closes => {
                self.closings += 1;
                None
            }
            Step::Other => None,
        }
    }

    /// Adds an instruction behind those that are kept.
    pub(crate) fn add(&mut self, code: &Pool<Instruction>, instruction: Instruction)
        requires stands { AreCases code.now.list self.old }
        requires room { IsOfRoom code.now.capacity self.old }
        requires more { length code.now.list < code.now.capacity }
        requires few { length code.now.list < 65536 }
        requires cases { IsRoomFor code.now.capacity code.now.list instruction }
        ensures stands { AreCases (code.now.list ++ instruction ∷ []) self.new }
        ensures room { IsOfRoom code.now.capacity self.new }
    {
        let previous = self.pass(code, instruction);
        self.previous.push(previous);
    }
}

/// Makes a case of a level the last one of its value, and gives the one that was.
fn add_case(
    keys: &mut Keys,
    last: &mut Pool<u32>,
    code: &Pool<Instruction>,
    case: Instruction,
    depth: u32,
) -> Option<u32>
    requires last { AreLast code.now.list keys.old.list last.old.list }
    requires case { means Base is_any_case case ≡ true }
    requires depth { depth ≡ level Base code.now.list (length code.now.list) }
    requires room { count Base is_any_case code.now.list < keys.old.capacity }
    requires room_behind { count Base is_any_case code.now.list < last.old.capacity }
    ensures last { AreLast (code.now.list ++ case ∷ []) keys.new.list last.new.list }
    ensures before { result ≡ last_case Base code.now.list case.o0.x depth (length code.now.list) }
    ensures room { keys.new.capacity ≡ keys.old.capacity }
    ensures room_behind { last.new.capacity ≡ last.old.capacity }
{
    let key = Key {
        kind: depth,
        number: case.o0.x,
    };
    keys.key_laws();
    match keys.find(key) {
        Some(k) => {
            let before = last.get(k);
            last.set(k, code.len());
            Some(before)
        }
        None => {
            keys.add(key);
            last.push(code.len());
            None
        }
    }
}
