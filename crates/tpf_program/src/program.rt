ghost use Rattle.std.specs.Prelude.{◌≡◌, ◌<◌, ◌≤◌, [], Some, length, slice_get, IfOk};
ghost use Rattle.word_base.specs.Settings.{axes};
ghost use Rattle.tpf_program.specs.Declarations.{threads_in};
ghost use Rattle.tpf_program.specs.Extents.{shared_extent, words_declared};
ghost use Rattle.tpf_decode.specs.Profiles.{Base};
ghost use Rattle.tpf_program.specs.Cases.{previous_case};
ghost use Rattle.tpf_program.specs.Program.{AreApart, AreInOrder, empty, kept, unread};
ghost use Rattle.tpf_program.specs.Sizes.{temps_declared, temps_of, elements_declared, elements_of, vectors_declared, vectors_of};

use crate::cases::Cases;
use crate::declaration::{Declaration, Declared, SharedKind, ThreadGroup};
use crate::instruction::Instruction;
use node_pool::Pool;
use std::alloc::Global;
use std::marker::Model;
use word_base::NoMemory;

/// A program: its number of words, its declarations and instructions in their order, each with its
/// place, and the words of its immediate constant buffers, one buffer after the other.
///
/// It has room for programs of so many words, and takes no memory after it is made.
#[derive(Drop)]
pub struct Program {
    pub(crate) words: u32,
    pub(crate) declarations: Pool<Declared>,
    pub(crate) constants: Pool<u32>,
    pub(crate) instructions: Pool<Instruction>,
    pub(crate) cases: Cases,
}

impl Model for Program {
    ghost use Rattle.std.specs.Prelude.{◌≡◌, ◌≤◌, [], length};
    ghost use Rattle.tpf_program.specs.Program.{Kept, AreApart, AreInOrder};
    ghost use Rattle.tpf_program.specs.KeptCases.{AreCases, IsOfRoom};

    ghost Value = { Kept };

    ghost view = { λ p. record {
      shader = record {
        words = p.words;
        declarations = p.declarations.list;
        constants = p.constants.list;
        instructions = p.instructions.list;
        typed = [];
      };
      room = p.declarations.capacity;
    } };

    ghost invariant = { λ p. record {
      constants_room : p.constants.capacity ≡ p.declarations.capacity;
      instructions_room : p.instructions.capacity ≡ p.declarations.capacity;
      cases_room : IsOfRoom p.declarations.capacity p.cases;
      few_instructions : length p.instructions.list ≤ 65536;
      declarations_in_order : AreInOrder (λ d. d.place) p.words p.declarations.list;
      instructions_in_order : AreInOrder (λ i. i.place) p.words p.instructions.list;
      apart : AreApart p.declarations.list p.instructions.list;
      cases : AreCases p.instructions.list p.cases;
    } };
}

/// The registers that a declaration names.
fn temps_at(what: Declaration) -> u32
    ensures { result ≡ temps_declared what }
{
    match what {
        Declaration::Temps(count) => count,
        _ => 0,
    }
}

/// The elements that a declaration gives to an indexable register.
fn elements_at(slot: u32, what: Declaration) -> u32
    ensures { result ≡ elements_declared slot what }
{
    match what {
        Declaration::Indexable {
            slot: other,
            count,
            ..
        } if other == slot => count,
        _ => 0,
    }
}

/// The vectors that a declaration gives to a constant buffer.
fn vectors_at(slot: u32, what: Declaration) -> u32
    ensures { result ≡ vectors_declared slot what }
{
    match what {
        Declaration::Constants { slot: other, size } if other == slot => size,
        _ => 0,
    }
}

/// The words that a declaration gives to a slot of shared memory.
fn words_at(slot: u32, what: Declaration) -> u64
    ensures { result ≡ words_declared slot what }
{
    match what {
        Declaration::Shared { slot: other, kind } if other == slot => match kind {
            SharedKind::Raw { bytes } => u64::from(bytes / 4),
            SharedKind::Structured { stride, count } => u64::from(stride / 4) * u64::from(count),
        },
        _ => 0,
    }
}

impl Program {
    /// Makes the empty program, which has 0 words, with room for programs of `words` words.
    ///
    /// # Errors
    ///
    /// `NoMemory` where the room cannot be had.
    pub fn make(alloc: Global, words: u32) -> Result<Program, NoMemory>
        ensures { IfOk result (λ p. p ≡ kept empty words) }
    {
        let declarations = Pool::make(alloc, words)?;
        let constants = Pool::make(alloc, words)?;
        let instructions = Pool::make(alloc, words)?;
        let cases = Cases::make(alloc, words)?;
        Ok(Program {
            words: 0,
            declarations,
            constants,
            instructions,
            cases,
        })
    }

    /// The number of words of the longest program that there is room for.
    pub fn room(&self) -> u32
        ensures { result ≡ self.now.room }
    {
        self.declarations.capacity()
    }

    /// Begins a program of that number of words, of which nothing is read yet. The room stays.
    pub(crate) fn begin(&mut self, words: u32)
        ensures { self.new ≡ kept (unread words) self.old.room }
    {
        self.words = words;
        self.declarations.clear();
        self.constants.clear();
        self.instructions.clear();
        self.cases.clear();
    }

    /// The number of words, the version token and the length token included.
    pub fn words(&self) -> u32
        ensures { result ≡ self.now.shader.words }
    {
        self.words
    }

    /// The number of declarations.
    pub fn declarations(&self) -> u32
        ensures { result ≡ length self.now.shader.declarations }
    {
        self.declarations.len()
    }

    /// The declaration with that number, counted from 0.
    pub fn declaration(&self, i: u32) -> Declared
        requires { i < length self.now.shader.declarations }
        ensures { slice_get self.now.shader.declarations i ≡ Some result }
    {
        self.declarations.get(i)
    }

    /// The number of registers r#: of the counts that are declared the first that is not 0, and 0 where
    /// there is none.
    pub fn temps(&self) -> u32
        ensures { result ≡ temps_of self.now.shader.declarations }
    {
        for i in 0..self.declarations() {
            let count = temps_at(self.declaration(i).what);
            if count != 0 {
                return count;
            }
        }
        0
    }

    /// The elements of an indexable register x#: of the counts that are declared of it the first that is
    /// not 0, and 0 where there is none.
    pub fn elements(&self, slot: u32) -> u32
        ensures { result ≡ elements_of slot self.now.shader.declarations }
    {
        for i in 0..self.declarations() {
            let count = elements_at(slot, self.declaration(i).what);
            if count != 0 {
                return count;
            }
        }
        0
    }

    /// The vectors of a constant buffer cb#: of the sizes that are declared of it the first that is not 0,
    /// and 0 where there is none.
    pub fn vectors(&self, slot: u32) -> u32
        ensures { result ≡ vectors_of slot self.now.shader.declarations }
    {
        for i in 0..self.declarations() {
            let count = vectors_at(slot, self.declaration(i).what);
            if count != 0 {
                return count;
            }
        }
        0
    }

    /// The words of a slot of shared memory g#: of the sizes that are declared of it the first that is not
    /// 0, and 0 where there is none.
    pub fn shared_words(&self, slot: u32) -> u64
        ensures { result ≡ shared_extent slot self.now.shader.declarations }
    {
        for i in 0..self.declarations() {
            let words = words_at(slot, self.declaration(i).what);
            if words != 0 {
                return words;
            }
        }
        0
    }

    /// The threads of the group: those of the first declaration of one, and none without one.
    pub fn threads(&self) -> ThreadGroup
        ensures { axes result.x result.y result.z ≡ threads_in self.now.shader.declarations }
    {
        for i in 0..self.declarations() {
            if let Declaration::Group { x, y, z } = self.declaration(i).what {
                return ThreadGroup { x, y, z };
            }
        }
        ThreadGroup { x: 0, y: 0, z: 0 }
    }

    /// The number of instructions, at most 65,536.
    pub fn instructions(&self) -> u32
        ensures count { result ≡ length self.now.shader.instructions }
        ensures few { result ≤ 65536 }
    {
        self.instructions.len()
    }

    /// The instruction with that number, counted from 0.
    pub fn instruction(&self, i: u32) -> Instruction
        requires { i < length self.now.shader.instructions }
        ensures { slice_get self.now.shader.instructions i ≡ Some result }
    {
        self.instructions.get(i)
    }

    /// For a case the last one before it that has its value and stands at its level, by their numbers, and
    /// nothing for another instruction. The level is told by counting openings and closings alone: where
    /// those in front match, it is how many constructs stand around.
    pub fn previous_case(&self, i: u32) -> Option<u32>
        requires { i < length self.now.shader.instructions }
        ensures { result ≡ previous_case Base self.now.shader.instructions i }
    {
        self.cases.previous.get(i)
    }

    /// That a program of the base profile has no typed view, for the proofs of callers. It does nothing
    /// when it runs.
    pub fn typed_laws(&self)
        ensures { self.now.shader.typed ≡ [] }
    {
        let _words = &self.words;
    }

    /// That declarations and instructions stand one behind the other in the program's words, for the
    /// proofs of callers. It does nothing when it runs.
    pub fn order_laws(&self)
        ensures declarations { AreInOrder (λ d. d.place) self.now.shader.words self.now.shader.declarations }
        ensures instructions { AreInOrder (λ i. i.place) self.now.shader.words self.now.shader.instructions }
        ensures apart { AreApart self.now.shader.declarations self.now.shader.instructions }
    {
        let _words = &self.words;
    }

    /// The number of words of the immediate constant buffers.
    pub fn icb_words(&self) -> u32
        ensures { result ≡ length self.now.shader.constants }
    {
        self.constants.len()
    }

    /// The word with that number of the immediate constant buffers, counted from 0.
    pub fn icb_word(&self, i: u32) -> u32
        requires { i < length self.now.shader.constants }
        ensures { slice_get self.now.shader.constants i ≡ Some result }
    {
        self.constants.get(i)
    }
}
