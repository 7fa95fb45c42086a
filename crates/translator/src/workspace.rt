//! What a translation works in.
ghost use Rattle.std.specs.Prelude.{◌≡◌, ◌*◌, ◌+◌, ◌^◌, ◌<◌, ◌≤◌, List, Some, length, slice_get, IfErr, IfOk, OnOk};
ghost use Rattle.word_base.specs.Rules.{IsFirst};
ghost use Rattle.tpf_program.specs.Program.{Shader};
ghost use Rattle.binding_map.specs.Bindings.{Binding};
ghost use Rattle.translator.specs.Accepted.{IsRead};
ghost use Rattle.translator.specs.Held.{HasRooms, IsUnused, SameRooms};
ghost use Rattle.translator.specs.Input.{IsBroken};

use crate::accepting::accept;
use shader_tree::Tree;
use spirv_emit::{Emitter, Sizes};
use spirv_symbols::Ascending;
use std::alloc::Global;
use std::marker::Model;
use tpf_program::Program;
use word_base::{NoMemory, Refusal};

/// The scratch words that a tree gives values to.
const SCRATCH: u32 = 18;

/// The words of registers that an emitter may keep as ids.
const REGISTERS: u32 = 16_384;

/// What a translation works in: the program that was read last, and the module of the last translation that was not
/// refused.
///
/// It has room for programs of so many words, and takes no memory after it is made.
#[derive(Drop)]
pub struct Workspace {
    pub(crate) words: u32,
    pub(crate) program: Program,
    pub(crate) tree: Tree,
    pub(crate) emitter: Emitter,
    pub(crate) constants: Ascending,
    pub(crate) body: u32,
}

impl Model for Workspace {
    ghost use Rattle.std.specs.Prelude.{◌≡◌, ◌≤◌, length};
    ghost use Rattle.spirv_emit.specs.Finished.{text_of};
    ghost use Rattle.translator.specs.Held.{Held, HasRooms};
    ghost use Rattle.translator.specs.Lowered.{HasRoomFor};
    ghost use Rattle.translator.specs.Showing.{held};

    ghost Value = { Held };

    ghost view = { λ w. held w.words w.program.shader w.tree w.emitter w.body };

    ghost invariant = { λ w. record {
      rooms : HasRooms w.words (held w.words w.program.shader w.tree w.emitter w.body);
      program_room : w.program.room ≡ w.words;
      program_short : w.program.shader.words ≤ w.words;
      room : HasRoomFor w.words w.tree w.emitter w.constants;
      body : w.body ≤ length w.emitter.code.list;
      short : length w.emitter.code.list ≤ w.emitter.code.capacity;
    } };
}

impl Workspace {
    /// Makes a workspace in which no module is held, with room for programs of up to `words` words.
    ///
    /// # Errors
    ///
    /// `NoMemory` where the room cannot be had.
    pub fn make(alloc: Global, words: u32) -> Result<Workspace, NoMemory>
        requires { words ≤ 65536 }
        ensures rooms { IfOk result (λ w. HasRooms words w) }
        ensures unused { IfOk result (λ w. IsUnused w) }
    {
        let program = Program::make(alloc, words)?;
        let tree = Tree::make(alloc, 16 * words + 256)?;
        let sizes = Sizes {
            ids: 48 * words + 4096,
            words: 256 * words + 8192,
            declared: 2 * words,
            buffers: words,
            scratch: SCRATCH,
            registers: REGISTERS,
        };
        let emitter = Emitter::make(alloc, sizes)?;
        let constants = Ascending::make(alloc, 48 * words + 4096)?;
        Ok(Workspace {
            words,
            program,
            tree,
            emitter,
            constants,
            body: 0,
        })
    }

    /// Returns how many words the longest program has that there is room for.
    pub fn words(&self) -> u32
        ensures { result ≡ self.now.words }
    {
        self.words
    }

    /// Reads the program of a container, in place of what the workspace held, and tests its rules: all but those of its
    /// bindings. It takes no memory, and no module is held then.
    ///
    /// # Errors
    ///
    /// The first broken rule, whatever the bindings are: of the container; of the head of its program, and `M4` at 1
    /// where that names more words than the workspace has room for; of the program's tokens; and of its declarations,
    /// of what it uses and of its structure.
    pub fn read(&mut self, bytes: &[u8]) -> Result<(), Refusal>
        requires { length bytes.now ≤ 16777216 }
        ensures read { OnOk result (IsRead self.old.words bytes.now self.new.program) }
        ensures refused { (map_for : Shader → List Binding)
            → IfErr result (IsFirst (IsBroken self.old.words bytes.now map_for)) }
        ensures rooms { SameRooms self.old self.new }
        ensures unused { IsUnused self.new }
    {
        self.clear();
        accept(&mut self.program, bytes)
    }

    /// Lends the program that was read last.
    pub fn program(&self) -> &Program
        ensures { result.now.shader ≡ self.now.program }
    {
        &self.program
    }

    /// Lets the workspace go, with its room. A caller that goes on in several ways hands it here at the end of all.
    pub fn release(self) {}

    /// Lets go of the module that is held. The room stays.
    pub(crate) fn clear(&mut self)
        ensures unused { IsUnused self.new }
        ensures rooms { SameRooms self.old self.new }
        ensures program { self.new.program ≡ self.old.program }
    {
        self.tree.clear();
        self.emitter.clear();
        self.body = 0;
    }

    /// The number of words of the module that is held.
    pub(crate) fn len(&self) -> u32
        ensures len { result ≡ length self.now.text }
        ensures short { 4 * result < 2 ^ 32 }
    {
        self.emitter.len()
    }

    /// The word with that number of the module that is held.
    pub(crate) fn word(&self, i: u32) -> u32
        requires { i < length self.now.text }
        ensures { slice_get self.now.text i ≡ Some result }
    {
        self.emitter.word(self.body, i)
    }

    /// The tree of the module that is held.
    pub(crate) fn tree(&self) -> &Tree
        ensures { result.now ≡ self.now.tree }
    {
        &self.tree
    }
}
