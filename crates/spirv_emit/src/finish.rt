//! The words of a finished module.
ghost use Rattle.std.specs.Prelude.{◌≡◌, ℕ, ◌+◌, ◌<◌, ◌≤◌, ◌++◌, List, length, slice_get, Some};
ghost use Rattle.word_base.specs.Words.{AreWords};
ghost use Rattle.spirv_words.specs.Text.{Instr, header_of, words_of_code};
ghost use Rattle.spirv_symbols.specs.declared.symbol.Symbol.TheVariants.{Main, FirstLabel};
ghost use Rattle.spirv_symbols.specs.Contexts.{IsSmall};
ghost use Rattle.spirv_symbols.specs.Tables.{Stands, weight};
ghost use Rattle.spirv_symbols.specs.Orders.{Sorts};
ghost use Rattle.spirv_symbols.specs.Modules.{interface, module_of};
ghost use Rattle.spirv_symbols.specs.ModuleWords.{kind_of};
ghost use Rattle.spirv_emit.specs.Begun.{IsThere};
ghost use Rattle.spirv_emit.specs.Finished.{text_of};

use crate::emitter::Emitter;
use spirv_symbols::{Ascending, Kind, length_laws};
use spirv_words::{model, op};

impl Emitter {
    /// Ends the function and writes the rest of the module behind its code.
    ///
    /// Returns how many words the function's code has with its end. The words of the module are those behind
    /// them, and then those: `word` finds each.
    pub fn finish(&mut self, kind: Kind, constants: &mut Ascending) -> u32
        requires stands { Stands self.old.frame.context self.old.symbols }
        requires small { IsSmall self.old.frame.context }
        requires few { length (interface kind.version self.old.symbols.entries) < 65000 }
        requires main { IsThere self.old.symbols.entries Main }
        requires label { IsThere self.old.symbols.entries FirstLabel }
        requires constants { self.old.symbols.limit ≤ constants.old.capacity }
        requires room { length self.old.code.list + weight self.old.frame.context self.old.symbols.entries
            + length (interface kind.version self.old.symbols.entries) + 22 ≤ self.old.code.capacity }
        ensures symbols { self.new.symbols ≡ self.old.symbols }
        ensures frame { self.new.frame ≡ self.old.frame }
        ensures kept { self.new.kept ≡ self.old.kept }
        ensures capacity { self.new.code.capacity ≡ self.old.code.capacity }
        ensures sorted { Sorts self.old.symbols.entries constants.new.list }
        ensures spare { constants.new.capacity ≡ constants.old.capacity }
        ensures body { result ≡ length self.old.code.list + 1 }
        ensures within { result ≤ length self.new.code.list }
        ensures text { (body : List Instr) → self.old.code.list ≡ words_of_code body
            → text_of result self.new.code.list
            ≡ header_of (module_of self.old.frame.context (kind_of kind) self.old.symbols.entries constants.new.list
            body
            self.old.symbols.next)
            ++ words_of_code (module_of self.old.frame.context (kind_of kind) self.old.symbols.entries
            constants.new.list body self.old.symbols.next).code }
    {
        length_laws();
        let bound = self.symbols.next();
        constants.take_from(&self.frame.context, &self.symbols);
        self.code.push(0x1_0000 + op::FUNCTION_END);
        let body = self.code.len();
        self.code.push(model::MAGIC_NUMBER);
        self.code.push(kind.version);
        self.code.push(0);
        self.code.push(bound);
        self.code.push(0);
        self.symbols
            .put_front(&self.frame.context, kind, constants, &mut self.code);
        self.symbols.put_head(&self.frame.context, &mut self.code);
        body
    }

    /// The number of words of the module, once it is finished.
    pub fn len(&self) -> u32
        ensures { result ≡ length self.now.code.list }
    {
        self.code.len()
    }

    /// That the words of a finished module are words, and no more than there is room for, for the proofs of callers.
    /// It does nothing when it runs.
    #[tactic(auto, using(crate::proofs::TextWords::text_words))]
    pub fn word_laws(&self)
        ensures words { (body : ℕ) → AreWords (text_of body self.now.code.list) }
        ensures within { length self.now.code.list ≤ self.now.code.capacity }
    {
        self.code.word_laws();
    }

    /// The word of the finished module with that number, counted from 0, where the function's code has so many
    /// words with its end.
    pub fn word(&self, body: u32, i: u32) -> u32
        requires body { body ≤ length self.now.code.list }
        requires within { i < length self.now.code.list }
        ensures { slice_get (text_of body self.now.code.list) i ≡ Some result }
    {
        let behind = self.code.len() - body;
        if i < behind {
            self.code.get(body + i)
        } else {
            self.code.get(i - behind)
        }
    }
}
