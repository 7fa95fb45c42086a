//! Words of the lane wait, or go to memory.
ghost use Rattle.std.specs.Prelude.{◌≡◌, ◌+◌, ◌≤◌, ◌<◌, [], ◌∷◌, length, Some, false};
ghost use Rattle.kept_values.specs.Tables.{dirty_in};
ghost use Rattle.spirv_words.specs.StorageClass as storage;
ghost use Rattle.spirv_symbols.specs.declared.symbol.Symbol.{Symbol as Variable};
ghost use Rattle.spirv_symbols.specs.declared.symbol.Symbol.TheVariants.{AType, Constant as AConstant};
ghost use Rattle.spirv_symbols.specs.declared.symbol.TypeSymbol.TheVariants.{WordPointer};
ghost use Rattle.spirv_symbols.specs.Rows.{needs, words_of};
ghost use Rattle.spirv_emit.specs.Begun.{IsBegun, HasVariable};
ghost use Rattle.spirv_emit.specs.Blocks.{Assigns};
ghost use Rattle.spirv_emit.specs.Emission.{words_left, ids_left, waiting_words, waiting_ids};
ghost use Rattle.spirv_emit.specs.Growing.{is_global};
ghost use Rattle.spirv_emit.specs.Reads.{variable_of};
ghost use Rattle.spirv_emit.specs.Steps.{StoresTo};
ghost use Rattle.spirv_emit.specs.Values.{Saves, Flushed};

use crate::emitter::Emitter;
use kept_values::Word;
use spirv_symbols::Symbol;
use spirv_words::op;

impl Emitter {
    /// Writes an id's word to the variable of one word.
    fn store_to(&mut self, variable: Symbol, id: u32)
        requires begun { IsBegun self.old }
        requires own { is_global variable ≡ false }
        requires needs { needs self.old.frame.context variable
            ≡ AType (WordPointer storage.Function) ∷ AConstant 0 ∷ [] }
        requires size { words_of self.old.frame.context variable ≡ 5 }
        requires words { 8 ≤ words_left self.old }
        requires ids { 1 ≤ ids_left self.old }
        ensures stores { StoresTo self.old self.new variable id }
        ensures begun { IsBegun self.new }
        ensures words { words_left self.old ≤ words_left self.new + 8 }
        ensures ids { ids_left self.old ≤ ids_left self.new + 1 }
    {
        let pointer = self.named(variable);
        self.act(op::STORE, &[pointer, id]);
    }

    /// Writes an id's word to the variable of a word of the lane. It must not be an array's.
    fn store_word(&mut self, word: Word, id: u32)
        requires begun { IsBegun self.old }
        requires own { HasVariable word }
        requires words { waiting_words word ≤ words_left self.old }
        requires ids { waiting_ids word ≤ ids_left self.old }
        ensures stores { (s : Variable) → variable_of word ≡ Some s → StoresTo self.old self.new s id }
        ensures begun { IsBegun self.new }
        ensures words { words_left self.old ≤ words_left self.new + waiting_words word }
        ensures ids { ids_left self.old ≤ ids_left self.new + waiting_ids word }
    {
        match word {
            Word::Scratch(n) => self.store_to(Symbol::Scratch(n), id),
            Word::Register(k) => self.store_to(Symbol::Register(k), id),
            Word::Element(_) => unreachable!(),
        }
    }

    /// Gives a word of the lane the word of an id: it waits where the table has a place for it, and else goes to its
    /// variable. It must not be an array's.
    pub(crate) fn assign(&mut self, word: Word, id: u32)
        requires begun { IsBegun self.old }
        requires own { HasVariable word }
        requires below { id < self.old.symbols.next }
        requires words { waiting_words word ≤ words_left self.old }
        requires ids { waiting_ids word ≤ ids_left self.old }
        ensures assigns { Assigns self.old self.new word id }
        ensures begun { IsBegun self.new }
        ensures words { words_left self.old ≤ words_left self.new + waiting_words word }
        ensures ids { ids_left self.old ≤ ids_left self.new + waiting_ids word }
    {
        if self.kept.holds(word) {
            self.put(word, id);
            return;
        }
        match self.kept.find(word) {
            Some(_) => unreachable!(),
            None => self.store_word(word, id),
        }
    }

    /// Writes the last of the words that wait to its variable.
    fn save(&mut self)
        requires begun { IsBegun self.old }
        requires some { 0 < length (dirty_in self.old.kept) }
        ensures saves { Saves self.old self.new }
        ensures begun { IsBegun self.new }
        ensures words { words_left self.old ≤ words_left self.new }
        ensures ids { ids_left self.old ≤ ids_left self.new }
    {
        match self.take_waiting() {
            Some((word, id)) => self.store_word(word, id),
            None => {},
        }
    }

    /// Writes all words that wait to their variables: in front of the end of a block.
    pub fn flush(&mut self)
        requires { IsBegun self.old }
        ensures flushed { Flushed self.old self.new }
        ensures begun { IsBegun self.new }
        ensures words { words_left self.old ≤ words_left self.new }
        ensures ids { ids_left self.old ≤ ids_left self.new }
    {
        for _ in 0..self.kept.waiting() {
            self.save();
        }
    }
}
