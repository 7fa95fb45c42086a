//! Words of the lane, and words that it is given.
ghost use Rattle.std.specs.Prelude.{◌≡◌, ◌+◌, ◌≤◌, ◌<◌, ◌^◌, [], ◌∷◌, Some, false};
ghost use Rattle.spirv_symbols.specs.Tables.{Has};
ghost use Rattle.spirv_symbols.specs.declared.symbol.Symbol.TheVariants.{AType, Constant, Input};
ghost use Rattle.spirv_symbols.specs.declared.symbol.TypeSymbol.TheVariants.{WordPointer};
ghost use Rattle.spirv_words.specs.Values.{Word as AWord};
ghost use Rattle.spirv_emit.specs.Begun.{IsBegun, IsThere};
ghost use Rattle.spirv_emit.specs.Emission.{words_left, ids_left};
ghost use Rattle.shader_tree.specs.declared.node.Space.TheVariants.{Temps};
ghost use Rattle.spirv_emit.specs.Joins.{always};
ghost use Rattle.spirv_emit.specs.Lanes.{IsUsed};
ghost use Rattle.spirv_emit.specs.Reads.{the_word, space_word, input_word, flat_word, variable_of, array_of};
ghost use Rattle.spirv_emit.specs.Values.{Gives, a_word};

use crate::emitter::Emitter;
use kept_values::{Word, kept_laws};
use shader_tree::Space;
use spirv_symbols::{Symbol, TypeSymbol};
use spirv_words::{built_in, op, storage_class};

impl Emitter {
    /// The pointers to a word of a storage class that is always there.
    pub(crate) fn pointer(&self, class: u32) -> u32
        requires there { IsThere self.now.symbols.entries (AType (WordPointer class)) }
        ensures { Has self.now.symbols.entries (AType (WordPointer class)) result }
    {
        self.id_of(Symbol::AType(TypeSymbol::WordPointer(class)))
    }

    /// A word.
    pub(crate) fn constant(&mut self, word: u32) -> u32
        requires begun { IsBegun self.old }
        requires words { 4 ≤ words_left self.old }
        requires ids { 1 ≤ ids_left self.old }
        ensures gives { Gives self.old self.new [] (a_word result ∷ []) (always (AWord word)) }
        ensures has { Has self.new.symbols.entries (Constant word) result }
        ensures fits { word < 2 ^ 32 }
        ensures begun { IsBegun self.new }
        ensures words { words_left self.old ≤ words_left self.new + 4 }
        ensures ids { ids_left self.old ≤ ids_left self.new + 1 }
    {
        self.named(Symbol::Constant(word))
    }

    /// A word of the lane that has a variable of its own, kept from then on.
    pub(crate) fn local_word(&mut self, word: Word, variable: Symbol) -> u32
        requires variable { variable_of word ≡ Some variable }
        requires used { IsUsed self.old.frame word }
        requires begun { IsBegun self.old }
        requires words { 9 ≤ words_left self.old }
        requires ids { 2 ≤ ids_left self.old }
        ensures gives { Gives self.old self.new [] (a_word result ∷ []) (the_word word) }
        ensures begun { IsBegun self.new }
        ensures words { words_left self.old ≤ words_left self.new + 9 }
        ensures ids { ids_left self.old ≤ ids_left self.new + 2 }
    {
        if let Some(id) = self.kept.find(word) {
            return id;
        }
        let place = self.named(variable);
        let type_id = self.word_type();
        let id = self.value(op::LOAD, type_id, &[place]);
        if self.kept.holds(word) {
            self.keep(word, id);
        }
        id
    }

    /// A word of a space with an array of its own, at an index inside.
    pub(crate) fn array_word(&mut self, space: Space, variable: Symbol, index: u32) -> u32
        requires array { array_of space ≡ Some variable }
        requires used { space ≡ Temps → self.old.frame.separate ≡ false }
        requires there { IsThere self.old.symbols.entries variable }
        requires begun { IsBegun self.old }
        requires words { 9 ≤ words_left self.old }
        requires ids { 2 ≤ ids_left self.old }
        ensures gives { Gives self.old self.new (a_word index ∷ []) (a_word result ∷ []) (space_word space) }
        ensures begun { IsBegun self.new }
        ensures words { words_left self.old ≤ words_left self.new + 9 }
        ensures ids { ids_left self.old ≤ ids_left self.new + 2 }
    {
        kept_laws();
        let array = self.id_of(variable);
        let pointer = self.pointer(storage_class::FUNCTION);
        let place = self.value(op::ACCESS_CHAIN, pointer, &[array, index]);
        let type_id = self.word_type();
        self.value(op::LOAD, type_id, &[place])
    }

    /// The number of the thread in its group.
    pub(crate) fn flat_thread(&mut self) -> u32
        requires there { IsThere self.old.symbols.entries (Input 29) }
        requires begun { IsBegun self.old }
        requires words { 4 ≤ words_left self.old }
        requires ids { 1 ≤ ids_left self.old }
        ensures gives { Gives self.old self.new [] (a_word result ∷ []) (flat_word) }
        ensures begun { IsBegun self.new }
        ensures words { words_left self.old ≤ words_left self.new + 4 }
        ensures ids { ids_left self.old ≤ ids_left self.new + 1 }
    {
        let place = self.id_of(Symbol::Input(built_in::LOCAL_INVOCATION_INDEX));
        let type_id = self.word_type();
        self.value(op::LOAD, type_id, &[place])
    }

    /// A component of an input of three words.
    pub(crate) fn component(&mut self, kind: u32, place: u32) -> u32
        requires kind { kind < 29 }
        requires place { place < 3 }
        requires there { IsThere self.old.symbols.entries (Input kind) }
        requires begun { IsBegun self.old }
        requires words { 13 ≤ words_left self.old }
        requires ids { 3 ≤ ids_left self.old }
        ensures gives { Gives self.old self.new [] (a_word result ∷ []) (input_word kind place) }
        ensures begun { IsBegun self.new }
        ensures words { words_left self.old ≤ words_left self.new + 13 }
        ensures ids { ids_left self.old ≤ ids_left self.new + 3 }
    {
        let index = self.constant(place);
        let input = self.id_of(Symbol::Input(kind));
        let pointer = self.pointer(storage_class::INPUT);
        let word = self.value(op::ACCESS_CHAIN, pointer, &[input, index]);
        let type_id = self.word_type();
        self.value(op::LOAD, type_id, &[word])
    }
}
