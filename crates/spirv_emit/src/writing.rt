//! One instruction, one symbol, one id.
ghost use Rattle.std.specs.Prelude.{◌≡◌, ℕ, ◌+◌, ◌≤◌, ◌<◌, ◌^◌, ◌∷◌, ◌++◌, length, IsTrue, Some, false};
ghost use Rattle.spirv_words.specs.Text.{instr, is_instr, words_of_instr};
ghost use Rattle.spirv_symbols.specs.Rows.{needs, words_of};
ghost use Rattle.spirv_symbols.specs.Tables.{Has, AreThere};
ghost use Rattle.kept_values.specs.Tables.{holds, limits_in};
ghost use Rattle.spirv_emit.specs.Begun.{IsBegun, IsThere};
ghost use Rattle.spirv_emit.specs.Emission.{words_left, ids_left};
ghost use Rattle.spirv_emit.specs.Growing.{is_global};
ghost use Rattle.spirv_emit.specs.Steps.{Acts, Adds, Takes, Named, IsKept};

use crate::emitter::Emitter;
use kept_values::Word;
use node_pool::Pool;
use spirv_symbols::Symbol;

/// Adds words to a pool.
fn extend(words: &mut Pool<u32>, more: &[u32])
    requires room { length words.old.list + length more.now ≤ words.old.capacity }
    ensures list { words.new.list ≡ words.old.list ++ more.now }
    ensures capacity { words.new.capacity ≡ words.old.capacity }
{
    for word in more {
        words.push(*word);
    }
}

/// Adds the words of an instruction to a pool. Its operands are those of two lists.
fn put(words: &mut Pool<u32>, op: u32, front: &[u32], back: &[u32])
    requires op { op < 65536 }
    requires short { length front.now + length back.now < 65535 }
    requires room { length words.old.list + (length front.now + length back.now + 1) ≤ words.old.capacity }
    ensures list { words.new.list ≡ words.old.list ++ words_of_instr (instr op (front.now ++ back.now)) }
    ensures capacity { words.new.capacity ≡ words.old.capacity }
{
    words.push(65536 * ((front.len() + back.len()) as u32 + 1) + op);
    extend(words, front);
    extend(words, back);
}

impl Emitter {
    /// The id of a symbol that is there.
    pub(crate) fn id_of(&self, symbol: Symbol) -> u32
        requires { IsThere self.now.symbols.entries symbol }
        ensures { Has self.now.symbols.entries symbol result }
    {
        match self.symbols.find(symbol) {
            Some(id) => id,
            None => unreachable!(),
        }
    }

    /// An id that is no symbol's.
    pub(crate) fn fresh(&mut self) -> u32
        requires begun { IsBegun self.old }
        requires ids { 1 ≤ ids_left self.old }
        ensures takes { Takes self.old self.new result }
        ensures begun { IsBegun self.new }
        ensures words { words_left self.new ≡ words_left self.old }
        ensures ids { ids_left self.old ≤ ids_left self.new + 1 }
    {
        self.symbols.fresh()
    }

    /// Adds an instruction without a value, by its number and operands.
    pub(crate) fn act(&mut self, op: u32, operands: &[u32])
        requires begun { IsBegun self.old }
        requires op { op < 65536 }
        requires fits { IsTrue (is_instr (instr op operands.now)) }
        requires words { length operands.now + 1 ≤ words_left self.old }
        ensures acts { Acts self.old self.new (instr op operands.now) }
        ensures begun { IsBegun self.new }
        ensures words { words_left self.old ≤ words_left self.new + (length operands.now + 1) }
        ensures ids { ids_left self.new ≡ ids_left self.old }
    {
        put(&mut self.code, op, &[], operands);
    }

    /// Adds an instruction with a value, by its number, the id of its type and its operands, and returns the
    /// id of the value.
    pub(crate) fn value(&mut self, op: u32, type_id: u32, operands: &[u32]) -> u32
        requires begun { IsBegun self.old }
        requires op { op < 65536 }
        requires fits { (r : ℕ) → IsTrue (is_instr (instr op (type_id ∷ r ∷ operands.now))) }
        requires words { length operands.now + 3 ≤ words_left self.old }
        requires ids { 1 ≤ ids_left self.old }
        ensures adds { Adds self.old self.new (instr op (type_id ∷ result ∷ operands.now)) result }
        ensures begun { IsBegun self.new }
        ensures words { words_left self.old ≤ words_left self.new + (length operands.now + 3) }
        ensures ids { ids_left self.old ≤ ids_left self.new + 1 }
    {
        let result = self.symbols.fresh();
        put(&mut self.code, op, &[type_id, result], operands);
        result
    }

    /// The id of a symbol that is no global variable's, which is made where there is none. What it needs must
    /// be there.
    pub(crate) fn named(&mut self, symbol: Symbol) -> u32
        requires begun { IsBegun self.old }
        requires own { is_global symbol ≡ false }
        requires needs { AreThere self.old.symbols.entries (needs self.old.frame.context symbol) self.old.symbols.next }
        requires words { words_of self.old.frame.context symbol ≤ words_left self.old }
        requires ids { 1 ≤ ids_left self.old }
        ensures named { Named self.old self.new symbol result }
        ensures begun { IsBegun self.new }
        ensures words { words_left self.old ≤ words_left self.new + words_of self.old.frame.context symbol }
        ensures ids { ids_left self.old ≤ ids_left self.new + 1 }
    {
        self.symbols.put(&self.frame.context, symbol)
    }

    /// Gives a word that is in memory an id, if it is one that may have one.
    pub(crate) fn keep(&mut self, word: Word, id: u32)
        requires begun { IsBegun self.old }
        requires holds { IsTrue (holds (limits_in self.old.kept) word) }
        requires below { id < self.old.symbols.next }
        ensures kept { IsKept self.old self.new word id }
        ensures begun { IsBegun self.new }
        ensures words { words_left self.new ≡ words_left self.old }
        ensures ids { ids_left self.new ≡ ids_left self.old }
    {
        self.kept.keep(word, id);
    }
}
