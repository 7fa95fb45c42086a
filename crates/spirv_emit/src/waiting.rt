//! Words of the lane that have ids and are not in memory yet.
ghost use Rattle.std.specs.Prelude.{◌≡◌, ℕ, ◌+◌, ◌≤◌, ◌<◌, [], length, IsTrue, IfSome, IfNone};
ghost use Rattle.kept_values.specs.Tables.{dirty_in, holds, limits_in, IsLast};
ghost use Rattle.kept_values.specs.declared.word.Word.{Word as Kept};
ghost use Rattle.spirv_emit.specs.Begun.{IsBegun, HasVariable};
ghost use Rattle.spirv_emit.specs.Emission.{words_left, ids_left, waiting_words, waiting_ids};
ghost use Rattle.spirv_emit.specs.Steps.{IsPut, IsPopped, IsDropped, IsEmptied};

use crate::emitter::Emitter;
use kept_values::Word;

impl Emitter {
    /// Gives a word an id, and lets it wait. It must not be an array's.
    pub(crate) fn put(&mut self, word: Word, id: u32)
        requires begun { IsBegun self.old }
        requires holds { IsTrue (holds (limits_in self.old.kept) word) }
        requires own { HasVariable word }
        requires below { id < self.old.symbols.next }
        requires words { waiting_words word ≤ words_left self.old }
        requires ids { waiting_ids word ≤ ids_left self.old }
        ensures put { IsPut self.old self.new word id }
        ensures begun { IsBegun self.new }
        ensures words { words_left self.old ≤ words_left self.new + waiting_words word }
        ensures ids { ids_left self.old ≤ ids_left self.new + waiting_ids word }
    {
        self.kept.put(word, id);
    }

    /// Takes the last of the words that wait for one that is in memory, and returns it with its id, if one waits.
    pub(crate) fn take_waiting(&mut self) -> Option<(Word, u32)>
        requires begun { IsBegun self.old }
        ensures popped { IfSome result (λ r. IsPopped self.old self.new r.0 r.1) }
        ensures none { IfNone result (dirty_in self.old.kept ≡ []) }
        ensures same { IfNone result (self.new ≡ self.old) }
        ensures last { IfSome result (λ r. IsLast self.old.kept r.0 r.1) }
        ensures begun { IsBegun self.new }
        ensures words { IfSome result (λ r. words_left self.old + waiting_words r.0 ≤ words_left self.new) }
        ensures ids { IfSome result (λ r. ids_left self.old + waiting_ids r.0 ≤ ids_left self.new) }
    {
        match self.kept.last() {
            Some(last) => {
                self.kept.settle();
                Some(last)
            },
            None => None,
        }
    }

    /// Takes out the words of arrays.
    pub(crate) fn drop_elements(&mut self)
        requires { IsBegun self.old }
        ensures dropped { IsDropped self.old self.new }
        ensures begun { IsBegun self.new }
        ensures words { words_left self.new ≡ words_left self.old }
        ensures ids { ids_left self.new ≡ ids_left self.old }
    {
        self.kept.drop_elements();
    }

    /// Takes all words out, none of which may wait.
    pub(crate) fn forget(&mut self)
        requires begun { IsBegun self.old }
        requires clean { dirty_in self.old.kept ≡ [] }
        ensures emptied { IsEmptied self.old self.new }
        ensures begun { IsBegun self.new }
        ensures words { words_left self.new ≡ words_left self.old }
        ensures ids { ids_left self.new ≡ ids_left self.old }
    {
        self.kept.clear();
    }
}
