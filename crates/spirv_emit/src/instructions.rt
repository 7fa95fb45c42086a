//! Single instructions on words and truths.
ghost use Rattle.std.specs.Prelude.{◌≡◌, ◌+◌, ◌≤◌, ◌<◌, [], ◌∷◌, Some};
ghost use Rattle.spirv_words.specs.Roles.{AWord, ATruth, APair};
ghost use Rattle.spirv_words.specs.Operations.{computes, one, two, three, four};
ghost use Rattle.spirv_emit.specs.Begun.{IsBegun};
ghost use Rattle.spirv_emit.specs.Emission.{words_left, ids_left};
ghost use Rattle.spirv_emit.specs.Operations.{row_at, calc, choosing, finding, taking};
ghost use Rattle.spirv_emit.specs.Values.{Gives, a_word, a_truth, a_pair};

use crate::emitter::Emitter;
use spirv_words::op;

impl Emitter {
    /// A word that an instruction on one word gives.
    pub(crate) fn one_word(&mut self, op: u32, a: u32) -> u32
        requires operation { row_at op ≡ Some (computes op one AWord AWord) }
        requires short { op < 65536 }
        requires begun { IsBegun self.old }
        requires words { 4 ≤ words_left self.old }
        requires ids { 1 ≤ ids_left self.old }
        ensures gives { Gives self.old self.new (a_word a ∷ []) (a_word result ∷ []) (calc op) }
        ensures begun { IsBegun self.new }
        ensures words { words_left self.old ≤ words_left self.new + 4 }
        ensures ids { ids_left self.old ≤ ids_left self.new + 1 }
    {
        let type_id = self.word_type();
        self.value(op, type_id, &[a])
    }

    /// A word that an instruction on two words gives.
    pub(crate) fn two_words(&mut self, op: u32, a: u32, b: u32) -> u32
        requires operation { row_at op ≡ Some (computes op two AWord AWord) }
        requires short { op < 65536 }
        requires begun { IsBegun self.old }
        requires words { 5 ≤ words_left self.old }
        requires ids { 1 ≤ ids_left self.old }
        ensures gives { Gives self.old self.new (a_word a ∷ a_word b ∷ []) (a_word result ∷ []) (calc op) }
        ensures begun { IsBegun self.new }
        ensures words { words_left self.old ≤ words_left self.new + 5 }
        ensures ids { ids_left self.old ≤ ids_left self.new + 1 }
    {
        let type_id = self.word_type();
        self.value(op, type_id, &[a, b])
    }

    /// A word that an instruction on three words gives.
    pub(crate) fn three_words(&mut self, op: u32, a: u32, b: u32, c: u32) -> u32
        requires operation { row_at op ≡ Some (computes op three AWord AWord) }
        requires short { op < 65536 }
        requires begun { IsBegun self.old }
        requires words { 6 ≤ words_left self.old }
        requires ids { 1 ≤ ids_left self.old }
        ensures gives { Gives self.old self.new (a_word a ∷ a_word b ∷ a_word c ∷ []) (a_word result ∷ []) (calc op) }
        ensures begun { IsBegun self.new }
        ensures words { words_left self.old ≤ words_left self.new + 6 }
        ensures ids { ids_left self.old ≤ ids_left self.new + 1 }
    {
        let type_id = self.word_type();
        self.value(op, type_id, &[a, b, c])
    }

    /// A word that an instruction on four words gives.
    pub(crate) fn four_words(&mut self, op: u32, a: u32, b: u32, c: u32, d: u32) -> u32
        requires operation { row_at op ≡ Some (computes op four AWord AWord) }
        requires short { op < 65536 }
        requires begun { IsBegun self.old }
        requires words { 7 ≤ words_left self.old }
        requires ids { 1 ≤ ids_left self.old }
        ensures gives { Gives self.old self.new (a_word a ∷ a_word b ∷ a_word c ∷ a_word d ∷ []) (a_word result ∷ [])
            (calc op) }
        ensures begun { IsBegun self.new }
        ensures words { words_left self.old ≤ words_left self.new + 7 }
        ensures ids { ids_left self.old ≤ ids_left self.new + 1 }
    {
        let type_id = self.word_type();
        self.value(op, type_id, &[a, b, c, d])
    }

    /// A truth that an instruction on two words gives.
    pub(crate) fn compare(&mut self, op: u32, a: u32, b: u32) -> u32
        requires operation { row_at op ≡ Some (computes op two ATruth AWord) }
        requires short { op < 65536 }
        requires begun { IsBegun self.old }
        requires words { 5 ≤ words_left self.old }
        requires ids { 1 ≤ ids_left self.old }
        ensures gives { Gives self.old self.new (a_word a ∷ a_word b ∷ []) (a_truth result ∷ []) (calc op) }
        ensures begun { IsBegun self.new }
        ensures words { words_left self.old ≤ words_left self.new + 5 }
        ensures ids { ids_left self.old ≤ ids_left self.new + 1 }
    {
        let type_id = self.truth_type();
        self.value(op, type_id, &[a, b])
    }

    /// A truth that an instruction on two truths gives.
    pub(crate) fn both_truths(&mut self, op: u32, a: u32, b: u32) -> u32
        requires operation { row_at op ≡ Some (computes op two ATruth ATruth) }
        requires short { op < 65536 }
        requires begun { IsBegun self.old }
        requires words { 5 ≤ words_left self.old }
        requires ids { 1 ≤ ids_left self.old }
        ensures gives { Gives self.old self.new (a_truth a ∷ a_truth b ∷ []) (a_truth result ∷ []) (calc op) }
        ensures begun { IsBegun self.new }
        ensures words { words_left self.old ≤ words_left self.new + 5 }
        ensures ids { ids_left self.old ≤ ids_left self.new + 1 }
    {
        let type_id = self.truth_type();
        self.value(op, type_id, &[a, b])
    }

    /// Two words that an instruction on two words gives.
    pub(crate) fn pair(&mut self, op: u32, a: u32, b: u32) -> u32
        requires operation { row_at op ≡ Some (computes op two APair AWord) }
        requires short { op < 65536 }
        requires begun { IsBegun self.old }
        requires words { 5 ≤ words_left self.old }
        requires ids { 1 ≤ ids_left self.old }
        ensures gives { Gives self.old self.new (a_word a ∷ a_word b ∷ []) (a_pair result ∷ []) (calc op) }
        ensures begun { IsBegun self.new }
        ensures words { words_left self.old ≤ words_left self.new + 5 }
        ensures ids { ids_left self.old ≤ ids_left self.new + 1 }
    {
        let type_id = self.pair_type();
        self.value(op, type_id, &[a, b])
    }

    /// One of two words, by a truth.
    pub(crate) fn choose(&mut self, truth: u32, a: u32, b: u32) -> u32
        requires begun { IsBegun self.old }
        requires words { 6 ≤ words_left self.old }
        requires ids { 1 ≤ ids_left self.old }
        ensures gives { Gives self.old self.new (a_truth truth ∷ a_word a ∷ a_word b ∷ []) (a_word result ∷ [])
            (choosing) }
        ensures begun { IsBegun self.new }
        ensures words { words_left self.old ≤ words_left self.new + 6 }
        ensures ids { ids_left self.old ≤ ids_left self.new + 1 }
    {
        let type_id = self.word_type();
        self.value(op::SELECT, type_id, &[truth, a, b])
    }

    /// A word that an extended instruction on one word gives, by its number.
    pub(crate) fn find_bit(&mut self, which: u32, a: u32) -> u32
        requires begun { IsBegun self.old }
        requires words { 6 ≤ words_left self.old }
        requires ids { 1 ≤ ids_left self.old }
        ensures gives { Gives self.old self.new (a_word a ∷ []) (a_word result ∷ []) (finding which) }
        ensures begun { IsBegun self.new }
        ensures words { words_left self.old ≤ words_left self.new + 6 }
        ensures ids { ids_left self.old ≤ ids_left self.new + 1 }
    {
        let type_id = self.word_type();
        let set = self.extended();
        self.value(op::EXT_INST, type_id, &[set, which, a])
    }

    /// A word of two, counted from 0.
    pub(crate) fn part(&mut self, pair: u32, place: u32) -> u32
        requires place { place < 2 }
        requires begun { IsBegun self.old }
        requires words { 5 ≤ words_left self.old }
        requires ids { 1 ≤ ids_left self.old }
        ensures gives { Gives self.old self.new (a_pair pair ∷ []) (a_word result ∷ []) (taking place) }
        ensures begun { IsBegun self.new }
        ensures words { words_left self.old ≤ words_left self.new + 5 }
        ensures ids { ids_left self.old ≤ ids_left self.new + 1 }
    {
        let type_id = self.word_type();
        self.value(op::COMPOSITE_EXTRACT, type_id, &[pair, place])
    }
}
