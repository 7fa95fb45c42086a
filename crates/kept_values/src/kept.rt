ghost use Rattle.std.specs.Prelude.{◌≡◌, ◌≢◌, ◌-◌, ℕ, [], length, Some, None, IsTrue, IsSome, IfSome, IfNone, IfOk};
ghost use Rattle.kept_values.specs.Shelves.{all_but_last};
ghost use Rattle.kept_values.specs.Tables.{id_in, dirty_in, elements_in, limits_in, limits, holds, Among, IsEmpty, Keeps, Puts, IsLast, Pops, Comes, Drops};
ghost use Rattle.kept_values.specs.declared.word.Word.{Word as AWord};

use crate::shelf::Shelf;
use crate::word::Word;
use std::alloc::Global;
use std::marker::Model;
use word_base::NoMemory;

/// The words of a lane that have ids in the block that is being written, and those that wait: whose value
/// is not in memory yet.
///
/// Only `make` takes memory.
#[derive(Drop)]
pub struct Kept {
    scratch: Shelf,
    registers: Shelf,
    elements: Shelf,
}

impl Model for Kept {
    ghost use Rattle.kept_values.specs.Tables.{Table, table};

    ghost Value = { Table };

    ghost view = { λ k. table k.scratch k.registers k.elements };
}

impl Kept {
    /// A table with nothing in it, for words of each sort with numbers below what is given.
    ///
    /// # Errors
    ///
    /// `NoMemory` where the places cannot be had.
    #[tactic(auto, unfolding(crate::specs::Tables::id_in, crate::specs::Tables::dirty_in))]
    pub fn make(
        alloc: Global,
        scratch: u32,
        registers: u32,
        elements: u32,
    ) -> Result<Kept, NoMemory>
        ensures empty { IfOk result (λ t. IsEmpty t) }
        ensures limits { IfOk result (λ t. limits_in t ≡ limits scratch registers elements) }
    {
        let scratch = Shelf::make(alloc, scratch)?;
        let registers = Shelf::make(alloc, registers)?;
        let elements = Shelf::make(alloc, elements)?;
        Ok(Kept {
            scratch,
            registers,
            elements,
        })
    }

    /// Whether a word may have an id: its number is below what the table was made with.
    #[tactic(auto, unfolding(crate::specs::Tables::id_in, crate::specs::Tables::dirty_in))]
    pub fn holds(&self, word: Word) -> bool
        ensures { result ≡ holds (limits_in self.now) word }
    {
        match word {
            Word::Scratch(n) => n < self.scratch.limit(),
            Word::Register(n) => n < self.registers.limit(),
            Word::Element(n) => n < self.elements.limit(),
        }
    }

    /// The id of a word, if it has one. A word without an id does not wait.
    #[tactic(auto, using(crate::proofs::Waits::waits), unfolding(crate::specs::Tables::id_in))]
    pub fn find(&self, word: Word) -> Option<u32>
        ensures found { IfSome result (λ id. id_in self.now word ≡ Some id) }
        ensures absent { IfNone result (id_in self.now word ≡ None) }
        ensures clean { IfNone result (Among (dirty_in self.now) word → ⊥) }
        ensures within { IsSome result → IsTrue (holds (limits_in self.now) word) }
    {
        match word {
            Word::Scratch(n) => self.scratch.find(n),
            Word::Register(n) => self.registers.find(n),
            Word::Element(n) => self.elements.find(n),
        }
    }

    /// Gives a word that is in memory an id, in place of the one that it has.
    #[tactic(auto, unfolding(crate::specs::Tables::id_in, crate::specs::Tables::dirty_in))]
    pub fn keep(&mut self, word: Word, id: u32)
        requires { IsTrue (holds (limits_in self.old) word) }
        ensures keeps { Keeps self.old self.new word id }
        ensures comes { Comes self.old self.new id }
        ensures limits { limits_in self.new ≡ limits_in self.old }
        ensures elements { elements_in self.new ≡ elements_in self.old }
    {
        match word {
            Word::Scratch(n) => self.scratch.keep(n, id),
            Word::Register(n) => self.registers.keep(n, id),
            Word::Element(n) => self.elements.keep(n, id),
        }
    }

    /// Gives a word an id, in place of the one that it has, and lets it wait.
    #[tactic(auto, unfolding(crate::specs::Tables::id_in, crate::specs::Tables::dirty_in))]
    pub fn put(&mut self, word: Word, id: u32)
        requires { IsTrue (holds (limits_in self.old) word) }
        ensures puts { Puts self.old self.new word id }
        ensures comes { Comes self.old self.new id }
        ensures limits { limits_in self.new ≡ limits_in self.old }
    {
        match word {
            Word::Scratch(n) => self.scratch.put(n, id),
            Word::Register(n) => self.registers.put(n, id),
            Word::Element(n) => self.elements.put(n, id),
        }
    }

    /// How many words wait.
    #[tactic(auto, unfolding(crate::specs::Tables::id_in, crate::specs::Tables::dirty_in))]
    pub fn waiting(&self) -> usize
        ensures { result ≡ length (dirty_in self.now) }
    {
        self.scratch.waiting() as usize
            + self.registers.waiting() as usize
            + self.elements.waiting() as usize
    }

    /// How many words of arrays wait.
    #[tactic(auto, unfolding(crate::specs::Tables::id_in, crate::specs::Tables::dirty_in))]
    pub fn waiting_elements(&self) -> u32
        ensures count { result ≡ length (elements_in self.now) }
        ensures none { result ≡ 0 → elements_in self.now ≡ [] }
    {
        self.elements.waiting()
    }

    /// The last of the words that wait, and its id: a word of an array, as long as one waits.
    #[tactic(auto, unfolding(crate::specs::Tables::id_in, crate::specs::Tables::dirty_in))]
    pub fn last(&self) -> Option<(Word, u32)>
        ensures last { IfSome result (λ r. IsLast self.now r.0 r.1) }
        ensures none { IfNone result (dirty_in self.now ≡ []) }
        ensures within { IfSome result (λ r. IsTrue (holds (limits_in self.now) r.0)) }
    {
        if let Some((number, id)) = self.elements.last() {
            return Some((Word::Element(number), id));
        }
        if let Some((number, id)) = self.registers.last() {
            return Some((Word::Register(number), id));
        }
        match self.scratch.last() {
            Some((number, id)) => Some((Word::Scratch(number), id)),
            None => None,
        }
    }

    /// Takes the last of the words that wait for one that is in memory.
    #[tactic(auto, unfolding(crate::specs::Tables::id_in, crate::specs::Tables::dirty_in))]
    pub fn settle(&mut self)
        ensures ids { (k : AWord) → id_in self.new k ≡ id_in self.old k }
        ensures pops { (k : AWord) (id : ℕ) → IsLast self.old k id → Pops self.old self.new k id }
        ensures elements { elements_in self.new ≡ all_but_last (elements_in self.old) }
        ensures limits { limits_in self.new ≡ limits_in self.old }
    {
        if self.elements.waiting() > 0 {
            self.elements.settle();
        } else if self.registers.waiting() > 0 {
            self.registers.settle();
        } else {
            self.scratch.settle();
        }
    }

    /// Takes out the words of arrays, none of which may wait.
    #[tactic(auto, unfolding(crate::specs::Tables::id_in, crate::specs::Tables::dirty_in))]
    pub fn drop_elements(&mut self)
        requires { elements_in self.old ≡ [] }
        ensures drops { Drops self.old self.new }
        ensures limits { limits_in self.new ≡ limits_in self.old }
    {
        self.elements.clear();
    }

    /// Takes all words out.
    #[tactic(auto, unfolding(crate::specs::Tables::id_in, crate::specs::Tables::dirty_in))]
    pub fn clear(&mut self)
        ensures empty { IsEmpty self.new }
        ensures limits { limits_in self.new ≡ limits_in self.old }
    {
        self.scratch.clear();
        self.registers.clear();
        self.elements.clear();
    }
}
