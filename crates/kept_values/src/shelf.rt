// The words of one sort.

ghost use Rattle.std.specs.Prelude.{◌≡◌, ◌≢◌, ◌<◌, ◌++◌, ◌∷◌, [], ℕ, List, length, ◌-◌, slice_get, slice_set, true, Some, IsSome, IfSome, IfNone, IfOk};
ghost use Rattle.kept_values.specs.Numbers.{has};
ghost use Rattle.kept_values.specs.Shelves.{Shelved, shelved, id_of, joined, all_but_last};

use crate::numbers::{Numbers, zeros};
use node_pool::Pool;
use std::alloc::Global;
use std::marker::Model;
use word_base::NoMemory;

/// The ids of the words of one sort whose numbers are below a limit, and those words that are not in memory
/// yet.
#[derive(Drop)]
pub(crate) struct Shelf {
    kept: Numbers,
    ids: Pool<u32>,
    waiting: Numbers,
}

impl Model for Shelf {
    ghost use Rattle.std.specs.Prelude.{◌≡◌, length};
    ghost use Rattle.kept_values.specs.Shelves.{Shelved, shelved, IsShelved};

    ghost Value = { Shelved };

    ghost view = { λ s. shelved s.kept.list s.ids.list s.waiting.list };

    ghost invariant = { λ s. (s.kept.capacity ≡ length s.ids.list) × (s.waiting.capacity ≡ length s.ids.list)
        × IsShelved (shelved s.kept.list s.ids.list s.waiting.list) };
}

impl Shelf {
    /// A shelf with nothing on it, for words below a limit.
    ///
    /// # Errors
    ///
    /// `NoMemory` where the places cannot be had.
    pub(crate) fn make(alloc: Global, limit: u32) -> Result<Shelf, NoMemory>
        ensures kept { IfOk result (λ s. s.kept ≡ []) }
        ensures waiting { IfOk result (λ s. s.waiting ≡ []) }
        ensures limit { IfOk result (λ s. length s.ids ≡ limit) }
    {
        let kept = Numbers::make(alloc, limit)?;
        let ids = zeros(alloc, limit)?;
        let waiting = Numbers::make(alloc, limit)?;
        Ok(Shelf { kept, ids, waiting })
    }

    /// How many words may have ids: those whose numbers are below.
    pub(crate) fn limit(&self) -> u32
        ensures { result ≡ length self.now.ids }
    {
        self.ids.len()
    }

    /// The id of a word, if it has one.
    pub(crate) fn find(&self, number: u32) -> Option<u32>
        ensures id { result ≡ id_of self.now number }
        ensures within { IsSome result → number < length self.now.ids }
        ensures clean { has self.now.waiting number ≡ true → has self.now.kept number ≡ true }
    {
        if self.kept.has(number) {
            Some(self.ids.get(number))
        } else {
            None
        }
    }

    /// Gives a word an id.
    pub(crate) fn keep(&mut self, number: u32, id: u32)
        requires { number < length self.old.ids }
        ensures { self.new ≡ shelved (joined self.old.kept number) (slice_set self.old.ids number id) self.old.waiting }
    {
        if !self.kept.has(number) {
            self.kept.add(number);
        }
        self.ids.set(number, id);
    }

    /// Gives a word an id, and lets it wait.
    pub(crate) fn put(&mut self, number: u32, id: u32)
        requires { number < length self.old.ids }
        ensures { self.new ≡ shelved (joined self.old.kept number) (slice_set self.old.ids number id)
            (joined self.old.waiting number) }
    {
        self.keep(number, id);
        if !self.waiting.has(number) {
            self.waiting.add(number);
        }
    }

    /// How many words wait.
    pub(crate) fn waiting(&self) -> u32
        ensures { result ≡ length self.now.waiting }
    {
        self.waiting.len()
    }

    /// The last of the words that wait, and its id.
    pub(crate) fn last(&self) -> Option<(u32, u32)>
        ensures last { IfSome result (λ r. slice_get self.now.waiting (length self.now.waiting - 1) ≡ Some r.0) }
        ensures id { IfSome result (λ r. id_of self.now r.0 ≡ Some r.1) }
        ensures within { IfSome result (λ r. r.0 < length self.now.ids) }
        ensures none { IfNone result (self.now.waiting ≡ []) }
    {
        let count = self.waiting.len();
        if count == 0 {
            return None;
        }
        let number = self.waiting.at(count - 1);
        Some((number, self.ids.get(number)))
    }

    /// Lets the last of the words that wait, if there is one, wait no longer.
    pub(crate) fn settle(&mut self)
        ensures { self.new ≡ record self.old { waiting = all_but_last self.old.waiting } }
    {
        if self.waiting.len() > 0 {
            self.waiting.drop_last();
        }
    }

    /// Takes all ids out.
    pub(crate) fn clear(&mut self)
        ensures { self.new ≡ shelved [] self.old.ids [] }
    {
        self.kept.clear();
        self.waiting.clear();
    }
}
