ghost use Rattle.std.specs.Prelude.{◌≡◌, ◌^◌, ◌<◌, ◌≤◌, [], ◌∷◌, ◌++◌, length, slice_get, slice_set, Some, IfOk};
ghost use Rattle.word_base.specs.Words.{AreWords};
ghost use Rattle.node_pool.specs.Pools.{Pooled, pooled_code, pooled, IsPool};
ghost use Rattle.node_pool.specs.Places.{stored};

use crate::region::{Region, Right, Start, give_back, take};
use std::alloc::Global;
use std::marker::Model;
use std_alloc::room::may_hold;
use word_base::NoMemory;

/// A list of items with a fixed capacity, in one region of memory that is freed with the pool.
///
/// An item is named by its index, a `u32` counted from 0. Only `make` takes memory.
pub struct Pool<T: Copy> {
    start: Start<T>,
    capacity: u32,
    count: u32,
    region: Region<T>,
    right: Right<T, Global>,
    alloc: Global,
}

impl<T: Copy> Model for Pool<T> {
    ghost Value = { Pooled T };

    ghost coded = { pooled_code T.code };

    ghost view = { λ p. pooled (stored p.count p.region.places) p.capacity };

    ghost invariant = { λ p. IsPool p.count p.region.places p.capacity × (p.region.first ≡ p.start.address) × (p.right.first ≡ p.start.address) × (p.right.count ≡ p.capacity) × (p.right.from ≡ p.alloc) };
}

/// That a number is a word, for the proofs of callers. It does nothing when it runs.
fn short_laws(number: u32)
    ensures { number < 2 ^ 32 }
{}

impl<T: Copy> Pool<T> {
    /// Makes an empty pool with room for `capacity` items.
    ///
    /// # Errors
    ///
    /// `NoMemory` where the region cannot be had, as where it would take more bytes than the machine
    /// can address.
    pub fn make(alloc: Global, capacity: u32) -> Result<Pool<T>, NoMemory>
        ensures { IfOk result (λ p. p ≡ pooled [] capacity) }
    {
        let places = capacity as usize;
        if !may_hold::<T>(places) {
            return Err(NoMemory);
        }
        let (start, region, right) = match take(&alloc, places) {
            Ok(parts) => parts,
            Err(_) => return Err(NoMemory),
        };
        Ok(Pool {
            start,
            capacity,
            count: 0,
            region,
            right,
            alloc,
        })
    }

    /// Returns the number of items.
    pub fn len(&self) -> u32
        ensures len { result ≡ length self.now.list }
        ensures within { result ≤ self.now.capacity }
    {
        self.count
    }

    /// Returns the number of items that there is room for.
    pub fn capacity(&self) -> u32
        ensures capacity { result ≡ self.now.capacity }
        ensures within { length self.now.list ≤ result }
    {
        self.capacity
    }

    /// That there are no more items than there is room for, and that the capacity is a word, for the proofs of
    /// callers. It does nothing when it runs.
    pub fn room_laws(&self)
        ensures within { length self.now.list ≤ self.now.capacity }
        ensures short { self.now.capacity < 2 ^ 32 }
    {
        short_laws(self.capacity);
    }

    /// Adds an item at the end, and returns its index. There must be room for it.
    pub fn push(&mut self, value: T) -> u32
        requires { length self.old.list < self.old.capacity }
        ensures id { result ≡ length self.old.list }
        ensures list { self.new.list ≡ self.old.list ++ value ∷ [] }
        ensures capacity { self.new.capacity ≡ self.old.capacity }
    {
        let id = self.count;
        self.region.write(self.start, id as usize, value);
        self.count = id + 1;
        id
    }

    /// Returns the item at the index `id`.
    pub fn get(&self, id: u32) -> T
        requires { id < length self.now.list }
        ensures { slice_get self.now.list id ≡ Some result }
    {
        *self.region.lend(self.start, id as usize)
    }

    /// Puts `value` in the place of the item at the index `id`.
    pub fn set(&mut self, id: u32, value: T)
        requires { id < length self.old.list }
        ensures list { self.new.list ≡ slice_set self.old.list id value }
        ensures capacity { self.new.capacity ≡ self.old.capacity }
    {
        let place = id as usize;
        self.region.write(self.start, place, value);
    }

    /// Takes all items out. The capacity stays.
    pub fn clear(&mut self)
        ensures { self.new ≡ pooled [] self.old.capacity }
    {
        self.count = 0;
    }
}

impl Pool<u32> {
    /// That each item is a word, and that there are no more than there is room for, for the proofs of callers.
    /// It does nothing when it runs.
    #[tactic(auto, using(crate::proofs::Words::words_stored))]
    pub fn word_laws(&self)
        ensures words { AreWords self.now.list }
        ensures within { length self.now.list ≤ self.now.capacity }
        ensures short { self.now.capacity < 2 ^ 32 }
    {
        short_laws(self.capacity);
        self.region.word_laws();
    }
}

impl<T: Copy> Drop for Pool<T> {
    fn drop(self) {
        let Pool {
            start,
            capacity,
            count: _,
            region,
            right,
            alloc,
        } = self;
        give_back(&alloc, start, capacity as usize, region, right);
    }
}
