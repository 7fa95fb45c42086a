// A list of distinct numbers below a capacity, in which each number is found in one step.

ghost use Rattle.std.specs.Prelude.{◌≡◌, ◌<◌, ◌++◌, ◌∷◌, [], length, false, true, slice_get, Some, IfOk};
ghost use Rattle.kept_values.specs.Numbers.{has};
ghost use Rattle.kept_values.specs.Shelves.{all_but_last};
ghost use Rattle.node_pool.specs.Pools.{pooled};

use node_pool::Pool;
use std::alloc::Global;
use std::marker::Model;
use word_base::NoMemory;

/// Distinct numbers below a capacity, in the order in which they were added.
///
/// `items` holds them from its start on, `count` of them. At each number, `places` holds the place of that
/// number in the list, or, where it is not there, any place: so a number is in the list where it stands at its
/// place. Nothing has to be written to take all of them out.
#[derive(Drop)]
pub(crate) struct Numbers {
    places: Pool<u32>,
    items: Pool<u32>,
    count: u32,
}

impl Model for Numbers {
    ghost use Rattle.std.specs.Prelude.{◌≡◌, ◌<◌, ◌≤◌, ◌^◌, ℕ, length, take};
    ghost use Rattle.node_pool.specs.Pools.{Pooled, pooled, pooled_code};
    ghost use Rattle.kept_values.specs.Numbers.{IsIndexed};
    ghost use Rattle.std.specs.Coded.{coded_ℕ};

    ghost Value = { Pooled ℕ };

    ghost coded = { pooled_code coded_ℕ };

    ghost view = { λ n. pooled (take n.count n.items.list) (length n.places.list) };

    ghost invariant = { λ n. (length n.items.list ≡ length n.places.list) × (n.count ≤ length n.items.list)
        × (length n.places.list < 2 ^ 32) × IsIndexed n.places.list (take n.count n.items.list) };
}

/// A pool with that many items, all of them 0.
pub(crate) fn zeros(alloc: Global, count: u32) -> Result<Pool<u32>, NoMemory>
    ensures { IfOk result (λ p. length p.list ≡ count) }
{
    let mut pool = Pool::make(alloc, count)?;
    for _ in 0..count {
        pool.push(0);
    }
    Ok(pool)
}

impl Numbers {
    /// An empty list of numbers below `capacity`.
    ///
    /// # Errors
    ///
    /// `NoMemory` where the places cannot be had.
    pub(crate) fn make(alloc: Global, capacity: u32) -> Result<Numbers, NoMemory>
        ensures { IfOk result (λ n. n ≡ pooled [] capacity) }
    {
        let places = zeros(alloc, capacity)?;
        let items = zeros(alloc, capacity)?;
        Ok(Numbers {
            places,
            items,
            count: 0,
        })
    }

    /// Whether a number is in the list.
    pub(crate) fn has(&self, number: u32) -> bool
        ensures has { result ≡ has self.now.list number }
        ensures within { result ≡ true → number < self.now.capacity }
    {
        if number >= self.places.len() {
            return false;
        }
        let place = self.places.get(number);
        if place >= self.count {
            return false;
        }
        self.items.get(place) == number
    }

    /// Adds a number at the end. It must be below the capacity, and not be there.
    pub(crate) fn add(&mut self, number: u32)
        requires within { number < self.old.capacity }
        requires absent { has self.old.list number ≡ false }
        ensures list { self.new.list ≡ self.old.list ++ number ∷ [] }
        ensures capacity { self.new.capacity ≡ self.old.capacity }
    {
        let place = self.count;
        self.places.set(number, place);
        self.items.set(place, number);
        self.count = place + 1;
    }

    /// How many numbers there are.
    pub(crate) fn len(&self) -> u32
        ensures { result ≡ length self.now.list }
    {
        self.count
    }

    /// The number at a place.
    pub(crate) fn at(&self, place: u32) -> u32
        requires { place < length self.now.list }
        ensures at { slice_get self.now.list place ≡ Some result }
        ensures has { has self.now.list result ≡ true }
        ensures within { result < self.now.capacity }
    {
        self.items.get(place)
    }

    /// Takes the last number out. There must be one.
    pub(crate) fn drop_last(&mut self)
        requires { 0 < length self.old.list }
        ensures list { self.new.list ≡ all_but_last self.old.list }
        ensures capacity { self.new.capacity ≡ self.old.capacity }
    {
        self.count -= 1;
    }

    /// Takes all numbers out.
    pub(crate) fn clear(&mut self)
        ensures { self.new ≡ pooled [] self.old.capacity }
    {
        self.count = 0;
    }
}
