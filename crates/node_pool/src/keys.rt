ghost use Rattle.std.specs.Prelude.{◌≡◌, ◌^◌, ◌<◌, ◌≤◌, [], ◌∷◌, ◌++◌, length, slice_get, Some, Contains, IfSome, IfNone, IfOk};
ghost use Rattle.node_pool.specs.Keys.{keyed, AreDistinct};

use crate::key::Key;
use crate::key_tree::{Link, plant, seek};
use crate::pool::Pool;
use std::alloc::Global;
use std::marker::Model;
use word_base::NoMemory;

/// How many places there are for keys that are found in one step.
const PLACES: u32 = 1024;

/// Distinct keys in the order in which they were added, with a fixed capacity. Each has an index, a `u32`
/// counted from 0. Most are found in one step, the others in at most 32 steps and one more for each kind of key.
///
/// Each key has a place, and of the keys of one place the one that was added last is found in one step. A place
/// may hold any index, since the key at that index is looked at.
///
/// Only `make` takes memory.
#[derive(Drop)]
pub struct Keys {
    keys: Pool<Key>,
    links: Pool<Link>,
    places: [u32; 1024],
}

impl Model for Keys {
    ghost use Rattle.std.specs.Prelude.{◌≡◌};
    ghost use Rattle.node_pool.specs.Pools.{Pooled, pooled, pooled_code};
    ghost use Rattle.node_pool.specs.declared.key.Key.{Key};
    ghost use Rattle.node_pool.specs.Keys.{key_code, AreDistinct};
    ghost use Rattle.node_pool.specs.KeyTrees.{IsTree};

    ghost Value = { Pooled Key };

    ghost coded = { pooled_code key_code };

    ghost view = { λ k. pooled k.keys.list k.keys.capacity };

    ghost invariant = { λ k. record {
      distinct : AreDistinct k.keys.list;
      tree : IsTree k.keys.list k.links.list;
      room : k.links.capacity ≡ k.keys.capacity;
    } };
}

/// The place of a key.
fn place_of(key: Key) -> usize
    ensures { result < 1024 }
{
    (key.kind.wrapping_mul(61).wrapping_add(key.number) % PLACES) as usize
}

impl Keys {
    /// Makes an empty list with room for `capacity` keys.
    ///
    /// # Errors
    ///
    /// `NoMemory` where the memory for them cannot be had.
    pub fn make(alloc: Global, capacity: u32) -> Result<Keys, NoMemory>
        ensures { IfOk result (λ k. k ≡ keyed [] capacity) }
    {
        let keys = Pool::make(alloc, capacity)?;
        let links = Pool::make(alloc, capacity)?;
        Ok(Keys {
            keys,
            links,
            places: [0; 1024],
        })
    }

    /// Returns the number of keys.
    pub fn len(&self) -> u32
        ensures len { result ≡ length self.now.list }
        ensures within { result ≤ self.now.capacity }
        ensures distinct { AreDistinct self.now.list }
    {
        self.keys.len()
    }

    /// Returns the number of keys that there is room for.
    pub fn capacity(&self) -> u32
        ensures capacity { result ≡ self.now.capacity }
        ensures within { length self.now.list ≤ result }
    {
        self.keys.capacity()
    }

    /// That the keys are distinct and no more than there is room for, and that the capacity is a word, for the
    /// proofs of callers. It does nothing when it runs.
    pub fn key_laws(&self)
        ensures distinct { AreDistinct self.now.list }
        ensures within { length self.now.list ≤ self.now.capacity }
        ensures short { self.now.capacity < 2 ^ 32 }
    {
        self.keys.room_laws();
    }

    /// Returns the key with the index `i`.
    pub fn at(&self, i: u32) -> Key
        requires { i < length self.now.list }
        ensures { slice_get self.now.list i ≡ Some result }
    {
        self.keys.get(i)
    }

    /// Returns the index of a key, and `None` exactly where it was not added.
    pub fn find(&self, key: Key) -> Option<u32>
        ensures found { IfSome result (λ i. slice_get self.now.list i ≡ Some key) }
        ensures absent { IfNone result (Contains self.now.list key → ⊥) }
    {
        let i = self.places[place_of(key)];
        if i < self.keys.len() && self.keys.get(i) == key {
            return Some(i);
        }
        if self.keys.len() == 0 {
            return None;
        }
        seek(&self.keys, &self.links, key)
    }

    /// Adds a key at the end, and returns its index. It must not be there, and there must be room for it.
    pub fn add(&mut self, key: Key) -> u32
        requires absent { Contains self.old.list key → ⊥ }
        requires room { length self.old.list < self.old.capacity }
        ensures id { result ≡ length self.old.list }
        ensures list { self.new.list ≡ self.old.list ++ key ∷ [] }
        ensures capacity { self.new.capacity ≡ self.old.capacity }
    {
        plant(&self.keys, &mut self.links, key);
        let i = self.keys.push(key);
        self.places[place_of(key)] = i;
        i
    }

    /// Takes all keys out. The capacity stays.
    pub fn clear(&mut self)
        ensures { self.new ≡ keyed [] self.old.capacity }
    {
        self.keys.clear();
        self.links.clear();
    }
}
