ghost use Rattle.std.specs.Prelude.{◌≡◌, ◌<◌, ◌++◌, [], ◌∷◌, length, slice_get, Some, None, OnOk, OnErr};
ghost use Rattle.binding_map.specs.declared.register.Place.TheVariants.{Bound};
ghost use Rattle.binding_map.specs.Bindings.{IsMap, binding, place_of};
ghost use Rattle.binding_map.specs.Joins.{MayJoin};
ghost use Rattle.binding_map.specs.Numbering.{AreNumbered};

use crate::register::{Place, Register};
use indexmap::IndexMap;
use std::alloc::Global;
use std::marker::Model;
use word_base::NoMemory;

/// A binding map: registers with their places, in an order that is part of the map.
///
/// No two of them have one register, one set and binding, or a push constant word in common.
#[derive(Drop)]
pub struct Bindings {
    map: IndexMap<Register, Place>,
}

impl Model for Bindings {
    ghost use Rattle.std.specs.Prelude.{List};
    ghost use Rattle.binding_map.specs.Bindings.{Binding, IsMap, bindings_of};

    ghost Value = { List Binding };

    ghost view = { λ b. bindings_of b.map.entries };

    ghost invariant = { λ b. IsMap (bindings_of b.map.entries) };
}

impl Bindings {
    /// The map in which nothing is bound.
    pub(crate) fn empty(alloc: Global) -> Bindings
        ensures { result ≡ [] }
    {
        Bindings {
            map: IndexMap::new(alloc),
        }
    }

    /// The number of entries.
    pub fn len(&self) -> u32
        ensures count { result ≡ length self.now }
        ensures is_map { IsMap self.now }
    {
        self.map.len() as u32
    }

    /// The entry with that number, counted from 0.
    pub fn at(&self, i: u32) -> (Register, Place)
        requires { i < length self.now }
        ensures { slice_get self.now i ≡ Some (binding result.0 result.1) }
    {
        match self.map.get_index(i as usize) {
            Some((register, place)) => (*register, *place),
            None => unreachable!(),
        }
    }

    /// What holds of each map, for the proofs of callers: its registers, descriptors and push constant words are distinct,
    /// each register has a place of its kind, and slots, sets and bindings are words. Nothing comes of a call.
    pub fn map_laws(&self)
        ensures { IsMap self.now }
    {
        self.len();
    }

    /// Where a register is bound, and `None` exactly where it has no entry.
    pub fn place_of(&self, register: Register) -> Option<Place>
        ensures { result ≡ place_of self.now register }
    {
        self.map.get(&register).copied()
    }

    /// Binds one more register, behind the others.
    ///
    /// # Errors
    ///
    /// `NoMemory` where the map can't grow. It is then as before.
    pub(crate) fn add(&mut self, register: Register, place: Place) -> Result<(), NoMemory>
        requires { MayJoin self.old register place }
        ensures ok { OnOk result (self.new ≡ self.old ++ binding register place ∷ []) }
        ensures err { OnErr result (self.new ≡ self.old) }
    {
        match self.map.insert(register, place) {
            Ok(_) => Ok(()),
            Err(_) => Err(NoMemory),
        }
    }

    /// Binds one more register at set 0 and the next number, where all others are bound so.
    pub(crate) fn add_next(&mut self, register: Register) -> Result<(), NoMemory>
        requires absent { place_of self.old register ≡ None }
        requires numbered { AreNumbered self.old }
        requires few { length self.old < 1000 }
        ensures { OnOk result (self.new ≡ self.old ++ binding register (Bound 0 (length self.old)) ∷ []) }
    {
        let binding = self.len();
        self.add(register, Place::Bound { set: 0, binding })
    }
}
