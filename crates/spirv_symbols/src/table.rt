ghost use Rattle.std.specs.Prelude.{◌≡◌, ℕ, ◌+◌, ◌<◌, ◌≤◌, ◌++◌, ◌∷◌, [], length, slice_get, Some, IfSome, IfNone, IfOk};
ghost use Rattle.spirv_symbols.specs.Contexts.{Context as Given};
ghost use Rattle.spirv_symbols.specs.Rows.{most_ids, needs};
ghost use Rattle.spirv_symbols.specs.Tables.{Table, Has, Absent, AreThere, Stands, Makes, Adds, Takes, Puts, empty_table, id_of, entry};

use crate::context::Context;
use crate::entry::Entry;
use crate::naming::{key, symbol_at};
use crate::row::{Part, part_at, part_count, row_of};
use crate::symbol::Symbol;
use node_pool::{Keys, Pool};
use std::alloc::Global;
use std::marker::Model;
use word_base::NoMemory;

/// The symbols of a module, each with one id, in the order in which they came, and the ids that are free.
///
/// An entry keeps its place and its id, and most are found in one step. Only `make` takes memory.
#[derive(Drop)]
pub struct Symbols {
    keys: Keys,
    ids: Pool<u32>,
    next: u32,
}

impl Model for Symbols {
    ghost use Rattle.std.specs.Prelude.{◌≡◌, ℕ, Some, slice_get, length};
    ghost use Rattle.node_pool.specs.declared.key.Key.{Key};
    ghost use Rattle.spirv_symbols.specs.Names.{key_of, symbol_at};
    ghost use Rattle.spirv_symbols.specs.Tables.{Table, entries_of, table};

    ghost Value = { Table };

    ghost view = { λ s. table (entries_of s.keys.list s.ids.list) s.next s.ids.capacity };

    ghost invariant = { λ s. record {
      same : length s.keys.list ≡ length s.ids.list;
      room : s.keys.capacity ≡ s.ids.capacity;
      named : (k : ℕ) (key : Key) → slice_get s.keys.list k ≡ Some key → key_of (symbol_at key) ≡ key;
    } };
}

impl Symbols {
    /// Makes a table without symbols, whose ids, those of code too, are from 1 on and below `limit`.
    ///
    /// # Errors
    ///
    /// `NoMemory` where the memory for so many symbols cannot be had.
    pub fn make(alloc: Global, limit: u32) -> Result<Symbols, NoMemory>
        ensures { IfOk result (λ s. s ≡ empty_table limit) }
    {
        let keys = Keys::make(alloc, limit)?;
        let ids = Pool::make(alloc, limit)?;
        Ok(Symbols { keys, ids, next: 1 })
    }

    /// Takes all symbols out. The limit stays.
    pub fn clear(&mut self)
        ensures { self.new ≡ empty_table self.old.limit }
    {
        self.keys.clear();
        self.ids.clear();
        self.next = 1;
    }

    /// Returns the number of symbols.
    pub fn len(&self) -> u32
        ensures len { result ≡ length self.now.entries }
        ensures within { result ≤ self.now.limit }
    {
        self.keys.len()
    }

    /// Returns the first id that is free: all ids of the table, and all that `fresh` gave, are below it.
    pub fn next(&self) -> u32
        ensures { result ≡ self.now.next }
    {
        self.next
    }

    /// Returns the bound of the ids, for which the table was made.
    pub fn limit(&self) -> u32
        ensures { result ≡ self.now.limit }
    {
        self.ids.capacity()
    }

    /// Returns the entry at the place `i`.
    pub fn entry(&self, i: u32) -> Entry
        requires { i < length self.now.entries }
        ensures { slice_get self.now.entries i ≡ Some result }
    {
        let symbol = symbol_at(self.keys.at(i));
        let id = self.ids.get(i);
        Entry { symbol, id }
    }

    /// Returns the id of a symbol, and `None` exactly where it is not in the table.
    pub fn find(&self, symbol: Symbol) -> Option<u32>
        ensures found { IfSome result (λ id. Has self.now.entries symbol id) }
        ensures first { IfSome result (λ id. id ≡ id_of self.now.entries symbol) }
        ensures absent { IfNone result (Absent self.now.entries symbol) }
    {
        self.keys.key_laws();
        match self.keys.find(key(symbol)) {
            Some(i) => Some(self.ids.get(i)),
            None => None,
        }
    }

    /// Returns the id of a symbol, and 0 where it is not in the table.
    pub fn id(&self, symbol: Symbol) -> u32
        ensures { result ≡ id_of self.now.entries symbol }
    {
        match self.find(symbol) {
            Some(id) => id,
            None => 0,
        }
    }

    /// Returns an id that is no symbol's. There must be one below the limit.
    pub fn fresh(&mut self) -> u32
        requires room { self.old.next < self.old.limit }
        ensures { Takes self.old self.new result }
    {
        self.ids.room_laws();
        let id = self.next;
        self.next = id + 1;
        id
    }

    /// Adds a symbol that is not in the table, and returns its id.
    fn add(&mut self, symbol: Symbol) -> u32
        requires absent { Absent self.old.entries symbol }
        requires free { length self.old.entries < self.old.limit }
        requires room { self.old.next < self.old.limit }
        ensures { Adds self.old self.new symbol result }
    {
        self.ids.room_laws();
        let id = self.next;
        self.keys.add(key(symbol));
        self.ids.push(id);
        self.next = id + 1;
        id
    }

    /// Returns the id of a symbol whose needs are in the table, and adds it where it is not there.
    pub fn put(&mut self, context: &Context, symbol: Symbol) -> u32
        requires stands { Stands context.now self.old }
        requires needs { AreThere self.old.entries (needs context.now symbol) self.old.next }
        requires room { self.old.next < self.old.limit }
        ensures { Puts context.now self.old self.new symbol result }
    {
        match self.find(symbol) {
            Some(id) => id,
            None => self.add(symbol),
        }
    }

    /// Returns the id of a symbol. Where it is not in the table, it is added behind what it needs.
    ///
    /// There must be as many ids below the limit as the symbol takes with all its needs.
    pub fn symbol(&mut self, context: &Context, symbol: Symbol) -> u32
        requires stands { Stands context.now self.old }
        requires room { self.old.next + most_ids context.now symbol ≤ self.old.limit }
        ensures { Makes context.now self.old self.new symbol result }
    {
        if let Some(id) = self.find(symbol) {
            return id;
        }
        let row = row_of(context, symbol);
        for k in 0..part_count(context, &row) {
            if let Part::Of(need) = part_at(context, &row, k) {
                self.symbol(context, need);
            }
        }
        self.put(context, symbol)
    }
}
