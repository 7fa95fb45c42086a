ghost use Rattle.std.specs.Prelude.{◌≡◌, ◌^◌, ◌<◌, ◌≤◌, ◌++◌, ◌∷◌, [], length, slice_get, Some, IfOk};
ghost use Rattle.spirv_symbols.specs.Contexts.{empty_context, declared_of, Declares};

use crate::declared::Declared;
use crate::naming::key;
use crate::symbol::Symbol;
use node_pool::{Keys, Pool};
use std::alloc::Global;
use std::marker::Model;
use word_base::NoMemory;

/// What a program and its bindings say of the variables of a module: their sizes and places.
///
/// It is filled before the first symbol of a module is made. Only `make` takes memory.
#[derive(Drop)]
pub struct Context {
    keys: Keys,
    declared: Pool<Declared>,
    registers: u32,
    pushed: u32,
    immediates: Pool<u32>,
}

impl Model for Context {
    ghost use Rattle.std.specs.Prelude.{◌≡◌, map};
    ghost use Rattle.spirv_symbols.specs.Names.{key_of};
    ghost use Rattle.spirv_symbols.specs.Contexts.{Context as Given, context_of, variables_of};

    ghost Value = { Given };

    ghost view = { λ c. context_of c.declared.list c.declared.capacity c.registers c.pushed c.immediates.list
        c.immediates.capacity };

    ghost invariant = { λ c. record {
      keys : c.keys.list ≡ map key_of (variables_of c.declared.list);
      room : c.keys.capacity ≡ c.declared.capacity;
    } };
}

impl Context {
    /// Makes a context with nothing in it, and with room for `capacity` declared variables and as many
    /// words of the immediate constant buffer.
    ///
    /// # Errors
    ///
    /// `NoMemory` where the memory for them cannot be had.
    pub fn make(alloc: Global, capacity: u32) -> Result<Context, NoMemory>
        ensures { IfOk result (λ c. c ≡ empty_context capacity capacity) }
    {
        let keys = Keys::make(alloc, capacity)?;
        let declared = Pool::make(alloc, capacity)?;
        let immediates = Pool::make(alloc, capacity)?;
        Ok(Context {
            keys,
            declared,
            registers: 0,
            pushed: 0,
            immediates,
        })
    }

    /// Takes everything out. The room stays.
    pub fn clear(&mut self)
        ensures { self.new ≡ empty_context self.old.capacity self.old.room }
    {
        self.keys.clear();
        self.declared.clear();
        self.registers = 0;
        self.pushed = 0;
        self.immediates.clear();
    }

    /// Says what is declared of a variable. What was said of it before stays. There must be room for it.
    pub fn declare(&mut self, declared: Declared)
        requires room { length self.old.declared < self.old.capacity }
        ensures { Declares self.old self.new declared }
    {
        let name = key(declared.variable);
        match self.keys.find(name) {
            Some(_) => {}
            None => {
                self.keys.add(name);
                self.declared.push(declared);
            }
        }
    }

    /// Says how many words the registers `r#` have, and how many all push constants.
    pub fn set_sizes(&mut self, registers: u32, pushed: u32)
        ensures { self.new ≡ record self.old { registers = registers; pushed = pushed } }
    {
        self.registers = registers;
        self.pushed = pushed;
    }

    /// Adds a word of the immediate constant buffer, for which there must be room.
    pub fn push_immediate(&mut self, word: u32)
        requires room { length self.old.immediates < self.old.room }
        ensures { self.new ≡ record self.old { immediates = self.old.immediates ++ word ∷ [] } }
    {
        self.immediates.push(word);
    }

    /// Returns what is declared of a variable: where nothing is, no size, set 0, binding 0 and not coherent.
    pub fn declared_of(&self, variable: Symbol) -> Declared
        ensures { result ≡ declared_of self.now variable }
    {
        self.keys.key_laws();
        match self.keys.find(key(variable)) {
            Some(i) => self.declared.get(i),
            None => Declared {
                variable,
                size: 0,
                set: 0,
                binding: 0,
                coherent: false,
            },
        }
    }

    /// Returns the words of the registers `r#`.
    pub fn registers(&self) -> u32
        ensures { result ≡ self.now.registers }
    {
        self.registers
    }

    /// Returns the words of all push constants.
    pub fn pushed(&self) -> u32
        ensures { result ≡ self.now.pushed }
    {
        self.pushed
    }

    /// That there are no more words of the immediate constant buffer than there is room for, for the proofs of
    /// callers. It does nothing when it runs.
    pub(crate) fn room_laws(&self)
        ensures within { length self.now.immediates ≤ self.now.room }
        ensures short { self.now.room < 2 ^ 32 }
    {
        self.immediates.room_laws();
    }

    /// Returns the number of words of the immediate constant buffer.
    pub fn immediates(&self) -> u32
        ensures { result ≡ length self.now.immediates }
    {
        self.immediates.len()
    }

    /// Returns a word of the immediate constant buffer.
    pub fn immediate(&self, i: u32) -> u32
        requires { i < length self.now.immediates }
        ensures { slice_get self.now.immediates i ≡ Some result }
    {
        self.immediates.get(i)
    }
}
