//! The symbols that are there from the beginning.
ghost use Rattle.word_base.specs.Alu.{all_ones};
ghost use Rattle.spirv_symbols.specs.declared.symbol.Symbol.TheVariants.{AType, Constant, Import};
ghost use Rattle.spirv_symbols.specs.declared.symbol.TypeSymbol.TheVariants.{Word, Truth, Pair};
ghost use Rattle.spirv_symbols.specs.Tables.{Has};
ghost use Rattle.spirv_emit.specs.Begun.{IsBegun};

use crate::emitter::Emitter;
use spirv_symbols::{Symbol, TypeSymbol};

impl Emitter {
    /// The type of words.
    pub(crate) fn word_type(&self) -> u32
        requires { IsBegun self.now }
        ensures { Has self.now.symbols.entries (AType Word) result }
    {
        self.id_of(Symbol::AType(TypeSymbol::Word))
    }

    /// The type of truths.
    pub(crate) fn truth_type(&self) -> u32
        requires { IsBegun self.now }
        ensures { Has self.now.symbols.entries (AType Truth) result }
    {
        self.id_of(Symbol::AType(TypeSymbol::Truth))
    }

    /// The type of two words.
    pub(crate) fn pair_type(&self) -> u32
        requires { IsBegun self.now }
        ensures { Has self.now.symbols.entries (AType Pair) result }
    {
        self.id_of(Symbol::AType(TypeSymbol::Pair))
    }

    /// The word 0.
    pub(crate) fn zero(&self) -> u32
        requires { IsBegun self.now }
        ensures { Has self.now.symbols.entries (Constant 0) result }
    {
        self.id_of(Symbol::Constant(0))
    }

    /// The word 1.
    pub(crate) fn one(&self) -> u32
        requires { IsBegun self.now }
        ensures { Has self.now.symbols.entries (Constant 1) result }
    {
        self.id_of(Symbol::Constant(1))
    }

    /// The word 4.
    pub(crate) fn four(&self) -> u32
        requires { IsBegun self.now }
        ensures { Has self.now.symbols.entries (Constant 4) result }
    {
        self.id_of(Symbol::Constant(4))
    }

    /// The word 31.
    pub(crate) fn thirty_one(&self) -> u32
        requires { IsBegun self.now }
        ensures { Has self.now.symbols.entries (Constant 31) result }
    {
        self.id_of(Symbol::Constant(31))
    }

    /// The word 32.
    pub(crate) fn thirty_two(&self) -> u32
        requires { IsBegun self.now }
        ensures { Has self.now.symbols.entries (Constant 32) result }
    {
        self.id_of(Symbol::Constant(32))
    }

    /// The word whose bits are all 1.
    pub(crate) fn ones(&self) -> u32
        requires { IsBegun self.now }
        ensures { Has self.now.symbols.entries (Constant all_ones) result }
    {
        self.id_of(Symbol::Constant(u32::MAX))
    }

    /// The extended instructions.
    pub(crate) fn extended(&self) -> u32
        requires { IsBegun self.now }
        ensures { Has self.now.symbols.entries Import result }
    {
        self.id_of(Symbol::Import)
    }
}
