//! Where a module begins: nothing but the symbols that count for no node.
ghost use Rattle.std.specs.Prelude.{◌≡◌, ◌+◌, ◌≤◌, ◌<◌, ◌∷◌, ◌++◌, [], length, false, IfOk};
ghost use Rattle.kept_values.specs.Tables.{limits_in, limits};
ghost use Rattle.spirv_symbols.specs.Contexts.{Declares, empty_context};
ghost use Rattle.spirv_emit.specs.Begun.{IsBegun, IsNew, IsUnsaid};
ghost use Rattle.spirv_emit.specs.Emission.{words_left, ids_left};
ghost use Rattle.spirv_emit.specs.Growing.{globals_in};

use crate::buffer::ConstantBuffer;
use crate::emitter::{Emitter, Frame};
use crate::naming::put_all;
use kept_values::{Kept, kept_laws};
use node_pool::Pool;
use spirv_symbols::{Context, Declared, Symbol, Symbols, TypeSymbol, id_laws};
use spirv_words::storage_class;
use std::alloc::Global;
use word_base::NoMemory;

/// What an emitter has room for.
#[derive(Clone, Copy, Debug, PartialEq, Eq)]
pub struct Sizes {
    /// The bound of the ids.
    pub ids: u32,
    /// The words of the function's code and of all that is declared.
    pub words: u32,
    /// The variables whose sizes and places are said, and the words of the immediate constant buffer.
    pub declared: u32,
    /// The constant buffers.
    pub buffers: u32,
    /// The scratch words that may be kept as ids.
    pub scratch: u32,
    /// The words of the registers `r#` that may be kept as ids.
    pub registers: u32,
}

impl Emitter {
    /// Makes an emitter, which has nothing written and knows nothing of a program.
    ///
    /// # Errors
    ///
    /// `NoMemory` where the memory for so much cannot be had.
    pub fn make(alloc: Global, sizes: Sizes) -> Result<Emitter, NoMemory>
        ensures new { IfOk result (λ e. IsNew e) }
        ensures unsaid { IfOk result (λ e. IsUnsaid e.frame) }
        ensures ids { IfOk result (λ e. e.symbols.limit ≡ sizes.ids) }
        ensures words { IfOk result (λ e. e.code.capacity ≡ sizes.words) }
        ensures declared { IfOk result (λ e. e.frame.context ≡ empty_context sizes.declared sizes.declared) }
        ensures buffers { IfOk result (λ e. e.frame.buffers.capacity ≡ sizes.buffers) }
        ensures kept { IfOk result (λ e. limits_in e.kept ≡ limits sizes.scratch sizes.registers 0) }
    {
        let context = Context::make(alloc, sizes.declared)?;
        let buffers = Pool::make(alloc, sizes.buffers)?;
        let symbols = Symbols::make(alloc, sizes.ids)?;
        let code = Pool::make(alloc, sizes.words)?;
        let kept = Kept::make(alloc, sizes.scratch, sizes.registers, 0)?;
        let frame = Frame {
            context,
            buffers,
            separate: false,
        };
        Ok(Emitter {
            frame,
            symbols,
            code,
            kept,
        })
    }

    /// Takes out all that was written, and all that was said of a program. The room stays.
    pub fn clear(&mut self)
        ensures new { IsNew self.new }
        ensures unsaid { IsUnsaid self.new.frame }
        ensures ids { self.new.symbols.limit ≡ self.old.symbols.limit }
        ensures words { self.new.code.capacity ≡ self.old.code.capacity }
        ensures declared { self.new.frame.context.capacity ≡ self.old.frame.context.capacity }
        ensures immediates { self.new.frame.context.room ≡ self.old.frame.context.room }
        ensures buffers { self.new.frame.buffers.capacity ≡ self.old.frame.buffers.capacity }
        ensures kept { limits_in self.new.kept ≡ limits_in self.old.kept }
    {
        self.frame.context.clear();
        self.frame.buffers.clear();
        self.frame.separate = false;
        self.symbols.clear();
        self.code.clear();
        self.kept.clear();
    }

    /// Says what is declared of a variable. What was said of it before stays. There must be room for it.
    pub fn declare(&mut self, declared: Declared)
        requires new { IsNew self.old }
        requires room { length self.old.frame.context.declared < self.old.frame.context.capacity }
        ensures declares { Declares self.old.frame.context self.new.frame.context declared }
        ensures rest { self.new
            ≡ record self.old { frame = record self.old.frame { context = self.new.frame.context } } }
    {
        self.frame.context.declare(declared);
    }

    /// Says how many words the registers `r#` have, whether each is a variable of its own, and how many words
    /// all push constants have.
    pub fn set_sizes(&mut self, registers: u32, separate: bool, pushed: u32)
        requires new { IsNew self.old }
        ensures { self.new ≡ record self.old {
          frame = record self.old.frame {
            separate = separate;
            context = record self.old.frame.context { registers = registers; pushed = pushed };
          };
        } }
    {
        self.frame.context.set_sizes(registers, pushed);
        self.frame.separate = separate;
    }

    /// Adds a word of the immediate constant buffer, for which there must be room.
    pub fn push_immediate(&mut self, word: u32)
        requires new { IsNew self.old }
        requires room { length self.old.frame.context.immediates < self.old.frame.context.room }
        ensures { self.new ≡ record self.old {
          frame = record self.old.frame {
            context = record self.old.frame.context { immediates = self.old.frame.context.immediates ++ word ∷ [] };
          };
        } }
    {
        self.frame.context.push_immediate(word);
    }

    /// Adds a constant buffer, for which there must be room.
    pub fn push_buffer(&mut self, buffer: ConstantBuffer)
        requires new { IsNew self.old }
        requires room { length self.old.frame.buffers.list < self.old.frame.buffers.capacity }
        ensures list { self.new.frame.buffers.list ≡ self.old.frame.buffers.list ++ buffer ∷ [] }
        ensures rest { self.new
            ≡ record self.old { frame = record self.old.frame { buffers = self.new.frame.buffers } } }
        ensures capacity { self.new.frame.buffers.capacity ≡ self.old.frame.buffers.capacity }
    {
        self.frame.buffers.push(buffer);
    }

    /// Adds the symbols that every module has, when nothing has been written yet.
    pub fn start(&mut self)
        requires new { IsNew self.old }
        requires ids { 64 ≤ self.old.symbols.limit }
        requires words { 256 ≤ self.old.code.capacity }
        ensures begun { IsBegun self.new }
        ensures rest { self.new ≡ record self.old { symbols = self.new.symbols } }
        ensures globals { globals_in self.new.symbols.entries ≡ [] }
        ensures words { self.old.code.capacity ≤ words_left self.new + 79 }
        ensures ids { self.old.symbols.limit ≤ ids_left self.new + 22 }
        ensures limit { self.new.symbols.limit ≡ self.old.symbols.limit }
    {
        kept_laws();
        id_laws();
        put_all(
            &mut self.symbols,
            &self.frame.context,
            &[
                Symbol::AType(TypeSymbol::Word),
                Symbol::AType(TypeSymbol::Pair),
                Symbol::AType(TypeSymbol::Truth),
                Symbol::True,
                Symbol::AType(TypeSymbol::Void),
                Symbol::AType(TypeSymbol::Procedure),
                Symbol::Main,
                Symbol::FirstLabel,
                Symbol::Import,
                Symbol::AType(TypeSymbol::WordPointer(storage_class::FUNCTION)),
                Symbol::AType(TypeSymbol::WordPointer(storage_class::INPUT)),
                Symbol::AType(TypeSymbol::WordPointer(storage_class::UNIFORM)),
                Symbol::AType(TypeSymbol::WordPointer(storage_class::PUSH_CONSTANT)),
                Symbol::AType(TypeSymbol::WordPointer(storage_class::STORAGE_BUFFER)),
                Symbol::AType(TypeSymbol::WordPointer(storage_class::WORKGROUP)),
                Symbol::Constant(0),
                Symbol::Constant(1),
                Symbol::Constant(4),
                Symbol::Constant(31),
                Symbol::Constant(32),
                Symbol::Constant(u32::MAX),
            ],
        );
    }
}
