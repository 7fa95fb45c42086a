//! The immediate constant buffer as a variable of the function.
ghost use Rattle.std.specs.Prelude.{◌≡◌, ◌+◌, ◌*◌, ◌≤◌, length, map};
ghost use Rattle.shader_tree.specs.Walks.{Each};
ghost use Rattle.spirv_symbols.specs.declared.symbol.Symbol.TheVariants.{AType, Constant, ImmediateArray};
ghost use Rattle.spirv_symbols.specs.declared.symbol.TypeSymbol.TheVariants.{Word};
ghost use Rattle.spirv_symbols.specs.Tables.{Stands};
ghost use Rattle.spirv_emit.specs.Begun.{IsBegun, IsThere};
ghost use Rattle.spirv_emit.specs.Emission.{words_left, ids_left};
ghost use Rattle.spirv_emit.specs.Naming.{Names, PutsAll};

use crate::emitter::Emitter;
use spirv_symbols::{Context, Symbol, Symbols, TypeSymbol, growth_laws};

/// Adds the words of the immediate constant buffer that are no constants yet.
fn put_constants(symbols: &mut Symbols, context: &Context)
    requires stands { Stands context.now symbols.old }
    requires word { IsThere symbols.old.entries (AType Word) }
    requires room { symbols.old.next + length context.now.immediates ≤ symbols.old.limit }
    ensures { PutsAll context.now symbols.old symbols.new (map (λ w. Constant w) context.now.immediates) }
{
    growth_laws();
    for i in 0..context.immediates() {
        let word = context.immediate(i);
        symbols.put(context, Symbol::Constant(word));
    }
}

impl Emitter {
    /// Names the variable of the words of the immediate constant buffer: before code is written.
    pub fn name_immediates(&mut self)
        requires begun { IsBegun self.old }
        requires words { 5 * length self.old.frame.context.immediates + 20 ≤ words_left self.old }
        requires ids { length self.old.frame.context.immediates + 5 ≤ ids_left self.old }
        ensures names { Names self.old self.new ImmediateArray }
        ensures begun { IsBegun self.new }
        ensures words { words_left self.old
            ≤ words_left self.new + (5 * length self.old.frame.context.immediates + 20) }
        ensures ids { ids_left self.old ≤ ids_left self.new + (length self.old.frame.context.immediates + 5) }
    {
        growth_laws();
        put_constants(&mut self.symbols, &self.frame.context);
        self.name_composite();
    }

    /// Names the variable, whose words are constants already.
    fn name_composite(&mut self)
        requires begun { IsBegun self.old }
        requires there { Each (IsThere self.old.symbols.entries)
            (map (λ w. Constant w) self.old.frame.context.immediates) }
        requires words { length self.old.frame.context.immediates + 20 ≤ words_left self.old }
        requires ids { 5 ≤ ids_left self.old }
        ensures names { Names self.old self.new ImmediateArray }
        ensures begun { IsBegun self.new }
        ensures words { words_left self.old ≤ words_left self.new + (length self.old.frame.context.immediates + 20) }
        ensures ids { ids_left self.old ≤ ids_left self.new + 5 }
    {
        let count = self.frame.context.immediates();
        self.name_behind(
            &[
                Symbol::Constant(count),
                Symbol::AType(TypeSymbol::Words(count)),
                Symbol::AType(TypeSymbol::LocalPointer(count)),
                Symbol::Immediates,
            ],
            Symbol::ImmediateArray,
        );
    }
}
