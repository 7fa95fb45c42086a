//! Symbols that are named before code is written.
ghost use Rattle.std.specs.Prelude.{◌≡◌, ◌+◌, ◌*◌, ◌++◌, ◌∷◌, ◌≤◌, [], length, true};
ghost use Rattle.word_base.specs.declared.event.Room.TheVariants.{Shared};
ghost use Rattle.spirv_symbols.specs.declared.symbol.Symbol.TheVariants.{AType, Null, Elements, ImmediateArray, Input, Memory, Push, Registers, Uniform};
ghost use Rattle.spirv_symbols.specs.declared.symbol.TypeSymbol.TheVariants.{LocalPointer, ViewPointer};
ghost use Rattle.spirv_symbols.specs.Rows.{needs, total, words_of};
ghost use Rattle.spirv_symbols.specs.Tables.{Stands};
ghost use Rattle.spirv_emit.specs.Begun.{IsBegun};
ghost use Rattle.spirv_emit.specs.Emission.{words_left, ids_left};
ghost use Rattle.spirv_emit.specs.Naming.{AreLocal, Names, PutsAll, StandInOrder, is_variable};

use crate::emitter::Emitter;
use spirv_symbols::{Access, Context, Symbol, Symbols, TypeSymbol, growth_laws};
use spirv_words::built_in;
use word_base::Room;

/// Adds those of some symbols that are not in the table. Each needs only what is there and those in front of it,
/// and none is a global variable.
pub(crate) fn put_all(symbols: &mut Symbols, context: &Context, all: &[Symbol])
    requires stands { Stands context.now symbols.old }
    requires order { StandInOrder symbols.old.entries context.now [] all.now }
    requires locals { AreLocal all.now }
    requires room { symbols.old.next + length all.now ≤ symbols.old.limit }
    ensures { PutsAll context.now symbols.old symbols.new all.now }
{
    growth_laws();
    for symbol in all {
        symbols.put(context, *symbol);
    }
}

impl Emitter {
    /// Names a symbol behind those `below` it, which are no global variables. Each needs only what is there and
    /// those in front of it.
    pub(crate) fn name_behind(&mut self, below: &[Symbol], symbol: Symbol)
        requires begun { IsBegun self.old }
        requires order { StandInOrder self.old.symbols.entries self.old.frame.context [] (below.now ++ symbol ∷ []) }
        requires locals { AreLocal below.now }
        requires words { total (words_of self.old.frame.context) (below.now ++ symbol ∷ []) ≤ words_left self.old }
        requires ids { length below.now + 1 ≤ ids_left self.old }
        ensures names { Names self.old self.new symbol }
        ensures begun { IsBegun self.new }
        ensures words { words_left self.old ≤ words_left self.new
            + total (words_of self.old.frame.context) (below.now ++ symbol ∷ []) }
        ensures ids { ids_left self.old ≤ ids_left self.new + (length below.now + 1) }
    {
        growth_laws();
        put_all(&mut self.symbols, &self.frame.context, below);
        self.symbols.put(&self.frame.context, symbol);
    }

    /// Names a variable of the module or of its function, with what it needs: before code is written, for code
    /// adds no global variable.
    pub fn name(&mut self, variable: Symbol)
        requires begun { IsBegun self.old }
        requires variable { is_variable variable ≡ true }
        requires words { 43 ≤ words_left self.old }
        requires ids { 6 ≤ ids_left self.old }
        ensures names { Names self.old self.new variable }
        ensures begun { IsBegun self.new }
        ensures words { words_left self.old ≤ words_left self.new + 43 }
        ensures ids { ids_left self.old ≤ ids_left self.new + 6 }
    {
        match variable {
            Symbol::Input(kind) => self.name_input(kind),
            Symbol::Memory(room) => self.name_room(room),
            Symbol::Uniform(slot) => self.name_uniform(slot),
            Symbol::Push => self.name_push(),
            Symbol::Registers => {
                let count = self.frame.context.registers();
                self.name_array(variable, count);
            }
            Symbol::Elements(_) => {
                let count = self.frame.context.declared_of(variable).size;
                self.name_array(variable, count);
            }
            _ => unreachable!(),
        }
    }

    /// Names what a thread is given of itself.
    fn name_input(&mut self, kind: u32)
        requires begun { IsBegun self.old }
        requires words { 16 ≤ words_left self.old }
        requires ids { 3 ≤ ids_left self.old }
        ensures names { Names self.old self.new (Input kind) }
        ensures begun { IsBegun self.new }
        ensures words { words_left self.old ≤ words_left self.new + 16 }
        ensures ids { ids_left self.old ≤ ids_left self.new + 3 }
    {
        if kind == built_in::LOCAL_INVOCATION_INDEX {
            self.name_behind(&[], Symbol::Input(kind));
        } else {
            self.name_behind(
                &[
                    Symbol::AType(TypeSymbol::Triple),
                    Symbol::AType(TypeSymbol::TriplePointer),
                ],
                Symbol::Input(kind),
            );
        }
    }

    /// Names a view, a counter or shared memory.
    fn name_room(&mut self, room: Room)
        requires begun { IsBegun self.old }
        requires words { 38 ≤ words_left self.old }
        requires ids { 4 ≤ ids_left self.old }
        ensures names { Names self.old self.new (Memory room) }
        ensures begun { IsBegun self.new }
        ensures words { words_left self.old ≤ words_left self.new + 38 }
        ensures ids { ids_left self.old ≤ ids_left self.new + 4 }
    {
        match room {
            Room::Resource(_) => self.name_view(room, Access::ReadOnly),
            Room::Uav(_) => {
                let declared = self.frame.context.declared_of(Symbol::Memory(room));
                if declared.coherent {
                    self.name_view(room, Access::Coherent);
                } else {
                    self.name_view(room, Access::Plain);
                }
            }
            Room::Counter(_) => self.name_view(room, Access::Plain),
            Room::Shared(slot) => self.name_shared(slot),
        }
    }

    /// Names a view or a counter.
    fn name_view(&mut self, room: Room, access: Access)
        requires view { needs self.old.frame.context (Memory room) ≡ AType (ViewPointer access) ∷ [] }
        requires size { words_of self.old.frame.context (Memory room) ≡ 12 }
        requires begun { IsBegun self.old }
        requires words { 38 ≤ words_left self.old }
        requires ids { 4 ≤ ids_left self.old }
        ensures names { Names self.old self.new (Memory room) }
        ensures begun { IsBegun self.new }
        ensures words { words_left self.old ≤ words_left self.new + 38 }
        ensures ids { ids_left self.old ≤ ids_left self.new + 4 }
    {
        self.name_behind(
            &[
                Symbol::AType(TypeSymbol::RuntimeWords),
                Symbol::AType(TypeSymbol::View(access)),
                Symbol::AType(TypeSymbol::ViewPointer(access)),
            ],
            Symbol::Memory(room),
        );
    }

    /// Names the shared memory of a slot.
    fn name_shared(&mut self, slot: u32)
        requires begun { IsBegun self.old }
        requires words { 16 ≤ words_left self.old }
        requires ids { 4 ≤ ids_left self.old }
        ensures names { Names self.old self.new (Memory (Shared slot)) }
        ensures begun { IsBegun self.new }
        ensures words { words_left self.old ≤ words_left self.new + 16 }
        ensures ids { ids_left self.old ≤ ids_left self.new + 4 }
    {
        let variable = Symbol::Memory(Room::Shared(slot));
        let count = self.frame.context.declared_of(variable).size;
        self.name_behind(
            &[
                Symbol::Constant(count),
                Symbol::AType(TypeSymbol::Words(count)),
                Symbol::AType(TypeSymbol::SharedPointer(count)),
            ],
            variable,
        );
    }

    /// Names a constant buffer at a descriptor.
    fn name_uniform(&mut self, slot: u32)
        requires begun { IsBegun self.old }
        requires words { 43 ≤ words_left self.old }
        requires ids { 6 ≤ ids_left self.old }
        ensures names { Names self.old self.new (Uniform slot) }
        ensures begun { IsBegun self.new }
        ensures words { words_left self.old ≤ words_left self.new + 43 }
        ensures ids { ids_left self.old ≤ ids_left self.new + 6 }
    {
        let variable = Symbol::Uniform(slot);
        let vectors = self.frame.context.declared_of(variable).size;
        self.name_behind(
            &[
                Symbol::AType(TypeSymbol::Quad),
                Symbol::Constant(vectors),
                Symbol::AType(TypeSymbol::Vectors(vectors)),
                Symbol::AType(TypeSymbol::VectorsBlock(vectors)),
                Symbol::AType(TypeSymbol::VectorsPointer(vectors)),
            ],
            variable,
        );
    }

    /// Names the push constants.
    fn name_push(&mut self)
        requires begun { IsBegun self.old }
        requires words { 31 ≤ words_left self.old }
        requires ids { 5 ≤ ids_left self.old }
        ensures names { Names self.old self.new Push }
        ensures begun { IsBegun self.new }
        ensures words { words_left self.old ≤ words_left self.new + 31 }
        ensures ids { ids_left self.old ≤ ids_left self.new + 5 }
    {
        let count = self.frame.context.pushed();
        self.name_behind(
            &[
                Symbol::Constant(count),
                Symbol::AType(TypeSymbol::PushWords(count)),
                Symbol::AType(TypeSymbol::PushBlock(count)),
                Symbol::AType(TypeSymbol::PushPointer(count)),
            ],
            Symbol::Push,
        );
    }

    /// Names an array of words of the lane that are 0 at its start.
    fn name_array(&mut self, variable: Symbol, count: u32)
        requires array { needs self.old.frame.context variable ≡ AType (LocalPointer count) ∷ Null count ∷ [] }
        requires size { words_of self.old.frame.context variable ≡ 5 }
        requires begun { IsBegun self.old }
        requires words { 20 ≤ words_left self.old }
        requires ids { 5 ≤ ids_left self.old }
        ensures names { Names self.old self.new variable }
        ensures begun { IsBegun self.new }
        ensures words { words_left self.old ≤ words_left self.new + 20 }
        ensures ids { ids_left self.old ≤ ids_left self.new + 5 }
    {
        self.name_behind(
            &[
                Symbol::Constant(count),
                Symbol::AType(TypeSymbol::Words(count)),
                Symbol::AType(TypeSymbol::LocalPointer(count)),
                Symbol::Null(count),
            ],
            variable,
        );
    }
}
