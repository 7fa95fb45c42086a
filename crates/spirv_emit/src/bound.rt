//! Words of constant buffers, and lengths of rooms.
ghost use Rattle.std.specs.Prelude.{◌≡◌, ℕ, ◌+◌, ◌≤◌, ◌<◌, ◌^◌, [], ◌∷◌, Some};
ghost use Rattle.word_base.specs.declared.event.Room.TheVariants as room;
ghost use Rattle.binding_map.specs.declared.register.Place.TheVariants.{Push as InPush, Bound as AtSet};
ghost use Rattle.shader_tree.specs.declared.node.Space.TheVariants.{Constant as InBuffer};
ghost use Rattle.spirv_symbols.specs.declared.symbol.Symbol.TheVariants.{Constant, Memory, Push, Uniform};
ghost use Rattle.spirv_symbols.specs.Contexts.{size_of};
ghost use Rattle.spirv_emit.specs.Begun.{IsBegun, IsThere, IsBufferThere};
ghost use Rattle.spirv_emit.specs.Emission.{buffer_of, words_left, ids_left};
ghost use Rattle.spirv_emit.specs.Reads.{space_word, extent_of, IsView};
ghost use Rattle.spirv_emit.specs.Values.{Gives, a_word};

use crate::buffer::ConstantBuffer;
use crate::emitter::Emitter;
use binding_map::Place;
use node_pool::Pool;
use spirv_symbols::Symbol;
use spirv_words::{op, storage_class};
use word_base::Room;

/// The constant buffer of a slot, which must be declared.
fn buffer_at(buffers: &Pool<ConstantBuffer>, slot: u32) -> ConstantBuffer
    requires { (b : ConstantBuffer) × (buffer_of buffers.now.list slot ≡ Some b) }
    ensures { buffer_of buffers.now.list slot ≡ Some result }
{
    for i in 0..buffers.len() {
        let buffer = buffers.get(i);
        if buffer.slot == slot {
            return buffer;
        }
    }
    unreachable!()
}

impl Emitter {
    /// A word of a constant buffer at a descriptor, at an index inside its vectors.
    fn uniform_word(&mut self, buffer: ConstantBuffer, index: u32) -> u32
        requires buffer { buffer_of self.old.frame.buffers.list buffer.slot ≡ Some buffer }
        requires there { IsThere self.old.symbols.entries (Uniform buffer.slot) }
        requires begun { IsBegun self.old }
        requires words { 21 ≤ words_left self.old }
        requires ids { 4 ≤ ids_left self.old }
        ensures gives { Gives self.old self.new (a_word index ∷ []) (a_word result ∷ [])
            (space_word (InBuffer buffer.slot)) }
        ensures begun { IsBegun self.new }
        ensures words { words_left self.old ≤ words_left self.new + 21 }
        ensures ids { ids_left self.old ≤ ids_left self.new + 4 }
    {
        let variable = self.id_of(Symbol::Uniform(buffer.slot));
        let zero = self.zero();
        let four = self.four();
        let pointer = self.pointer(storage_class::UNIFORM);
        let vector = self.two_words(op::U_DIV, index, four);
        let place = self.two_words(op::U_MOD, index, four);
        let word = self.value(op::ACCESS_CHAIN, pointer, &[variable, zero, vector, place]);
        let type_id = self.word_type();
        self.value(op::LOAD, type_id, &[word])
    }

    /// A word of a constant buffer in push constants, `count` of them from `first` on; 0 at `count` and
    /// past it.
    fn pushed_word(&mut self, buffer: ConstantBuffer, first: u32, count: u32, index: u32) -> u32
        requires buffer { buffer_of self.old.frame.buffers.list buffer.slot ≡ Some buffer }
        requires place { buffer.place ≡ InPush first count }
        requires there { IsThere self.old.symbols.entries Push }
        requires some { 0 < count }
        requires begun { IsBegun self.old }
        requires words { 40 ≤ words_left self.old }
        requires ids { 8 ≤ ids_left self.old }
        ensures gives { Gives self.old self.new (a_word index ∷ []) (a_word result ∷ [])
            (space_word (InBuffer buffer.slot)) }
        ensures begun { IsBegun self.new }
        ensures words { words_left self.old ≤ words_left self.new + 40 }
        ensures ids { ids_left self.old ≤ ids_left self.new + 8 }
    {
        let variable = self.id_of(Symbol::Push);
        let zero = self.zero();
        let pointer = self.pointer(storage_class::PUSH_CONSTANT);
        let end = self.constant(count);
        let start = self.constant(first);
        let pushed = self.compare(op::U_LESS_THAN, index, end);
        let inside = self.choose(pushed, index, zero);
        let place = self.two_words(op::I_ADD, inside, start);
        let word = self.value(op::ACCESS_CHAIN, pointer, &[variable, zero, place]);
        let type_id = self.word_type();
        let loaded = self.value(op::LOAD, type_id, &[word]);
        self.choose(pushed, loaded, zero)
    }

    /// A word of a constant buffer, at an index inside its vectors.
    pub(crate) fn buffer_word(&mut self, slot: u32, index: u32) -> u32
        requires there { IsBufferThere self.old.symbols.entries (buffer_of self.old.frame.buffers.list slot) }
        requires begun { IsBegun self.old }
        requires words { 40 ≤ words_left self.old }
        requires ids { 8 ≤ ids_left self.old }
        ensures gives { Gives self.old self.new (a_word index ∷ []) (a_word result ∷ []) (space_word (InBuffer slot)) }
        ensures begun { IsBegun self.new }
        ensures words { words_left self.old ≤ words_left self.new + 40 }
        ensures ids { ids_left self.old ≤ ids_left self.new + 8 }
    {
        let buffer = buffer_at(&self.frame.buffers, slot);
        match buffer.place {
            Place::Bound { .. } => self.uniform_word(buffer, index),
            Place::Push { first, count } => if count == 0 {
                self.zero()
            } else {
                self.pushed_word(buffer, first, count, index)
            },
        }
    }

    /// The number of words of a room.
    pub(crate) fn length(&mut self, room: Room) -> u32
        requires there { IsThere self.old.symbols.entries (Memory room) }
        requires begun { IsBegun self.old }
        requires words { 6 ≤ words_left self.old }
        requires ids { 1 ≤ ids_left self.old }
        ensures gives { Gives self.old self.new [] (a_word result ∷ []) (extent_of room) }
        ensures begun { IsBegun self.new }
        ensures words { words_left self.old ≤ words_left self.new + 6 }
        ensures ids { ids_left self.old ≤ ids_left self.new + 1 }
    {
        match room {
            Room::Shared(_) => {
                let declared = self.frame.context.declared_of(Symbol::Memory(room));
                self.constant(declared.size)
            }
            Room::Counter(_) => self.one(),
            Room::Resource(_) => self.view_length(room),
            Room::Uav(_) => self.view_length(room),
        }
    }

    /// The number of words of a view.
    fn view_length(&mut self, room: Room) -> u32
        requires view { IsView room }
        requires there { IsThere self.old.symbols.entries (Memory room) }
        requires begun { IsBegun self.old }
        requires words { 5 ≤ words_left self.old }
        requires ids { 1 ≤ ids_left self.old }
        ensures gives { Gives self.old self.new [] (a_word result ∷ []) (extent_of room) }
        ensures begun { IsBegun self.new }
        ensures words { words_left self.old ≤ words_left self.new + 5 }
        ensures ids { ids_left self.old ≤ ids_left self.new + 1 }
    {
        let view = self.id_of(Symbol::Memory(room));
        let type_id = self.word_type();
        self.value(op::ARRAY_LENGTH, type_id, &[view, 0])
    }
}
