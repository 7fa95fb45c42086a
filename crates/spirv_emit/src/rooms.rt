//! Pointers to the words of rooms.
ghost use Rattle.std.specs.Prelude.{◌≡◌, ◌≢◌, ◌+◌, ◌≤◌, ℕ, [], ◌∷◌};
ghost use Rattle.spirv_words.specs.StorageClass as storage;
ghost use Rattle.word_base.specs.declared.event.Room.TheVariants.{Shared};
ghost use Rattle.spirv_symbols.specs.declared.symbol.Symbol.TheVariants.{Memory};
ghost use Rattle.spirv_emit.specs.Begun.{IsBegun, IsThere};
ghost use Rattle.spirv_emit.specs.Emission.{words_left, ids_left};
ghost use Rattle.spirv_emit.specs.Rooms.{PointsTo, class_of};

use crate::emitter::Emitter;
use spirv_symbols::{Symbol, TypeSymbol};
use spirv_words::{op, storage_class};
use word_base::Room;

impl Emitter {
    /// A pointer to the word of shared memory at an index.
    fn shared_pointer(&mut self, room: Room, at: u32) -> u32
        requires shared { class_of room ≡ storage.Workgroup }
        requires begun { IsBegun self.old }
        requires there { IsThere self.old.symbols.entries (Memory room) }
        requires words { 5 ≤ words_left self.old }
        requires ids { 1 ≤ ids_left self.old }
        ensures points { PointsTo self.old self.new room at result }
        ensures begun { IsBegun self.new }
        ensures words { words_left self.old ≤ words_left self.new + 5 }
        ensures ids { ids_left self.old ≤ ids_left self.new + 1 }
    {
        let base = self.id_of(Symbol::Memory(room));
        let type_id = self.id_of(Symbol::AType(TypeSymbol::WordPointer(storage_class::WORKGROUP)));
        self.value(op::ACCESS_CHAIN, type_id, &[base, at])
    }

    /// A pointer to the word of a view or a counter at an index.
    fn view_pointer(&mut self, room: Room, at: u32) -> u32
        requires view { class_of room ≡ storage.StorageBuffer }
        requires begun { IsBegun self.old }
        requires there { IsThere self.old.symbols.entries (Memory room) }
        requires words { 6 ≤ words_left self.old }
        requires ids { 1 ≤ ids_left self.old }
        ensures points { PointsTo self.old self.new room at result }
        ensures begun { IsBegun self.new }
        ensures words { words_left self.old ≤ words_left self.new + 6 }
        ensures ids { ids_left self.old ≤ ids_left self.new + 1 }
    {
        let base = self.id_of(Symbol::Memory(room));
        let member = self.zero();
        let type_id = self.id_of(Symbol::AType(TypeSymbol::WordPointer(
            storage_class::STORAGE_BUFFER,
        )));
        self.value(op::ACCESS_CHAIN, type_id, &[base, member, at])
    }

    /// A pointer to the word of a room at an index.
    pub(crate) fn room_pointer(&mut self, room: Room, at: u32) -> u32
        requires begun { IsBegun self.old }
        requires there { IsThere self.old.symbols.entries (Memory room) }
        requires words { 6 ≤ words_left self.old }
        requires ids { 1 ≤ ids_left self.old }
        ensures points { PointsTo self.old self.new room at result }
        ensures begun { IsBegun self.new }
        ensures words { words_left self.old ≤ words_left self.new + 6 }
        ensures ids { ids_left self.old ≤ ids_left self.new + 1 }
    {
        match room {
            Room::Shared(_) => self.shared_pointer(room, at),
            Room::Resource(_) => self.view_pointer(room, at),
            Room::Uav(_) => self.view_pointer(room, at),
            Room::Counter(_) => self.view_pointer(room, at),
        }
    }
}
