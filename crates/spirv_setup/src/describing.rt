//! What is said of the variables of a module.
ghost use Rattle.std.specs.Prelude.{◌≡◌, ◌+◌, ◌*◌, ◌<◌, ◌≤◌, ◌∷◌, [], false, length};
ghost use Rattle.word_base.specs.declared.event.Room.TheVariants as room;
ghost use Rattle.tpf_program.specs.declared.declaration.Declaration.TheVariants.{Constants, Shared};
ghost use Rattle.tpf_program.specs.Declarations.{register_count, shared_bytes};
ghost use Rattle.tpf_program.specs.Extents.{shared_words};
ghost use Rattle.shader_check.specs.Facts.{AreDeclared};
ghost use Rattle.binding_map.specs.declared.register.Register.TheVariants as register;
ghost use Rattle.binding_map.specs.Bindings.{place_of};
ghost use Rattle.spirv_symbols.specs.declared.symbol.Symbol.TheVariants.{Memory};
ghost use Rattle.spirv_emit.specs.Begun.{IsNew};
ghost use Rattle.spirv_setup.specs.Describing.{Describes, of_some};
ghost use Rattle.spirv_setup.specs.Descriptions.{binding_in, buffer_at, buffer_by, buffers_of, described, described_by, descriptions, set_in};

use binding_map::{Bindings, Place, Register};
use spirv_emit::{ConstantBuffer, Emitter};
use spirv_symbols::{Declared, Symbol};
use tpf_program::{Declaration, Program, SharedKind};
use word_base::Room;

/// The words of shared memory.
fn shared_words(kind: SharedKind, slot: u32) -> u32
    requires { shared_bytes (Shared slot kind) ≤ 32768 }
    ensures { result ≡ shared_words kind }
{
    match kind {
        SharedKind::Raw { bytes } => bytes / 4,
        SharedKind::Structured { stride, count } => stride / 4 * count,
    }
}

/// The set and binding of a register at a descriptor; 0 where it is not at one.
fn set_and_binding(place: Option<Place>) -> (u32, u32)
    ensures set { result.0 ≡ set_in place }
    ensures binding { result.1 ≡ binding_in place }
{
    match place {
        Some(Place::Bound { set, binding }) => (set, binding),
        Some(Place::Push { .. }) => (0, 0),
        None => (0, 0),
    }
}

/// Says the size of a variable, and where it is bound.
fn say(emitter: &mut Emitter, variable: Symbol, size: u32, place: Option<Place>, coherent: bool)
    requires new { IsNew emitter.old }
    requires room { length emitter.old.frame.context.declared < emitter.old.frame.context.capacity }
    ensures { Describes emitter.old emitter.new (described variable size place coherent ∷ []) [] }
{
    let (set, binding) = set_and_binding(place);
    emitter.declare(Declared {
        variable,
        size,
        set,
        binding,
        coherent,
    });
}

/// A constant buffer that is bound.
fn buffer_at(slot: u32, vectors: u32, place: Option<Place>) -> Option<ConstantBuffer>
    ensures { result ≡ buffer_at slot vectors place }
{
    match place {
        Some(place) => Some(ConstantBuffer {
            slot,
            vectors,
            place,
        }),
        None => None,
    }
}

/// Adds a constant buffer, if it is one.
fn add_buffer(emitter: &mut Emitter, buffer: Option<ConstantBuffer>)
    requires new { IsNew emitter.old }
    requires room { length emitter.old.frame.buffers.list < emitter.old.frame.buffers.capacity }
    ensures { Describes emitter.old emitter.new [] (of_some buffer) }
{
    if let Some(buffer) = buffer {
        emitter.push_buffer(buffer);
    }
}

/// Says what a declaration says of a constant buffer, and adds it where it is bound.
fn say_constants(emitter: &mut Emitter, bindings: &Bindings, slot: u32, size: u32)
    requires new { IsNew emitter.old }
    requires room { length emitter.old.frame.context.declared < emitter.old.frame.context.capacity }
    requires buffers { length emitter.old.frame.buffers.list < emitter.old.frame.buffers.capacity }
    ensures { Describes emitter.old emitter.new (described_by bindings.now (Constants slot size))
        (of_some (buffer_by bindings.now (Constants slot size))) }
{
    let place = bindings.place_of(Register::Constant(slot));
    say(emitter, Symbol::Uniform(slot), size, place, false);
    let buffer = buffer_at(slot, size, place);
    add_buffer(emitter, buffer);
}

/// Says what a declaration says of a view that is read and written, and of its counter.
fn say_uav(emitter: &mut Emitter, bindings: &Bindings, slot: u32, coherent: bool)
    requires new { IsNew emitter.old }
    requires room { length emitter.old.frame.context.declared + 2 ≤ emitter.old.frame.context.capacity }
    ensures { Describes emitter.old emitter.new
        (described (Memory (room.Uav slot)) 0 (place_of bindings.now (register.Uav slot)) coherent
        ∷ described (Memory (room.Counter slot)) 0 (place_of bindings.now (register.Counter slot)) false ∷ []) [] }
{
    let place = bindings.place_of(Register::Uav(slot));
    say(emitter, Symbol::Memory(Room::Uav(slot)), 0, place, coherent);
    let counter = bindings.place_of(Register::Counter(slot));
    say(
        emitter,
        Symbol::Memory(Room::Counter(slot)),
        0,
        counter,
        false,
    );
}

/// Says what a declaration says of variables.
fn say_declaration(emitter: &mut Emitter, bindings: &Bindings, what: Declaration)
    requires new { IsNew emitter.old }
    requires shared { shared_bytes what ≤ 32768 }
    requires registers { register_count what ≤ 4096 }
    requires room { length emitter.old.frame.context.declared + 2 ≤ emitter.old.frame.context.capacity }
    requires buffers { length emitter.old.frame.buffers.list < emitter.old.frame.buffers.capacity }
    ensures { Describes emitter.old emitter.new (described_by bindings.now what)
        (of_some (buffer_by bindings.now what)) }
{
    match what {
        Declaration::Constants { slot, size } => say_constants(emitter, bindings, slot, size),
        Declaration::Resource { slot, .. } => {
            let place = bindings.place_of(Register::Resource(slot));
            say(
                emitter,
                Symbol::Memory(Room::Resource(slot)),
                0,
                place,
                false,
            );
        }
        Declaration::Uav { slot, coherent, .. } => say_uav(emitter, bindings, slot, coherent),
        Declaration::Shared { slot, kind } => {
            let size = shared_words(kind, slot);
            say(
                emitter,
                Symbol::Memory(Room::Shared(slot)),
                size,
                None,
                false,
            );
        }
        Declaration::Indexable { slot, count, .. } => {
            say(emitter, Symbol::Elements(slot), 4 * count, None, false);
        }
        Declaration::Flags(_) => {}
        Declaration::Input { .. } => {}
        Declaration::Temps(_) => {}
        Declaration::Group { .. } => {}
        Declaration::ImmediateConstants { .. } => {}
    }
}

/// Says what all declarations of a program say of variables.
pub(crate) fn say_declarations(emitter: &mut Emitter, program: &Program, bindings: &Bindings)
    requires new { IsNew emitter.old }
    requires declared { AreDeclared program.now.shader }
    requires none { emitter.old.frame.context.declared ≡ [] }
    requires empty { emitter.old.frame.buffers.list ≡ [] }
    requires room { 2 * length program.now.shader.declarations ≤ emitter.old.frame.context.capacity }
    requires buffers { length program.now.shader.declarations ≤ emitter.old.frame.buffers.capacity }
    ensures { Describes emitter.old emitter.new (descriptions program.now.shader bindings.now)
        (buffers_of program.now.shader bindings.now) }
{
    for i in 0..program.declarations() {
        let declared = program.declaration(i);
        say_declaration(emitter, bindings, declared.what);
    }
}

/// Says the words of the immediate constant buffer.
pub(crate) fn say_immediates(emitter: &mut Emitter, program: &Program)
    requires new { IsNew emitter.old }
    requires none { emitter.old.frame.context.immediates ≡ [] }
    requires room { length program.now.shader.constants ≤ emitter.old.frame.context.room }
    ensures { emitter.new ≡ record emitter.old {
      frame = record emitter.old.frame {
        context = record emitter.old.frame.context { immediates = program.now.shader.constants };
      };
    } }
{
    for i in 0..program.icb_words() {
        let word = program.icb_word(i);
        emitter.push_immediate(word);
    }
}
