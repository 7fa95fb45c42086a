//! The variables of a module, named in their order.
ghost use Rattle.std.specs.Prelude.{◌≡◌, ◌+◌, ◌*◌, ◌≤◌, ◌∷◌, [], length, option_map, Some, true};
ghost use Rattle.word_base.specs.declared.event.Room.TheVariants.{Shared};
ghost use Rattle.spirv_symbols.specs.declared.symbol.Symbol.{Symbol as TheSymbol};
ghost use Rattle.spirv_symbols.specs.declared.symbol.Symbol.TheVariants.{Input, Memory};
ghost use Rattle.spirv_emit.specs.Growing.{is_global};
ghost use Rattle.spirv_emit.specs.Naming.{is_variable};
ghost use Rattle.spirv_setup.specs.Describing.{of_some};
ghost use Rattle.binding_map.specs.SharedSlots.{has_words};
ghost use Rattle.spirv_emit.specs.Begun.{IsBegun};
ghost use Rattle.spirv_emit.specs.Emission.{words_left, ids_left};
ghost use Rattle.spirv_setup.specs.Naming.{MayName, NamesAll, NamesArrays, NamesConstants};
ghost use Rattle.spirv_setup.specs.Variables.{bound_variables, push_variable, push_variables, shared_variables, symbol_of, thread_variables, variable_at, where_true};
ghost use Rattle.binding_map.specs.Wanted.{input_of};

use crate::registers::has_register;
use binding_map::{Bindings, Place, Register};
use spirv_emit::Emitter;
use spirv_symbols::{Symbol, growth_laws};
use spirv_words::built_in;
use tpf_decode::Kind;
use tpf_program::{Declaration, Declared, Program};
use word_base::Room;

/// The variable of a register at a descriptor.
fn symbol_of(register: Register) -> Symbol
    ensures { result ≡ symbol_of register }
{
    match register {
        Register::Constant(slot) => Symbol::Uniform(slot),
        Register::Resource(slot) => Symbol::Memory(Room::Resource(slot)),
        Register::Uav(slot) => Symbol::Memory(Room::Uav(slot)),
        Register::Counter(slot) => Symbol::Memory(Room::Counter(slot)),
    }
}

/// The variable of a register of a program, where it is bound at a descriptor.
fn variable_at(program: &Program, register: Register, place: Place) -> Option<Symbol>
    ensures { result ≡ variable_at program.now.shader register place }
{
    match place {
        Place::Bound { .. } if has_register(program, register) => Some(symbol_of(register)),
        _ => None,
    }
}

/// The variable of a slot of shared memory, where the program gives it words.
fn shared_variable(program: &Program, slot: u32) -> Option<Symbol>
    ensures { result ≡ where_true (has_words program.now.shader slot) (Memory (Shared slot)) }
{
    if program.shared_words(slot) > 0 {
        Some(Symbol::Memory(Room::Shared(slot)))
    } else {
        None
    }
}

/// The variable of a thread id that is declared.
fn thread_variable(what: Declaration) -> Option<Symbol>
    ensures { result ≡ option_map (λ built_in. Input built_in) (input_of what) }
{
    match what {
        Declaration::Input { kind, .. } => match kind {
            Kind::ThreadId => Some(Symbol::Input(built_in::GLOBAL_INVOCATION_ID)),
            Kind::GroupId => Some(Symbol::Input(built_in::WORKGROUP_ID)),
            Kind::IdInGroup => Some(Symbol::Input(built_in::LOCAL_INVOCATION_ID)),
            Kind::FlatId => Some(Symbol::Input(built_in::LOCAL_INVOCATION_INDEX)),
            _ => None,
        },
        _ => None,
    }
}

/// The variable of push constants, where there are any words.
fn push_variable(words: u32) -> Option<Symbol>
    ensures { result ≡ push_variable words }
{
    if words == 0 { None } else { Some(Symbol::Push) }
}

/// Names a global variable, if it is one.
fn name_some(emitter: &mut Emitter, variable: Option<Symbol>)
    requires may { MayName emitter.old (of_some variable) }
    requires global { (s : TheSymbol) → variable ≡ Some s → (is_variable s ≡ true) × (is_global s ≡ true) }
    ensures { NamesAll emitter.old emitter.new (of_some variable) }
{
    growth_laws();
    if let Some(symbol) = variable {
        emitter.name(symbol);
    }
}

/// Names the variables of registers that are bound at descriptors, in the order of the map.
pub(crate) fn name_bound(emitter: &mut Emitter, program: &Program, bindings: &Bindings)
    requires { MayName emitter.old (bound_variables program.now.shader bindings.now) }
    ensures { NamesAll emitter.old emitter.new (bound_variables program.now.shader bindings.now) }
{
    growth_laws();
    for i in 0..bindings.len() {
        let (register, place) = bindings.at(i);
        let variable = variable_at(program, register, place);
        name_some(emitter, variable);
    }
}

/// Names the push constants, where there are any.
pub(crate) fn name_push(emitter: &mut Emitter, words: u32)
    requires { MayName emitter.old (push_variables words) }
    ensures { NamesAll emitter.old emitter.new (push_variables words) }
{
    let variable = push_variable(words);
    name_some(emitter, variable);
}

/// Names the shared memory of a program, by its slots.
pub(crate) fn name_shared(emitter: &mut Emitter, program: &Program)
    requires { MayName emitter.old (shared_variables program.now.shader) }
    ensures { NamesAll emitter.old emitter.new (shared_variables program.now.shader) }
{
    growth_laws();
    for slot in 0..64 {
        let variable = shared_variable(program, slot);
        name_some(emitter, variable);
    }
}

/// Names the thread ids of a program, in the order of their declarations.
pub(crate) fn name_threads(emitter: &mut Emitter, program: &Program)
    requires { MayName emitter.old (thread_variables program.now.shader) }
    ensures { NamesAll emitter.old emitter.new (thread_variables program.now.shader) }
{
    growth_laws();
    for i in 0..program.declarations() {
        let declared = program.declaration(i);
        let variable = thread_variable(declared.what);
        name_some(emitter, variable);
    }
}

/// Names the indexable registers `x#` that a declaration declares.
fn name_array(emitter: &mut Emitter, declared: Declared)
    requires begun { IsBegun emitter.old }
    requires words { 43 ≤ words_left emitter.old }
    requires ids { 6 ≤ ids_left emitter.old }
    ensures { NamesArrays emitter.old emitter.new (declared ∷ []) }
{
    growth_laws();
    if let Declaration::Indexable { slot, .. } = declared.what {
        emitter.name(Symbol::Elements(slot));
    }
}

/// Names the indexable registers `x#` of a program.
pub(crate) fn name_arrays(emitter: &mut Emitter, program: &Program)
    requires begun { IsBegun emitter.old }
    requires words { 43 * length program.now.shader.declarations ≤ words_left emitter.old }
    requires ids { 6 * length program.now.shader.declarations ≤ ids_left emitter.old }
    ensures { NamesArrays emitter.old emitter.new program.now.shader.declarations }
{
    growth_laws();
    for i in 0..program.declarations() {
        let declared = program.declaration(i);
        name_array(emitter, declared);
    }
}

/// Names the immediate constant buffer of a program, where it has words.
pub(crate) fn name_constants(emitter: &mut Emitter, program: &Program)
    requires begun { IsBegun emitter.old }
    requires said { emitter.old.frame.context.immediates ≡ program.now.shader.constants }
    requires words { 5 * length program.now.shader.constants + 20 ≤ words_left emitter.old }
    requires ids { length program.now.shader.constants + 5 ≤ ids_left emitter.old }
    ensures { NamesConstants emitter.old emitter.new program.now.shader.constants }
{
    growth_laws();
    if program.icb_words() > 0 {
        emitter.name_immediates();
    }
}
