//! An emitter with all that a program and its binding map declare.
ghost use Rattle.std.specs.Prelude.{◌≡◌, ◌+◌, ◌≤◌};
ghost use Rattle.binding_map.specs.Bindings.{IsMap};
ghost use Rattle.spirv_symbols.specs.ModuleWords.{kind_of};
ghost use Rattle.spirv_emit.specs.Begun.{IsNew};
ghost use Rattle.spirv_emit.specs.Emission.{words_left, ids_left};
ghost use Rattle.spirv_setup.specs.Premises.{IsDeclared, declared_ids, declared_words};
ghost use Rattle.spirv_setup.specs.Setup.{HasRoom, IsDescribed, IsSetUp};
ghost use Rattle.binding_map.specs.Wanted.{group_of, push_words};

use crate::describing::{say_declarations, say_immediates};
use crate::variables::{
    name_arrays, name_bound, name_constants, name_push, name_shared, name_threads,
};
use binding_map::{Bindings, push_words};
use spirv_emit::Emitter;
use spirv_symbols::{Kind, growth_laws};
use tpf_program::Program;

/// Says what a program and its binding map say of a module, and returns the words of its push constants.
fn describe(emitter: &mut Emitter, program: &Program, bindings: &Bindings) -> u32
    requires room { HasRoom program.now.shader emitter.old }
    requires declared { IsDeclared program.now.shader }
    ensures described { IsDescribed program.now.shader bindings.now emitter.new }
    ensures new { IsNew emitter.new }
    ensures rest { emitter.new ≡ record emitter.old { frame = emitter.new.frame } }
    ensures pushed { result ≡ push_words program.now.shader bindings.now }
    ensures map { IsMap bindings.now }
    ensures declared { emitter.new.frame.context.capacity ≡ emitter.old.frame.context.capacity }
    ensures immediates { emitter.new.frame.context.room ≡ emitter.old.frame.context.room }
    ensures buffers { emitter.new.frame.buffers.capacity ≡ emitter.old.frame.buffers.capacity }
{
    let pushed = push_words(program, bindings);
    emitter.set_sizes(4 * program.temps(), false, pushed);
    say_immediates(emitter, program);
    say_declarations(emitter, program, bindings);
    pushed
}

/// Declares in an emitter, as it was made or cleared, all variables that a program and its map want of a module, and
/// no others: in the order of the map, then push constants, shared memory by its slots, and thread ids.
///
/// Returns the version of the module and the threads of its groups. A register that is not bound is null and has no
/// variable. (SPIR-V specification, unified1, sections 2.16.1 and 3.52.8; Vulkan specification, Shader Interfaces.)
pub fn begin(emitter: &mut Emitter, program: &Program, bindings: &Bindings, version: u32) -> Kind
    requires room { HasRoom program.now.shader emitter.old }
    requires declared { IsDeclared program.now.shader }
    requires words { declared_words program.now.shader bindings.now ≤ emitter.old.code.capacity }
    requires base { 256 ≤ emitter.old.code.capacity }
    requires ids { declared_ids program.now.shader bindings.now ≤ emitter.old.symbols.limit }
    requires least { 64 ≤ emitter.old.symbols.limit }
    ensures set_up { IsSetUp program.now.shader bindings.now emitter.new }
    ensures code { emitter.new.code ≡ emitter.old.code }
    ensures kept { emitter.new.kept ≡ emitter.old.kept }
    ensures limit { emitter.new.symbols.limit ≡ emitter.old.symbols.limit }
    ensures kind { kind_of result ≡ record { version = version; threads = group_of program.now.shader } }
    ensures words { emitter.old.code.capacity
        ≤ words_left emitter.new + declared_words program.now.shader bindings.now }
    ensures ids { emitter.old.symbols.limit ≤ ids_left emitter.new + declared_ids program.now.shader bindings.now }
    ensures map { IsMap bindings.now }
    ensures declared { emitter.new.frame.context.capacity ≡ emitter.old.frame.context.capacity }
    ensures immediates { emitter.new.frame.context.room ≡ emitter.old.frame.context.room }
    ensures buffers { emitter.new.frame.buffers.capacity ≡ emitter.old.frame.buffers.capacity }
{
    growth_laws();
    let pushed = describe(emitter, program, bindings);
    emitter.start();
    name_bound(emitter, program, bindings);
    name_push(emitter, pushed);
    name_shared(emitter, program);
    name_threads(emitter, program);
    name_arrays(emitter, program);
    name_constants(emitter, program);
    let threads = program.threads();
    Kind {
        version,
        x: threads.x,
        y: threads.y,
        z: threads.z,
    }
}
