//! Which registers a program has.
ghost use Rattle.std.specs.Prelude.{◌≡◌};
ghost use Rattle.std.specs.List.{list_any};
ghost use Rattle.tpf_program.specs.Extents.{is_resource, is_uav, steps_counter};
ghost use Rattle.spirv_setup.specs.Variables.{has_register};
ghost use Rattle.binding_map.specs.Wanted.{declares};

use binding_map::Register;
use tpf_program::{Declaration, Instruction, Program};

/// The opcodes that step a counter: `imm_atomic_alloc` and `imm_atomic_consume`.
const ALLOCATE: u32 = 178;

const CONSUME: u32 = 179;

/// Whether a declaration is of the view `t#` of a slot.
fn is_resource(what: Declaration, slot: u32) -> bool
    ensures { result ≡ is_resource slot what }
{
    match what {
        Declaration::Resource { slot: declared, .. } => declared == slot,
        _ => false,
    }
}

/// Whether a declaration is of the view `u#` of a slot.
fn is_uav(what: Declaration, slot: u32) -> bool
    ensures { result ≡ is_uav slot what }
{
    match what {
        Declaration::Uav { slot: declared, .. } => declared == slot,
        _ => false,
    }
}

/// Whether an instruction steps the counter of a slot.
fn steps(instruction: Instruction, slot: u32) -> bool
    ensures { result ≡ steps_counter slot instruction }
{
    (instruction.code == ALLOCATE || instruction.code == CONSUME) && instruction.o1.slot == slot
}

/// Whether a program declares the view `t#` of a slot.
fn declares_resource(program: &Program, slot: u32) -> bool
    ensures { result ≡ declares is_resource program.now.shader slot }
{
    for i in 0..program.declarations() {
        let declared = program.declaration(i);
        if is_resource(declared.what, slot) {
            return true;
        }
    }
    false
}

/// Whether a program declares the view `u#` of a slot.
fn declares_uav(program: &Program, slot: u32) -> bool
    ensures { result ≡ declares is_uav program.now.shader slot }
{
    for i in 0..program.declarations() {
        let declared = program.declaration(i);
        if is_uav(declared.what, slot) {
            return true;
        }
    }
    false
}

/// Whether a program steps the counter of a slot.
fn steps_counter(program: &Program, slot: u32) -> bool
    ensures { result ≡ list_any (steps_counter slot) program.now.shader.instructions }
{
    for i in 0..program.instructions() {
        let instruction = program.instruction(i);
        if steps(instruction, slot) {
            return true;
        }
    }
    false
}

/// Whether a program has a register: declares a constant buffer or view, or steps a counter.
pub(crate) fn has_register(program: &Program, register: Register) -> bool
    ensures { result ≡ has_register program.now.shader register }
{
    match register {
        Register::Constant(slot) => program.vectors(slot) > 0,
        Register::Resource(slot) => declares_resource(program, slot),
        Register::Uav(slot) => declares_uav(program, slot),
        Register::Counter(slot) => steps_counter(program, slot),
    }
}
