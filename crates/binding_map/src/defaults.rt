ghost use Rattle.std.specs.Prelude.{◌≡◌, ◌+◌, ◌≤◌, ◌++◌, length, IfOk, OnOk};
ghost use Rattle.binding_map.specs.Defaults.{default_map, numbered};
ghost use Rattle.binding_map.specs.Numbering.{register_in, marked_in, marked_registers, AreBefore, AreNumbered};

use crate::bindings::Bindings;
use crate::register::{Place, Register};
use crate::registers::Registers;
use std::alloc::Global;
use tpf_program::Program;
use word_base::NoMemory;

/// The kinds of registers, in the order in which they are numbered.
#[derive(Clone, Copy)]
pub(crate) enum Group {
    Constants,
    Resources,
    Uavs,
    Counters,
}

pub(crate) fn register(group: Group, slot: u32) -> Register
    ensures { result ≡ register_in group slot }
{
    match group {
        Group::Constants => Register::Constant(slot),
        Group::Resources => Register::Resource(slot),
        Group::Uavs => Register::Uav(slot),
        Group::Counters => Register::Counter(slot),
    }
}

/// Binds the marked slots of a group at the next numbers.
fn number(bindings: &mut Bindings, group: Group, marks: &[bool]) -> Result<(), NoMemory>
    requires few { length bindings.old + length marks.now ≤ 1000 }
    requires numbered { AreNumbered bindings.old }
    requires before { AreBefore group 0 bindings.old }
    ensures list { OnOk result (bindings.new ≡ bindings.old ++ numbered (length bindings.old) (marked_in group marks.now)) }
    ensures numbered { OnOk result (AreNumbered bindings.new) }
    ensures before { OnOk result (AreBefore group (length marks.now) bindings.new) }
    ensures count { OnOk result (length bindings.new ≤ length bindings.old + length marks.now) }
{
    for slot in 0..marks.len() {
        if marks[slot] {
            bindings.add_next(register(group, slot as u32))?;
        }
    }
    Ok(())
}

/// Binds the marked registers, group by group.
pub(crate) fn bind(alloc: Global, registers: &Registers) -> Result<Bindings, NoMemory>
    ensures { IfOk result (λ bindings. bindings ≡ numbered 0 (marked_registers registers.now)) }
{
    let mut bindings = Bindings::empty(alloc);
    number(&mut bindings, Group::Constants, &registers.constants)?;
    number(&mut bindings, Group::Resources, &registers.resources)?;
    number(&mut bindings, Group::Uavs, &registers.uavs)?;
    number(&mut bindings, Group::Counters, &registers.counters)?;
    Ok(bindings)
}

/// The bindings of a program without a root signature and without a binding text: its constant buffers,
/// then its t#, then its u#, then its counters, each by ascending slot, are at set 0 and the bindings 0,
/// 1, 2 and so on.
///
/// # Errors
///
/// `NoMemory` where the map can't grow.
pub fn from_default(alloc: Global, program: &Program) -> Result<Bindings, NoMemory>
    ensures { IfOk result (λ bindings. bindings ≡ default_map program.now.shader) }
{
    bind(alloc, &Registers::of(program))
}
