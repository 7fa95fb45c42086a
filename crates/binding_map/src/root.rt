ghost use Rattle.std.specs.Prelude.{◌≡◌, ◌≤◌, [], ◌∷◌, length, None, Some, IfOk, OnOk};
ghost use Rattle.binding_map.specs.Roots.{root_map, want};
ghost use Rattle.binding_map.specs.Numbering.{register_in};
ghost use Rattle.binding_map.specs.Growing.{MayGrow, Grows, marked_run, marked_by};

use crate::bindings::Bindings;
use crate::defaults::{Group, register};
use crate::register::{Place, Register};
use crate::registers::Registers;
use root_signature::{Covers, RootSignature};
use std::alloc::Global;
use tpf_program::Program;
use word_base::NoMemory;

/// A map that grows, and the next binding number of set 0.
#[derive(Drop)]
pub(crate) struct Growing {
    pub(crate) bindings: Bindings,
    pub(crate) next: u32,
}

impl Growing {
    /// Binds a register in push constant words, or without them at the next binding.
    fn bind(&mut self, group: Group, slot: u32, words: Option<Place>) -> Result<(), NoMemory>
        requires { MayGrow self.old (want (register_in group) words slot ∷ []) }
        ensures { OnOk result (Grows self.old self.new (want (register_in group) words slot ∷ [])) }
    {
        let binding = self.next;
        match words {
            Some(place) => self.bindings.add(register(group, slot), place),
            None => {
                self.next = binding + 1;
                let place = Place::Bound { set: 0, binding };
                self.bindings.add(register(group, slot), place)
            }
        }
    }

    /// Binds so many registers of a group from the base on, of those that are marked.
    fn bind_run(
        &mut self,
        group: Group,
        marks: &[bool],
        base: u32,
        count: u32,
        words: Option<Place>,
    ) -> Result<(), NoMemory>
        requires marks { length marks.now ≤ 128 }
        requires grow { MayGrow self.old (marked_run group marks.now base count words) }
        ensures { OnOk result (Grows self.old self.new (marked_run group marks.now base count words)) }
    {
        let end = base.saturating_add(count).min(marks.len() as u32);
        for slot in base..end {
            if marks[slot as usize] {
                self.bind(group, slot, words)?;
            }
        }
        Ok(())
    }

    /// Binds the marked registers that an entry of a root signature covers.
    fn cover(&mut self, registers: &Registers, covers: Covers) -> Result<(), NoMemory>
        requires { MayGrow self.old (marked_by registers.now covers) }
        ensures { OnOk result (Grows self.old self.new (marked_by registers.now covers)) }
    {
        match covers {
            Covers::Constants {
                register,
                first,
                count,
            } => {
                let words = Some(Place::Push { first, count });
                self.bind_run(Group::Constants, &registers.constants, register, 1, words)
            }
            Covers::Cbv { base, count } => {
                self.bind_run(Group::Constants, &registers.constants, base, count, None)
            }
            Covers::Srv { base, count } => {
                self.bind_run(Group::Resources, &registers.resources, base, count, None)
            }
            Covers::Uav { base, count } => {
                self.bind_run(Group::Uavs, &registers.uavs, base, count, None)
            }
        }
    }
}

/// The bindings of a program under a root signature: the declared registers that it covers, in the order
/// of covering, and then the counters by their slots. A constant buffer that root constants cover is in
/// push constant words; all others are at set 0 and the bindings 0, 1, 2 and so on. What is not covered
/// is left out.
///
/// # Errors
///
/// `NoMemory` where the map can't grow.
pub fn from_root(
    alloc: Global,
    root: &RootSignature,
    program: &Program,
) -> Result<Bindings, NoMemory>
    ensures { IfOk result (λ bindings. bindings ≡ root_map root.now program.now.shader) }
{
    let registers = Registers::of(program);
    let mut growing = Growing {
        bindings: Bindings::empty(alloc),
        next: 0,
    };
    for i in 0..root.len() {
        growing.cover(&registers, root.at(i))?;
    }
    growing.bind_run(Group::Counters, &registers.counters, 0, 64, None)?;
    Ok(growing.bindings)
}
