//! Barriers and fences.
ghost use Rattle.std.specs.Prelude.{◌≡◌, ◌+◌, ◌≤◌, if◌then◌else◌};
ghost use Rattle.shader_tree.specs.Costs.{words_in, ids_in};
ghost use Rattle.shader_tree.specs.Shape.{Waits, Fences};
ghost use Rattle.shader_tree.specs.Terms.{Sync};
ghost use Rattle.spirv_emit.specs.Begun.{IsBegun};
ghost use Rattle.spirv_emit.specs.Blocks.{Syncs, Meets};
ghost use Rattle.spirv_emit.specs.Emission.{words_left, ids_left};
ghost use Rattle.spirv_emit.specs.Rooms.{number_of_scope, semantics_of};

use crate::emitter::Emitter;
use spirv_words::{op, scope, semantics};
use word_base::{Classes, Scope};

/// The number of a scope.
fn scope_number(order: Scope) -> u32
    ensures { result ≡ number_of_scope order }
{
    match order {
        Scope::Device => scope::DEVICE,
        Scope::Group => scope::WORKGROUP,
    }
}

/// The semantics that order these classes of memory.
fn semantics_number(classes: Classes) -> u32
    ensures { result ≡ semantics_of classes }
{
    match (classes.buffers, classes.shared) {
        (false, false) => 0,
        (true, false) => semantics::ACQUIRE_RELEASE + semantics::UNIFORM_MEMORY,
        (false, true) => semantics::ACQUIRE_RELEASE + semantics::WORKGROUP_MEMORY,
        (true, true) => {
            semantics::ACQUIRE_RELEASE + semantics::UNIFORM_MEMORY + semantics::WORKGROUP_MEMORY
        },
    }
}

impl Emitter {
    /// Adds a fence, or a barrier at which the threads of a group wait for one another.
    pub fn sync(&mut self, threads: bool, order: Scope, classes: Classes)
        requires begun { IsBegun self.old }
        requires words { words_in (Sync threads order classes) ≤ words_left self.old }
        requires ids { ids_in (Sync threads order classes) ≤ ids_left self.old }
        ensures meets { Meets self.old self.new (if threads then Waits else Fences) (Syncs threads order classes) }
        ensures begun { IsBegun self.new }
        ensures words { words_left self.old ≤ words_left self.new + words_in (Sync threads order classes) }
        ensures ids { ids_left self.old ≤ ids_left self.new + ids_in (Sync threads order classes) }
    {
        if threads {
            let group = self.constant(scope::WORKGROUP);
            let scope = self.constant(scope_number(order));
            let semantics = self.constant(semantics_number(classes));
            self.act(op::CONTROL_BARRIER, &[group, scope, semantics]);
        } else {
            let scope = self.constant(scope_number(order));
            let semantics = self.constant(semantics_number(classes));
            self.act(op::MEMORY_BARRIER, &[scope, semantics]);
        }
    }
}
