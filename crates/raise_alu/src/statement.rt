ghost use Rattle.std.specs.Prelude.{◌+◌, ◌<◌, ◌≤◌, if◌then◌else◌, IsTrue, length};
ghost use Rattle.shader_tree.specs.Nodes.{a_word, has};
ghost use Rattle.shader_tree.specs.Terms.{Set, Scratch, Nothing, term_at};
ghost use Rattle.raise_operands.specs.Building.{CanWrite, Grows, IsStep, write_at, write_nodes};

use raise_operands::{Place, growing_laws, operand_laws, put_by, write};
use shader_tree::Tree;

/// What is done for a component that is written: now, and behind all components.
#[derive(Clone, Copy, Debug, PartialEq, Eq)]
pub(crate) struct Steps {
    /// The statement that stands in its turn.
    pub(crate) now: Option<u32>,
    /// The one that stands behind those of all components.
    pub(crate) behind: Option<u32>,
}

/// What is done for a component of an instruction.
#[derive(Clone, Copy, Debug, PartialEq, Eq)]
pub(crate) struct Component {
    /// For the first destination.
    pub(crate) first: Steps,
    /// For the second.
    pub(crate) second: Steps,
}

/// The statements of four components in their order, each of which may be none.
#[derive(Clone, Copy, Debug, PartialEq, Eq)]
pub(crate) struct Four {
    pub(crate) x: Option<u32>,
    pub(crate) y: Option<u32>,
    pub(crate) z: Option<u32>,
    pub(crate) w: Option<u32>,
}

/// What is done for the four components of an instruction.
#[derive(Clone, Copy, Debug, PartialEq, Eq)]
pub(crate) struct Components {
    /// In their turn, for the first destination.
    pub(crate) first_now: Four,
    /// In their turn, for the second.
    pub(crate) second_now: Four,
    /// Behind all, for the first destination.
    pub(crate) first_behind: Four,
    /// Behind all, for the second.
    pub(crate) second_behind: Four,
}

/// What is done for a component that is written, which waits in a scratch word or does not.
pub(crate) fn write_in_turn(
    tree: &mut Tree,
    place: Place,
    component: u8,
    value: u32,
    scratch: u32,
    waits: bool,
) -> Steps
    requires place { CanWrite tree.old.nodes place.vector place.number place.kept }
    requires value { IsTrue (has tree.old.nodes (a_word value)) }
    requires component { component < 4 }
    requires room { length tree.old.nodes + (write_nodes place.vector component + 2) ≤ tree.old.capacity }
    ensures grows { Grows tree.old tree.new (write_nodes place.vector component + 2) }
    ensures now { let term = term_at tree.old.nodes in
        IsStep tree.new.nodes result.now (if waits then Set scratch (term value) else write_at place.vector
        (term place.kept.inside) place.number component (term value)) }
    ensures behind { let term = term_at tree.old.nodes in
        IsStep tree.new.nodes result.behind (if waits then write_at place.vector (term place.kept.inside) place.number component
        (Scratch scratch) else Nothing) }
{
    growing_laws();
    operand_laws();
    if !waits {
        return Steps {
            now: write(tree, place, component, value),
            behind: None,
        };
    }
    let (now, word) = put_by(tree, scratch, value);
    let behind = write(tree, place, component, word);
    Steps {
        now: Some(now),
        behind,
    }
}
