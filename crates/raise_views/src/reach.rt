ghost use Rattle.std.specs.Prelude.{◌≡◌, ◌+◌, ◌<◌, ◌≤◌, [], length};
ghost use Rattle.raise_operands.specs.Building.{AreFew, AreOperands, Grows, IsStep, step_of};
ghost use Rattle.raise_operands.specs.Raising.{chained_from};
ghost use Rattle.raise_operands.specs.Vectors.{spaces_of};
ghost use Rattle.raise_views.specs.Counting.{kept_nodes};
ghost use Rattle.raise_views.specs.Guarding.{at_of, keeps_by, room_by, view_of};
ghost use Rattle.raise_views.specs.Making.{IsAddressOf, IsReachOf};

use crate::address::{Address, Reach, Way, known_words, room_of};
use crate::kinds::kept;
use raise_operands::{Operands, operand_laws};
use shader_tree::Tree;
use tpf_decode::Meaning;
use tpf_program::{Argument, Instruction, Program};
use word_base::Room;

/// The address of a counter, which is one word.
const COUNTER: Address = Address {
    way: Way::Words,
    word: Some(0),
    index: Some(0),
};

/// The view that an instruction names.
fn view_of(meaning: Meaning, i: Instruction) -> Argument
    ensures { result ≡ view_of meaning i }
{
    match meaning {
        Meaning::LoadRaw => i.o2,
        Meaning::LoadStructured => i.o3,
        Meaning::Measures
        | Meaning::Fetches(_)
        | Meaning::Exchanges
        | Meaning::Allocates
        | Meaning::Consumes => i.o1,
        _ => i.o0,
    }
}

/// The room of an instruction: that of the view that it names, or the counter of that view.
pub(crate) fn room_by(meaning: Meaning, i: Instruction) -> Room
    ensures { result ≡ room_by meaning i }
{
    let view = view_of(meaning, i);
    match meaning {
        Meaning::Allocates | Meaning::Consumes => Room::Counter(view.slot),
        _ => room_of(view.kind, view.slot),
    }
}

/// The address of an instruction, which is kept behind a statement. That of a counter needs none.
fn address(
    tree: &mut Tree,
    program: &Program,
    front: Option<u32>,
    meaning: Meaning,
    os: &Operands,
) -> (Address, Option<u32>)
    requires typed { program.now.shader.typed ≡ [] }
    requires front { IsStep tree.old.nodes front (step_of tree.old.nodes front) }
    requires few { AreFew (spaces_of program.now.shader) }
    requires operands { AreOperands tree.old.nodes (spaces_of program.now.shader) os.now }
    requires room { length tree.old.nodes + kept_nodes meaning os.now ≤ tree.old.capacity }
    ensures grows { Grows tree.old tree.new (kept_nodes meaning os.now) }
    ensures address { IsAddressOf meaning (at_of meaning program.now.shader os.now.instruction) result.0 }
    ensures front { IsStep tree.new.nodes result.1 (chained_from (step_of tree.old.nodes front) (keeps_by meaning
        (at_of meaning program.now.shader os.now.instruction))) }
{
    match meaning {
        Meaning::Allocates | Meaning::Consumes => (COUNTER, front),
        _ => kept(tree, program, front, meaning, os),
    }
}

/// Where an instruction reaches its room, with what is kept of its address behind a statement.
pub(crate) fn reach(
    tree: &mut Tree,
    program: &Program,
    front: Option<u32>,
    meaning: Meaning,
    os: &Operands,
) -> (Reach, Option<u32>)
    requires typed { program.now.shader.typed ≡ [] }
    requires front { IsStep tree.old.nodes front (step_of tree.old.nodes front) }
    requires few { AreFew (spaces_of program.now.shader) }
    requires operands { AreOperands tree.old.nodes (spaces_of program.now.shader) os.now }
    requires room { length tree.old.nodes + kept_nodes meaning os.now ≤ tree.old.capacity }
    ensures grows { Grows tree.old tree.new (kept_nodes meaning os.now) }
    ensures reach { IsReachOf meaning program.now.shader os.now.instruction result.0 }
    ensures front { IsStep tree.new.nodes result.1 (chained_from (step_of tree.old.nodes front) (keeps_by meaning
        (at_of meaning program.now.shader os.now.instruction))) }
{
    let room = room_by(meaning, os.instruction);
    let known = known_words(program, room);
    let (address, front) = address(tree, program, front, meaning, os);
    let reach = Reach {
        room,
        known,
        address,
    };
    (reach, front)
}
