ghost use Rattle.std.specs.Prelude.{◌≡◌, ◌+◌, ◌<◌, ◌≤◌, ℕ, if◌then◌else◌, false, [], length};
ghost use Rattle.shader_tree.specs.Nodes.{AWord};
ghost use Rattle.tpf_program.specs.Plans.{classes_of, scope_of};
ghost use Rattle.tpf_program.specs.Sizes.{of_view};
ghost use Rattle.tpf_program.specs.Views.{room_of};
ghost use Rattle.tpf_program.specs.Writes.{has_bit};
ghost use Rattle.raise_operands.specs.Building.{AreFew, AreOperands, Grows, IsNode, IsStep, step_of};
ghost use Rattle.raise_operands.specs.Raising.{chained_from};
ghost use Rattle.raise_operands.specs.Vectors.{spaces_of};
ghost use Rattle.raise_views.specs.Counting.{events_nodes, given_most};
ghost use Rattle.raise_views.specs.Giving.{given_nodes, given_word};
ghost use Rattle.raise_views.specs.Guarding.{at_of, given_by, keeps_by, measure_by, parts_by, reach_of, stride_of, sync_part, way_of, work_by};
ghost use Rattle.raise_views.specs.Making.{length_of};

use crate::address::{room_of, view};
use crate::events::parts;
use crate::locate::structures;
use crate::parts::then;
use crate::reach::reach;
use crate::writing::Given;
use raise_operands::{Operands, expr, operand_laws, stmt};
use shader_tree::{Expr, Stmt, Tree};
use tpf_decode::Meaning;
use tpf_program::{Argument, Instruction, Program, ViewKind};
use word_base::{Classes, Room, Scope};

/// The statements that keep the address of an instruction and make its events, behind a statement.
fn events(
    tree: &mut Tree,
    program: &Program,
    front: Option<u32>,
    meaning: Meaning,
    os: &Operands,
) -> Option<u32>
    requires typed { program.now.shader.typed ≡ [] }
    requires front { IsStep tree.old.nodes front (step_of tree.old.nodes front) }
    requires few { AreFew (spaces_of program.now.shader) }
    requires operands { AreOperands tree.old.nodes (spaces_of program.now.shader) os.now }
    requires room { length tree.old.nodes + events_nodes meaning (at_of meaning program.now.shader os.now.instruction).way
        os.now ≤ tree.old.capacity }
    ensures grows { Grows tree.old tree.new (events_nodes meaning
        (at_of meaning program.now.shader os.now.instruction).way os.now) }
    ensures makes { let p = program.now.shader in let i = os.now.instruction in IsStep tree.new.nodes result
        (chained_from (chained_from (step_of tree.old.nodes front) (keeps_by meaning (at_of meaning p i)))
        (parts_by meaning (spaces_of p) (reach_of meaning p i) i)) }
{
    operand_laws();
    let (reach, front) = reach(tree, program, front, meaning, os);
    parts(tree, program, front, meaning, reach, os)
}

/// What `bufinfo` says of the length of a view.
fn length_of(tree: &mut Tree, view: ViewKind, room: Room) -> u32
    requires room { length tree.old.nodes + 2 ≤ tree.old.capacity }
    ensures grows { Grows tree.old tree.new 2 }
    ensures makes { IsNode tree.new.nodes AWord result (length_of (of_view false view) room) }
{
    match view {
        ViewKind::Raw => {
            let a = expr(tree, Expr::Length(room));
            expr(tree, Expr::Product { a, by: 4 })
        }
        ViewKind::Structured { stride } => structures(tree, stride / 4, room),
    }
}

/// The statement that takes the length of a view, behind a statement. Of a null room nothing is taken.
fn measure(
    tree: &mut Tree,
    program: &Program,
    front: Option<u32>,
    null: bool,
    at: Argument,
) -> Option<u32>
    requires typed { program.now.shader.typed ≡ [] }
    requires front { IsStep tree.old.nodes front (step_of tree.old.nodes front) }
    requires room { length tree.old.nodes + 4 ≤ tree.old.capacity }
    ensures grows { Grows tree.old tree.new 4 }
    ensures makes { IsStep tree.new.nodes result (chained_from (step_of tree.old.nodes front)
        (if null then [] else measure_by (way_of program.now.shader at) (room_of at))) }
{
    if null {
        return front;
    }
    let value = length_of(
        tree,
        view(program, at.kind, at.slot),
        room_of(at.kind, at.slot),
    );
    let next = stmt(tree, Stmt::Set { scratch: 12, value });
    then(tree, front, next)
}

/// Whether a bit of a word is set.
fn has_bit(word: u32, n: u8) -> bool
    requires { n < 32 }
    ensures { result ≡ has_bit word n }
{
    (word >> n) % 2 == 1
}

/// Whose order a `sync` speaks of, by its flags.
fn scope_of(controls: u32) -> Scope
    ensures { result ≡ scope_of controls }
{
    if has_bit(controls, 14) {
        Scope::Device
    } else {
        Scope::Group
    }
}

/// The memory that a `sync` orders, by its flags.
fn classes_of(controls: u32) -> Classes
    ensures { result ≡ classes_of controls }
{
    Classes {
        buffers: has_bit(controls, 13) || has_bit(controls, 14),
        shared: has_bit(controls, 12),
    }
}

/// The statement of a `sync`, behind a statement.
fn sync(tree: &mut Tree, front: Option<u32>, controls: u32) -> Option<u32>
    requires front { IsStep tree.old.nodes front (step_of tree.old.nodes front) }
    requires room { length tree.old.nodes + 2 ≤ tree.old.capacity }
    ensures grows { Grows tree.old tree.new 2 }
    ensures makes { IsStep tree.new.nodes result (chained_from (step_of tree.old.nodes front) (sync_part controls)) }
{
    let threads = has_bit(controls, 11);
    let scope = scope_of(controls);
    let classes = classes_of(controls);
    let next = stmt(
        tree,
        Stmt::Sync {
            threads,
            scope,
            classes,
        },
    );
    then(tree, front, next)
}

/// The statements of an instruction, but for those that write its words, behind a statement. Of a null
/// room it neither takes the length nor makes an event.
pub(crate) fn work(
    tree: &mut Tree,
    program: &Program,
    front: Option<u32>,
    meaning: Meaning,
    null: bool,
    os: &Operands,
) -> Option<u32>
    requires typed { program.now.shader.typed ≡ [] }
    requires front { IsStep tree.old.nodes front (step_of tree.old.nodes front) }
    requires few { AreFew (spaces_of program.now.shader) }
    requires operands { AreOperands tree.old.nodes (spaces_of program.now.shader) os.now }
    requires room { length tree.old.nodes + events_nodes meaning (at_of meaning program.now.shader os.now.instruction).way
        os.now ≤ tree.old.capacity }
    ensures grows { Grows tree.old tree.new (events_nodes meaning
        (at_of meaning program.now.shader os.now.instruction).way os.now) }
    ensures makes { let w = work_by meaning null program.now.shader os.now.instruction in IsStep tree.new.nodes result
        (chained_from (chained_from (step_of tree.old.nodes front) w.kept) w.parts) }
{
    match meaning {
        Meaning::Syncs => sync(tree, front, os.instruction.controls),
        Meaning::Measures => measure(tree, program, front, null, os.instruction.o1),
        _ => {
            if null {
                front
            } else {
                events(tree, program, front, meaning, os)
            }
        }
    }
}

/// The stride of a view, in bytes: 0 for one that has no structures.
fn stride_of(view: ViewKind) -> u32
    ensures { result ≡ stride_of (of_view false view) }
{
    match view {
        ViewKind::Raw => 0,
        ViewKind::Structured { stride } => stride,
    }
}

/// The words that an instruction gives whose room is not null.
fn given_by(meaning: Meaning) -> Given
    ensures words { (c : ℕ) → given_word result c ≡ given_by meaning c }
    ensures few { given_nodes result ≤ given_most meaning }
{
    match meaning {
        Meaning::LoadRaw | Meaning::LoadStructured => Given::Answers,
        Meaning::Consumes => Given::Less,
        _ => Given::Answer,
    }
}

/// The words that an instruction gives.
pub(crate) fn given(program: &Program, meaning: Meaning, null: bool, i: Instruction) -> Given
    requires typed { program.now.shader.typed ≡ [] }
    ensures words { (c : ℕ) → given_word result c ≡ (work_by meaning null program.now.shader i).values c }
    ensures few { given_nodes result ≤ given_most meaning }
{
    match meaning {
        Meaning::Syncs => Given::Zero,
        Meaning::Measures => Given::Measure {
            select: i.o1.select,
            first: !null,
            second: stride_of(view(program, i.o1.kind, i.o1.slot)),
        },
        _ => { if null { Given::Zero } else { given_by(meaning) } }
    }
}
