ghost use Rattle.std.specs.Prelude.{◌≡◌, ◌+◌, ◌*◌, ◌<◌, ◌≤◌, length};
ghost use Rattle.tpf_program.specs.Holding.{SelectsInRange};
ghost use Rattle.word_base.specs.declared.event.Act.TheVariants.{CompareExchange};
ghost use Rattle.shader_tree.specs.Terms.{Word};
ghost use Rattle.raise_operands.specs.Building.{AreFew, AreOperands, Grows, IsOperand, IsStep, source_nodes, step_of};
ghost use Rattle.raise_operands.specs.Raising.{chained_from, followed, source};
ghost use Rattle.raise_operands.specs.Vectors.{spaces_of};
ghost use Rattle.raise_views.specs.Counting.{load_nodes, parts_nodes, results_nodes};
ghost use Rattle.raise_views.specs.Giving.{given_word};
ghost use Rattle.raise_views.specs.Guarding.{counter_part, has_result, load_parts, parts_by, results, writes};
ghost use Rattle.raise_views.specs.Making.{more};
ghost use Rattle.raise_views.specs.Reaching.{atomic_part};

use crate::address::Reach;
use crate::joins::{loads, stores};
use crate::parts::{atomic_part, then};
use crate::writing::{Given, writes};
use raise_operands::{Operand, Operands, expr, id_of, operand_laws, source, stmt};
use shader_tree::{Expr, Stmt, Tree};
use tpf_decode::Meaning;
use tpf_program::{Argument, Kind, Program, Select};
use word_base::{Act, Room};

/// An atomic with one word, behind a statement.
fn atomic_one(
    tree: &mut Tree,
    program: &Program,
    front: Option<u32>,
    reach: Reach,
    kind: Act,
    from: Operand,
    answers: bool,
) -> Option<u32>
    requires front { IsStep tree.old.nodes front (step_of tree.old.nodes front) }
    requires few { AreFew (spaces_of program.now.shader) }
    requires from { IsOperand tree.old.nodes (spaces_of program.now.shader) from }
    requires room { length tree.old.nodes + (source_nodes from.argument +
        (16 + more reach.address.way)) ≤ tree.old.capacity }
    ensures grows { Grows tree.old tree.new (source_nodes from.argument + (16 + more reach.address.way)) }
    ensures makes { let word = source (spaces_of program.now.shader) in IsStep tree.new.nodes result (followed
        (step_of tree.old.nodes front)
        (atomic_part reach kind (word from.place.number from.argument 0) (Word 0) answers)) }
{
    let a = source(tree, program, from, 0);
    let a = id_of(tree, a);
    let b = expr(tree, Expr::Word(0));
    let part = atomic_part(tree, reach, kind, a, b, answers);
    then(tree, front, part)
}

/// An atomic that compares a word and puts another, behind a statement.
fn atomic_two(
    tree: &mut Tree,
    program: &Program,
    front: Option<u32>,
    reach: Reach,
    first: Operand,
    second: Operand,
    answers: bool,
) -> Option<u32>
    requires front { IsStep tree.old.nodes front (step_of tree.old.nodes front) }
    requires few { AreFew (spaces_of program.now.shader) }
    requires first { IsOperand tree.old.nodes (spaces_of program.now.shader) first }
    requires second { IsOperand tree.old.nodes (spaces_of program.now.shader) second }
    requires room { length tree.old.nodes + (source_nodes first.argument + source_nodes second.argument +
        (16 + more reach.address.way)) ≤ tree.old.capacity }
    ensures grows { Grows tree.old tree.new (source_nodes first.argument + source_nodes second.argument +
        (16 + more reach.address.way)) }
    ensures makes { let word = source (spaces_of program.now.shader) in IsStep tree.new.nodes result (followed
        (step_of tree.old.nodes front)
        (atomic_part reach CompareExchange (word first.place.number first.argument 0) (word second.place.number second.argument 0) answers)) }
{
    operand_laws();
    let a = source(tree, program, first, 0);
    let a = id_of(tree, a);
    let b = source(tree, program, second, 0);
    let b = id_of(tree, b);
    let part = atomic_part(tree, reach, Act::CompareExchange, a, b, answers);
    then(tree, front, part)
}

/// A step of a counter, behind a statement.
fn counter(tree: &mut Tree, front: Option<u32>, room: Room, kind: Act) -> Option<u32>
    requires front { IsStep tree.old.nodes front (step_of tree.old.nodes front) }
    requires room { length tree.old.nodes + 5 ≤ tree.old.capacity }
    ensures grows { Grows tree.old tree.new 5 }
    ensures makes { IsStep tree.new.nodes result (chained_from (step_of tree.old.nodes front)
        (counter_part room kind)) }
{
    let word = expr(tree, Expr::Word(0));
    let a = expr(tree, Expr::Word(1));
    let b = expr(tree, Expr::Word(0));
    let next = stmt(
        tree,
        Stmt::Atomic {
            scratch: 12,
            room,
            word,
            kind,
            a,
            b,
        },
    );
    then(tree, front, next)
}

/// The loads of an instruction, behind a statement.
fn load(
    tree: &mut Tree,
    front: Option<u32>,
    reach: Reach,
    to: Argument,
    view: Argument,
) -> Option<u32>
    requires front { IsStep tree.old.nodes front (step_of tree.old.nodes front) }
    requires select { SelectsInRange view.select }
    requires room { length tree.old.nodes + load_nodes to.kind (4 * (14 + more reach.address.way)) ≤ tree.old.capacity }
    ensures grows { Grows tree.old tree.new (load_nodes to.kind (4 * (14 + more reach.address.way))) }
    ensures makes { IsStep tree.new.nodes result (chained_from (step_of tree.old.nodes front)
        (load_parts reach to view)) }
{
    match to.kind {
        Kind::Null => front,
        _ => loads(tree, front, reach, to, view.select),
    }
}

/// The statements of an instruction's events, behind a statement.
pub(crate) fn parts(
    tree: &mut Tree,
    program: &Program,
    front: Option<u32>,
    meaning: Meaning,
    reach: Reach,
    os: &Operands,
) -> Option<u32>
    requires front { IsStep tree.old.nodes front (step_of tree.old.nodes front) }
    requires few { AreFew (spaces_of program.now.shader) }
    requires operands { AreOperands tree.old.nodes (spaces_of program.now.shader) os.now }
    requires room { length tree.old.nodes + parts_nodes meaning reach.address.way os.now ≤ tree.old.capacity }
    ensures grows { Grows tree.old tree.new (parts_nodes meaning reach.address.way os.now) }
    ensures makes { IsStep tree.new.nodes result (chained_from (step_of tree.old.nodes front) (parts_by meaning
        (spaces_of program.now.shader) reach os.now.instruction)) }
{
    operand_laws();
    match meaning {
        Meaning::LoadRaw => load(tree, front, reach, os.o0.argument, os.o2.argument),
        Meaning::LoadStructured => load(tree, front, reach, os.o0.argument, os.o3.argument),
        Meaning::StoreRaw => stores(tree, program, front, reach, os.o0.argument.select, os.o2),
        Meaning::StoreStructured => stores(
            tree,
            program,
            front,
            reach,
            os.o0.argument.select,
            os.o3,
        ),
        Meaning::Acts(kind) => atomic_one(tree, program, front, reach, kind, os.o2, false),
        Meaning::Compares => atomic_two(tree, program, front, reach, os.o2, os.o3, false),
        Meaning::Fetches(kind) => atomic_one(tree, program, front, reach, kind, os.o3, true),
        Meaning::Exchanges => atomic_two(tree, program, front, reach, os.o3, os.o4, true),
        Meaning::Allocates => counter(tree, front, reach.room, Act::Add),
        Meaning::Consumes => counter(tree, front, reach.room, Act::Sub),
        _ => front,
    }
}

/// Whether an instruction gives words.
fn has_result(meaning: Meaning) -> bool
    ensures { result ≡ has_result meaning }
{
    matches!(
        meaning,
        Meaning::LoadRaw
            | Meaning::LoadStructured
            | Meaning::Measures
            | Meaning::Fetches(_)
            | Meaning::Exchanges
            | Meaning::Allocates
            | Meaning::Consumes
    )
}

/// Writes the words that an instruction gives, behind a statement.
pub(crate) fn results(
    tree: &mut Tree,
    program: &Program,
    front: Option<u32>,
    meaning: Meaning,
    os: &Operands,
    given: Given,
) -> Option<u32>
    requires front { IsStep tree.old.nodes front (step_of tree.old.nodes front) }
    requires few { AreFew (spaces_of program.now.shader) }
    requires operands { AreOperands tree.old.nodes (spaces_of program.now.shader) os.now }
    requires room { length tree.old.nodes + results_nodes meaning given os.now ≤ tree.old.capacity }
    ensures grows { Grows tree.old tree.new (results_nodes meaning given os.now) }
    ensures makes { let i = os.now.instruction in IsStep tree.new.nodes result
        (chained_from (step_of tree.old.nodes front) (writes (spaces_of program.now.shader) i (given_word given) (results meaning i))) }
{
    if has_result(meaning) {
        writes(tree, program, front, os.o0, given)
    } else {
        front
    }
}
