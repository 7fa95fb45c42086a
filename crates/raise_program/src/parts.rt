ghost use Rattle.std.specs.Prelude.{◌≡◌, ◌+◌, ◌-◌, ◌*◌, ◌≤◌, [], Some, None, false, length, option_map, true};
ghost use Rattle.binding_map.specs.Fits.{is_null_in};
ghost use Rattle.tpf_decode.specs.Profiles.{Base};
ghost use Rattle.tpf_decode.specs.Opcodes.{meaning_of};
ghost use Rattle.shader_tree.specs.declared.node.Node.TheVariants as node;
ghost use Rattle.shader_tree.specs.Nodes.{AStatement, ATruth, AWord, named};
ghost use Rattle.shader_tree.specs.Terms.{Guard, Switch, Then, term_at, term_by};
ghost use Rattle.raise_operands.specs.Building.{Grows, IsNode};
ghost use Rattle.raise_operands.specs.Raising.{scalar_front, scalar_word, statement_of};
ghost use Rattle.raise_views.specs.Guarding as guarding;
ghost use Rattle.raise_views.specs.Guarding.{is_guarded};
ghost use Rattle.raise_program.specs.Parts.{comparison_of, parts_of, plain_of, truth_of};
ghost use Rattle.raise_program.specs.Raised.{alone, goes_on};
ghost use Rattle.raise_program.specs.Walked.{chosen};
ghost use Rattle.raise_program.specs.Walking.{IsNumbered, IsOther, is_single, least_length};

use crate::walk::Bodies;
use binding_map::Bindings;
use raise_alu::{Scalar, expressions, scalar_operand};
use raise_operands::{expr, growing_laws, stmt};
use raise_views::guarded;
use shader_tree::{Comparison, Expr, Stmt, Tree};
use tpf_decode::{Meaning, instruction_meaning};
use tpf_program::{Instruction, Program};
use word_base::field;

/// An instruction of a program, with its number.
#[derive(Clone, Copy, Debug, PartialEq, Eq)]
pub(crate) struct Numbered {
    /// The number, counted from 0.
    pub(crate) number: u32,
    /// The instruction.
    pub(crate) instruction: Instruction,
}

/// The test of an instruction of control flow.
#[derive(Clone, Copy, Debug, PartialEq, Eq)]
struct Test {
    /// The statement that stands in front.
    front: u32,
    /// The truth, behind that statement.
    truth: u32,
}

/// The number that an instruction of control flow reads.
fn scalar(tree: &mut Tree, program: &Program, at: Numbered) -> Scalar
    requires at { IsNumbered program.now.shader at }
    requires room { length tree.old.nodes + 21 ≤ tree.old.capacity }
    ensures grows { Grows tree.old tree.new 21 }
    ensures front { IsNode tree.new.nodes AStatement result.front (scalar_front program.now.shader at.instruction) }
    ensures word { IsNode tree.new.nodes AWord result.word (scalar_word program.now.shader at.instruction) }
{
    scalar_operand(tree, program, at.number)
}

/// How the test of an instruction compares with 0.
fn comparison(instruction: Instruction) -> Comparison
    ensures { result ≡ comparison_of instruction }
{
    if field(instruction.controls, 18, 18) == 1 {
        Comparison::Unequal
    } else {
        Comparison::Equal
    }
}

/// The test of an instruction of control flow.
fn tested(tree: &mut Tree, program: &Program, at: Numbered) -> Test
    requires at { IsNumbered program.now.shader at }
    requires room { length tree.old.nodes + 23 ≤ tree.old.capacity }
    ensures grows { Grows tree.old tree.new 23 }
    ensures front { IsNode tree.new.nodes AStatement result.front (scalar_front program.now.shader at.instruction) }
    ensures truth { IsNode tree.new.nodes ATruth result.truth (truth_of program.now.shader at.instruction) }
{
    growing_laws();
    let scalar = scalar(tree, program, at);
    let zero = expr(tree, Expr::Word(0));
    let truth = expr(
        tree,
        Expr::Compare {
            how: comparison(at.instruction),
            a: scalar.word,
            b: zero,
        },
    );
    Test {
        front: scalar.front,
        truth,
    }
}

/// A statement that is run where the test of an instruction holds.
fn guard(tree: &mut Tree, program: &Program, at: Numbered, body: u32) -> u32
    requires at { IsNumbered program.now.shader at }
    requires body { IsNode tree.old.nodes AStatement body (term_at tree.old.nodes body) }
    requires room { length tree.old.nodes + 25 ≤ tree.old.capacity }
    ensures grows { Grows tree.old tree.new 25 }
    ensures makes { IsNode tree.new.nodes AStatement result (Then (scalar_front program.now.shader at.instruction)
        (Guard (truth_of program.now.shader at.instruction) (term_at tree.old.nodes body))) }
{
    growing_laws();
    let test = tested(tree, program, at);
    let next = stmt(
        tree,
        Stmt::Guard {
            truth: test.truth,
            body,
        },
    );
    stmt(
        tree,
        Stmt::Then {
            first: test.front,
            next,
        },
    )
}

/// One of two statements, by the test of an instruction.
fn choice(tree: &mut Tree, program: &Program, at: Numbered, yes: u32, no: u32) -> u32
    requires at { IsNumbered program.now.shader at }
    requires yes { IsNode tree.old.nodes AStatement yes (term_at tree.old.nodes yes) }
    requires no { IsNode tree.old.nodes AStatement no (term_at tree.old.nodes no) }
    requires room { length tree.old.nodes + 25 ≤ tree.old.capacity }
    ensures grows { Grows tree.old tree.new 25 }
    ensures makes { IsNode tree.new.nodes AStatement result (chosen (scalar_front program.now.shader at.instruction)
        (truth_of program.now.shader at.instruction) (term_at tree.old.nodes yes) (Some (term_at tree.old.nodes no))) }
{
    growing_laws();
    let test = tested(tree, program, at);
    let next = stmt(
        tree,
        Stmt::If {
            truth: test.truth,
            yes,
            no,
        },
    );
    stmt(
        tree,
        Stmt::Then {
            first: test.front,
            next,
        },
    )
}

/// The selection of an `if` with these bodies.
pub(crate) fn selection(tree: &mut Tree, program: &Program, at: Numbered, bodies: Bodies) -> u32
    requires at { IsNumbered program.now.shader at }
    requires body { IsNode tree.old.nodes AStatement bodies.body (term_at tree.old.nodes bodies.body) }
    requires other { IsOther tree.old.nodes bodies.other (option_map (term_at tree.old.nodes) bodies.other) }
    requires room { length tree.old.nodes + 25 ≤ tree.old.capacity }
    ensures grows { Grows tree.old tree.new 25 }
    ensures makes { IsNode tree.new.nodes AStatement result (chosen (scalar_front program.now.shader at.instruction)
        (truth_of program.now.shader at.instruction) (term_at tree.old.nodes bodies.body)
        (option_map (term_at tree.old.nodes) bodies.other)) }
{
    match bodies.other {
        None => guard(tree, program, at, bodies.body),
        Some(other) => choice(tree, program, at, bodies.body, other),
    }
}

/// A switch with that body.
pub(crate) fn switch(tree: &mut Tree, program: &Program, at: Numbered, cases: u32) -> u32
    requires at { IsNumbered program.now.shader at }
    requires cases { IsNode tree.old.nodes AStatement cases (term_at tree.old.nodes cases) }
    requires room { length tree.old.nodes + 23 ≤ tree.old.capacity }
    ensures grows { Grows tree.old tree.new 23 }
    ensures makes { IsNode tree.new.nodes AStatement result (Then (scalar_front program.now.shader at.instruction)
        (Switch (scalar_word program.now.shader at.instruction) (term_at tree.old.nodes cases))) }
{
    growing_laws();
    let scalar = scalar(tree, program, at);
    let next = stmt(
        tree,
        Stmt::Switch {
            on: scalar.word,
            cases,
        },
    );
    stmt(
        tree,
        Stmt::Then {
            first: scalar.front,
            next,
        },
    )
}

/// Whether an instruction reads a length, makes an event or synchronises.
fn is_guarded(meaning: Option<Meaning>) -> bool
    ensures { result ≡ is_guarded meaning }
{
    matches!(
        meaning,
        Some(
            Meaning::LoadRaw
                | Meaning::LoadStructured
                | Meaning::StoreRaw
                | Meaning::StoreStructured
                | Meaning::Measures
                | Meaning::Acts(_)
                | Meaning::Compares
                | Meaning::Fetches(_)
                | Meaning::Exchanges
                | Meaning::Allocates
                | Meaning::Consumes
                | Meaning::Syncs
        )
    )
}

/// An instruction that computes.
fn computed(tree: &mut Tree, program: &Program, at: Numbered) -> u32
    requires at { IsNumbered program.now.shader at }
    requires goes_on { goes_on (meaning_of Base at.instruction.code) ≡ true }
    requires computes { is_guarded (meaning_of Base at.instruction.code) ≡ false }
    requires room { length tree.old.nodes + 16 * at.instruction.length ≤ tree.old.capacity }
    ensures grows { Grows tree.old tree.new (16 * at.instruction.length - 2) }
    ensures makes { IsNode tree.new.nodes AStatement result (statement_of program.now.shader at.instruction) }
{
    expressions(tree, program, at.number)
}

/// An instruction that reads a length, makes an event or synchronises.
fn reaching(tree: &mut Tree, program: &Program, bindings: &Bindings, at: Numbered) -> u32
    requires at { IsNumbered program.now.shader at }
    requires guards { is_guarded (meaning_of Base at.instruction.code) ≡ true }
    requires room { length tree.old.nodes + 16 * at.instruction.length ≤ tree.old.capacity }
    ensures grows { Grows tree.old tree.new (16 * at.instruction.length - 2) }
    ensures makes { IsNode tree.new.nodes AStatement result (guarding.statement_of (is_null_in bindings.now)
        program.now.shader at.instruction) }
{
    guarded(tree, program, bindings, at.number)
}

/// An instruction that goes on to the next.
fn plain(
    tree: &mut Tree,
    program: &Program,
    bindings: &Bindings,
    at: Numbered,
    meaning: Option<Meaning>,
) -> u32
    requires at { IsNumbered program.now.shader at }
    requires meaning { meaning ≡ meaning_of Base at.instruction.code }
    requires goes_on { goes_on meaning ≡ true }
    requires room { length tree.old.nodes + 16 * at.instruction.length ≤ tree.old.capacity }
    ensures grows { Grows tree.old tree.new (16 * at.instruction.length - 2) }
    ensures makes { IsNode tree.new.nodes AStatement result (plain_of (is_null_in bindings.now)
        program.now.shader at.instruction) }
{
    if is_guarded(meaning) {
        reaching(tree, program, bindings, at)
    } else {
        computed(tree, program, at)
    }
}

/// A break, continue or return where the test of an instruction holds.
fn leap(tree: &mut Tree, program: &Program, at: Numbered, leap: Stmt) -> u32
    requires at { IsNumbered program.now.shader at }
    requires bare { named (node.Stmt leap) ≡ [] }
    requires room { length tree.old.nodes + 26 ≤ tree.old.capacity }
    ensures grows { Grows tree.old tree.new 26 }
    ensures makes { IsNode tree.new.nodes AStatement result (Then (scalar_front program.now.shader at.instruction)
        (Guard (truth_of program.now.shader at.instruction) (term_by (term_at tree.old.nodes) (node.Stmt leap)))) }
{
    growing_laws();
    let body = stmt(tree, leap);
    guard(tree, program, at, body)
}

/// An instruction by itself, which opens no construct and closes none, and is no else and no label.
pub(crate) fn alone(
    tree: &mut Tree,
    program: &Program,
    bindings: &Bindings,
    at: Numbered,
    meaning: Option<Meaning>,
) -> u32
    requires at { IsNumbered program.now.shader at }
    requires meaning { meaning ≡ meaning_of Base at.instruction.code }
    requires single { is_single meaning ≡ true }
    requires room { length tree.old.nodes + 16 * at.instruction.length ≤ tree.old.capacity }
    ensures grows { Grows tree.old tree.new (16 * at.instruction.length - 1) }
    ensures makes { IsNode tree.new.nodes AStatement result (alone (parts_of (is_null_in bindings.now)
        program.now.shader) meaning at.instruction) }
{
    growing_laws();
    match meaning {
        Some(Meaning::Break) => stmt(tree, Stmt::Break),
        Some(Meaning::BreakIf) => leap(tree, program, at, Stmt::Break),
        Some(Meaning::Continue) => stmt(tree, Stmt::Continue),
        Some(Meaning::ContinueIf) => leap(tree, program, at, Stmt::Continue),
        Some(Meaning::Return) => stmt(tree, Stmt::Return),
        Some(Meaning::ReturnIf) => leap(tree, program, at, Stmt::Return),
        _ => plain(tree, program, bindings, at, meaning),
    }
}
