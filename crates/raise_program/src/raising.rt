ghost use Rattle.std.specs.Prelude.{◌≡◌, ℕ, ◌+◌, ◌*◌, ◌<◌, ◌≤◌, ◌∷◌, [], Some, true, length, slice_get};
ghost use Rattle.binding_map.specs.Fits.{is_null_in};
ghost use Rattle.tpf_decode.specs.Profiles.{Base};
ghost use Rattle.tpf_decode.specs.Opcodes.{meaning_of};
ghost use Rattle.tpf_program.specs.Program.{Shader};
ghost use Rattle.tpf_program.specs.declared.instruction.Instruction.{Instruction};
ghost use Rattle.shader_tree.specs.Nodes.{AStatement};
ghost use Rattle.shader_tree.specs.Terms.{Case, Default, Loop, Nothing, Switch, Then, term_at};
ghost use Rattle.raise_operands.specs.Building.{Grows, IsNode};
ghost use Rattle.raise_operands.specs.Raising.{scalar_front, scalar_word};
ghost use Rattle.raise_program.specs.Parts.{parts_of, truth_of};
ghost use Rattle.raise_program.specs.Walked.{allows, chosen, inner_other, left, put, visited};
ghost use Rattle.raise_program.specs.Walking.{IsNumbered, IsWalk, MayRaise, is_single, rest_at, stack};
ghost use Rattle.raise_program.specs.Whole.{CanBeRaised, IsRaisedTo};
ghost use Rattle.raise_program.specs.Raised.{alone};

use crate::parts::{Numbered, alone, selection, switch};
use crate::walk::Walk;
use binding_map::Bindings;
use raise_operands::{count_laws, growing_laws, program_laws, raisable_laws, stmt};
use raise_views::guardable_laws;
use shader_check::checked_laws;
use shader_tree::{Stmt, Tree};
use tpf_decode::{Meaning, instruction_meaning};
use tpf_program::Program;

/// Goes on in front of an `if`.
fn visit_if(tree: &mut Tree, program: &Program, walk: &mut Walk, at: Numbered)
    requires at { IsNumbered program.now.shader at }
    requires walk { IsWalk tree.old.nodes walk.old (rest_at tree.old.nodes walk.old) }
    requires inside { 0 < length (stack walk.old) }
    requires room { length tree.old.nodes + 26 ≤ tree.old.capacity }
    ensures grows { Grows tree.old tree.new 26 }
    ensures walk { let p = program.now.shader in let rest = rest_at tree.old.nodes walk.old in
        IsWalk tree.new.nodes walk.new (put (chosen (scalar_front p at.instruction) (truth_of p at.instruction)
        rest.here (inner_other rest.around)) (left rest)) }
{
    growing_laws();
    let bodies = walk.leave();
    let statement = selection(tree, program, at, bodies);
    walk.put(tree, statement);
}

/// Goes on in front of a `loop`.
fn visit_loop(tree: &mut Tree, walk: &mut Walk)
    requires walk { IsWalk tree.old.nodes walk.old (rest_at tree.old.nodes walk.old) }
    requires inside { 0 < length (stack walk.old) }
    requires room { length tree.old.nodes + 2 ≤ tree.old.capacity }
    ensures grows { Grows tree.old tree.new 2 }
    ensures walk { let rest = rest_at tree.old.nodes walk.old in
        IsWalk tree.new.nodes walk.new (put (Loop rest.here) (left rest)) }
{
    growing_laws();
    let bodies = walk.leave();
    let statement = stmt(tree, Stmt::Loop { body: bodies.body });
    walk.put(tree, statement);
}

/// Goes on in front of a `switch`.
fn visit_switch(tree: &mut Tree, program: &Program, walk: &mut Walk, at: Numbered)
    requires at { IsNumbered program.now.shader at }
    requires walk { IsWalk tree.old.nodes walk.old (rest_at tree.old.nodes walk.old) }
    requires inside { 0 < length (stack walk.old) }
    requires room { length tree.old.nodes + 24 ≤ tree.old.capacity }
    ensures grows { Grows tree.old tree.new 24 }
    ensures walk { let p = program.now.shader in let rest = rest_at tree.old.nodes walk.old in
        IsWalk tree.new.nodes walk.new (put (Then (scalar_front p at.instruction)
        (Switch (scalar_word p at.instruction) rest.here)) (left rest)) }
{
    growing_laws();
    let bodies = walk.leave();
    let statement = switch(tree, program, at, bodies.body);
    walk.put(tree, statement);
}

/// Goes on in front of a `case`.
fn visit_case(tree: &mut Tree, walk: &mut Walk, value: u32)
    requires walk { IsWalk tree.old.nodes walk.old (rest_at tree.old.nodes walk.old) }
    requires room { length tree.old.nodes + 3 ≤ tree.old.capacity }
    ensures grows { Grows tree.old tree.new 3 }
    ensures walk { IsWalk tree.new.nodes walk.new (put (Case value Nothing) (rest_at tree.old.nodes walk.old)) }
{
    growing_laws();
    let next = stmt(tree, Stmt::Nothing);
    let statement = stmt(tree, Stmt::Case { value, next });
    walk.put(tree, statement);
}

/// Goes on in front of a `default`.
fn visit_default(tree: &mut Tree, walk: &mut Walk)
    requires walk { IsWalk tree.old.nodes walk.old (rest_at tree.old.nodes walk.old) }
    requires room { length tree.old.nodes + 3 ≤ tree.old.capacity }
    ensures grows { Grows tree.old tree.new 3 }
    ensures walk { IsWalk tree.new.nodes walk.new (put (Default Nothing) (rest_at tree.old.nodes walk.old)) }
{
    growing_laws();
    let next = stmt(tree, Stmt::Nothing);
    let statement = stmt(tree, Stmt::Default { next });
    walk.put(tree, statement);
}

/// Goes on in front of an instruction by itself.
fn visit_single(
    tree: &mut Tree,
    program: &Program,
    bindings: &Bindings,
    walk: &mut Walk,
    at: Numbered,
    meaning: Option<Meaning>,
)
    requires at { IsNumbered program.now.shader at }
    requires meaning { meaning ≡ meaning_of Base at.instruction.code }
    requires single { is_single meaning ≡ true }
    requires walk { IsWalk tree.old.nodes walk.old (rest_at tree.old.nodes walk.old) }
    requires room { length tree.old.nodes + 16 * at.instruction.length ≤ tree.old.capacity }
    ensures grows { Grows tree.old tree.new (16 * at.instruction.length) }
    ensures walk { IsWalk tree.new.nodes walk.new (put (alone (parts_of (is_null_in bindings.now) program.now.shader)
        meaning at.instruction) (rest_at tree.old.nodes walk.old)) }
{
    growing_laws();
    let statement = alone(tree, program, bindings, at, meaning);
    walk.put(tree, statement);
}

/// Goes on in front of an instruction.
fn visit(tree: &mut Tree, program: &Program, bindings: &Bindings, walk: &mut Walk, at: Numbered)
    requires at { IsNumbered program.now.shader at }
    requires walk { IsWalk tree.old.nodes walk.old (rest_at tree.old.nodes walk.old) }
    requires allows { allows (length (stack walk.old)) (meaning_of Base at.instruction.code) ≡ true }
    requires room { length tree.old.nodes + 16 * at.instruction.length ≤ tree.old.capacity }
    ensures grows { Grows tree.old tree.new (16 * at.instruction.length) }
    ensures walk { IsWalk tree.new.nodes walk.new (visited (parts_of (is_null_in bindings.now) program.now.shader)
        (meaning_of Base at.instruction.code) at.instruction (rest_at tree.old.nodes walk.old)) }
{
    growing_laws();
    match instruction_meaning(at.instruction.code) {
        Some(Meaning::If) => visit_if(tree, program, walk, at),
        Some(Meaning::Else) => walk.halve(tree),
        Some(Meaning::EndIf | Meaning::EndLoop | Meaning::EndSwitch) => walk.close(tree),
        Some(Meaning::Loop) => visit_loop(tree, walk),
        Some(Meaning::Switch) => visit_switch(tree, program, walk, at),
        Some(Meaning::Case) => visit_case(tree, walk, at.instruction.o0.x),
        Some(Meaning::Default) => visit_default(tree, walk),
        meaning => visit_single(tree, program, bindings, walk, at, meaning),
    }
}

/// That the instructions of a program that is raised may be. It does nothing when it runs.
fn may_raise_laws()
    ensures { (p : Shader) → CanBeRaised p
        → (k : ℕ) (i : Instruction) → slice_get p.instructions k ≡ Some i → MayRaise p i }
{
    checked_laws();
    count_laws();
    guardable_laws();
    program_laws();
    raisable_laws();
}

/// Raises a program: makes what its instructions stand for the root of a tree that was cleared. A view or
/// a counter that the map does not bind is null.
///
/// There must be room for 16 nodes for each word of the program, and 256 more.
pub fn raise(tree: &mut Tree, program: &Program, bindings: &Bindings)
    requires program { CanBeRaised program.now.shader }
    requires cleared { tree.old.nodes ≡ [] }
    requires room { 16 * program.now.shader.words + 256 ≤ tree.old.capacity }
    ensures raised { IsRaisedTo (is_null_in bindings.now) program.now.shader tree.new }
    ensures few { length tree.new.nodes ≤ 16 * program.now.shader.words + 256 }
    ensures capacity { tree.new.capacity ≡ tree.old.capacity }
{
    growing_laws();
    may_raise_laws();
    let mut walk = Walk::behind_all(tree);
    for number in (0..program.instructions() - 1).rev() {
        let instruction = program.instruction(number);
        let at = Numbered {
            number,
            instruction,
        };
        visit(tree, program, bindings, &mut walk, at);
    }
    tree.set_root(walk.here);
}
