ghost use Rattle.std.specs.Prelude.{◌≡◌, ◌+◌, ◌<◌, ◌≤◌, false, IsTrue, length};
ghost use Rattle.shader_tree.specs.Nodes.{AStatement, AWord, a_statement, a_truth, a_word, has};
ghost use Rattle.shader_tree.specs.Terms.{Guard, Set, Word, term_at};
ghost use Rattle.raise_operands.specs.Building.{AreFew, Grows, IsNode, IsOperand, IsStep, source_nodes, step_of};
ghost use Rattle.raise_operands.specs.Raising.{followed, is_nothing, source};
ghost use Rattle.raise_operands.specs.Vectors.{spaces_of};
ghost use Rattle.raise_views.specs.Reaching.{answered, atomic_part, change, guarded, load_of, load_part, store_of, store_part, test, zero_of};
ghost use Rattle.raise_views.specs.Making.{IsWordOf, base_nodes, more};

use crate::address::Reach;
use crate::locate::{base, is_known, place, test};
use raise_operands::{Operand, expr, followed, id_of, operand_laws, source, stmt};
use shader_tree::{Expr, Stmt, Tree};
use tpf_program::Program;
use word_base::Act;

/// A statement behind another, which may be none.
pub(crate) fn then(tree: &mut Tree, front: Option<u32>, next: u32) -> Option<u32>
    requires front { IsStep tree.old.nodes front (step_of tree.old.nodes front) }
    requires next { IsTrue (has tree.old.nodes (a_statement next)) }
    requires some { is_nothing (term_at tree.old.nodes next) ≡ false }
    requires room { length tree.old.nodes + 1 ≤ tree.old.capacity }
    ensures grows { Grows tree.old tree.new 1 }
    ensures makes { IsStep tree.new.nodes result (followed (step_of tree.old.nodes front)
        (term_at tree.old.nodes next)) }
{
    followed(tree, front, Some(next))
}

/// A body that is run where a truth holds.
pub(crate) fn guard(tree: &mut Tree, truth: u32, body: u32) -> u32
    requires truth { IsTrue (has tree.old.nodes (a_truth truth)) }
    requires body { IsTrue (has tree.old.nodes (a_statement body)) }
    requires room { length tree.old.nodes + 1 ≤ tree.old.capacity }
    ensures grows { Grows tree.old tree.new 1 }
    ensures makes { let term = term_at tree.old.nodes in IsNode tree.new.nodes AStatement result (Guard (term truth)
        (term body)) }
{
    stmt(tree, Stmt::Guard { truth, body })
}

/// A body that is run where a component is in range.
fn tested(tree: &mut Tree, reach: Reach, c: u8, word: u32, body: u32) -> u32
    requires component { c < 4 }
    requires word { IsWordOf tree.old.nodes reach.address c word }
    requires body { IsTrue (has tree.old.nodes (a_statement body)) }
    requires room { length tree.old.nodes + (3 + more reach.address.way) ≤ tree.old.capacity }
    ensures grows { Grows tree.old tree.new (3 + more reach.address.way) }
    ensures makes { IsNode tree.new.nodes AStatement result (Guard (test reach c) (term_at tree.old.nodes body)) }
{
    let truth = test(tree, reach, c, word);
    guard(tree, truth, body)
}

/// A body under the test of a component, where it needs one.
fn guarded(tree: &mut Tree, reach: Reach, c: u8, word: u32, body: u32) -> u32
    requires component { c < 4 }
    requires word { IsWordOf tree.old.nodes reach.address c word }
    requires body { IsTrue (has tree.old.nodes (a_statement body)) }
    requires room { length tree.old.nodes + (3 + more reach.address.way) ≤ tree.old.capacity }
    ensures grows { Grows tree.old tree.new (3 + more reach.address.way) }
    ensures makes { IsNode tree.new.nodes AStatement result (guarded reach c (term_at tree.old.nodes body)) }
{
    if is_known(reach, c) {
        body
    } else {
        tested(tree, reach, c, word, body)
    }
}

/// A scratch word that becomes 0.
pub(crate) fn zeroed(tree: &mut Tree, scratch: u32) -> u32
    requires room { length tree.old.nodes + 2 ≤ tree.old.capacity }
    ensures grows { Grows tree.old tree.new 2 }
    ensures makes { IsNode tree.new.nodes AStatement result (Set scratch (Word 0)) }
{
    let value = expr(tree, Expr::Word(0));
    stmt(tree, Stmt::Set { scratch, value })
}

/// A body that gives a word, which is 0 out of range.
fn answered(tree: &mut Tree, reach: Reach, c: u8, scratch: u32, word: u32, body: u32) -> u32
    requires component { c < 4 }
    requires word { IsWordOf tree.old.nodes reach.address c word }
    requires body { IsTrue (has tree.old.nodes (a_statement body)) }
    requires room { length tree.old.nodes + (6 + more reach.address.way) ≤ tree.old.capacity }
    ensures grows { Grows tree.old tree.new (6 + more reach.address.way) }
    ensures makes { IsNode tree.new.nodes AStatement result (answered reach c scratch (term_at tree.old.nodes body)) }
{
    if is_known(reach, c) {
        return body;
    }
    let next = tested(tree, reach, c, word, body);
    let first = zeroed(tree, scratch);
    stmt(tree, Stmt::Then { first, next })
}

/// The load of a component.
fn load_of(tree: &mut Tree, reach: Reach, d: u8, c: u8, word: u32) -> u32
    requires component { c < 4 }
    requires word { IsWordOf tree.old.nodes reach.address c word }
    requires room { length tree.old.nodes + 4 ≤ tree.old.capacity }
    ensures grows { Grows tree.old tree.new 4 }
    ensures makes { IsNode tree.new.nodes AStatement result (load_of reach d c) }
{
    let word = place(tree, reach, c, word);
    stmt(
        tree,
        Stmt::Load {
            scratch: 12 + u32::from(d),
            room: reach.room,
            word,
        },
    )
}

/// The load of a component without a test.
#[tactic(auto, using(crate::proofs::Growing::base_most))]
pub(crate) fn load_bare(tree: &mut Tree, reach: Reach, d: u8, c: u8) -> u32
    requires component { c < 4 }
    requires room { length tree.old.nodes + 7 ≤ tree.old.capacity }
    ensures grows { Grows tree.old tree.new 7 }
    ensures makes { IsNode tree.new.nodes AStatement result (load_of reach d c) }
{
    let word = base(tree, reach.address, c);
    load_of(tree, reach, d, c, word)
}

/// The load of a component under its test.
#[tactic(auto, using(crate::proofs::Growing::base_most))]
pub(crate) fn load_part(tree: &mut Tree, reach: Reach, d: u8, c: u8) -> u32
    requires component { c < 4 }
    requires room { length tree.old.nodes + (13 + more reach.address.way) ≤ tree.old.capacity }
    ensures grows { Grows tree.old tree.new (13 + more reach.address.way) }
    ensures makes { IsNode tree.new.nodes AStatement result (load_part reach d c) }
{
    let word = base(tree, reach.address, c);
    let body = load_of(tree, reach, d, c, word);
    answered(tree, reach, c, 12 + u32::from(d), word, body)
}

/// The store of a component.
fn store_of(
    tree: &mut Tree,
    program: &Program,
    reach: Reach,
    from: Operand,
    c: u8,
    word: u32,
) -> u32
    requires component { c < 4 }
    requires few { AreFew (spaces_of program.now.shader) }
    requires from { IsOperand tree.old.nodes (spaces_of program.now.shader) from }
    requires word { IsWordOf tree.old.nodes reach.address c word }
    requires room { length tree.old.nodes + (source_nodes from.argument + 5) ≤ tree.old.capacity }
    ensures grows { Grows tree.old tree.new (source_nodes from.argument + 5) }
    ensures makes { IsNode tree.new.nodes AStatement result (store_of reach (source
        (spaces_of program.now.shader) from.place.number from.argument) c) }
{
    let value = source(tree, program, from, c);
    let value = id_of(tree, value);
    let word = place(tree, reach, c, word);
    stmt(
        tree,
        Stmt::Store {
            room: reach.room,
            word,
            value,
        },
    )
}

/// The store of a component without a test.
#[tactic(auto, using(crate::proofs::Growing::base_most))]
pub(crate) fn store_bare(
    tree: &mut Tree,
    program: &Program,
    reach: Reach,
    from: Operand,
    c: u8,
) -> u32
    requires component { c < 4 }
    requires few { AreFew (spaces_of program.now.shader) }
    requires from { IsOperand tree.old.nodes (spaces_of program.now.shader) from }
    requires room { length tree.old.nodes + (source_nodes from.argument + 8) ≤ tree.old.capacity }
    ensures grows { Grows tree.old tree.new (source_nodes from.argument + 8) }
    ensures makes { IsNode tree.new.nodes AStatement result (store_of reach (source
        (spaces_of program.now.shader) from.place.number from.argument) c) }
{
    operand_laws();
    let word = base(tree, reach.address, c);
    store_of(tree, program, reach, from, c, word)
}

/// The store of a component under its test.
pub(crate) fn store_part(
    tree: &mut Tree,
    program: &Program,
    reach: Reach,
    from: Operand,
    c: u8,
) -> u32
    requires component { c < 4 }
    requires few { AreFew (spaces_of program.now.shader) }
    requires from { IsOperand tree.old.nodes (spaces_of program.now.shader) from }
    requires room { length tree.old.nodes +
        (source_nodes from.argument + 8 + base_nodes c + more reach.address.way) ≤ tree.old.capacity }
    ensures grows { Grows tree.old tree.new (source_nodes from.argument + 8 + base_nodes c + more reach.address.way) }
    ensures makes { IsNode tree.new.nodes AStatement result
        (store_part reach c (source (spaces_of program.now.shader) from.place.number from.argument c)) }
{
    operand_laws();
    let word = base(tree, reach.address, c);
    let body = store_of(tree, program, reach, from, c, word);
    guarded(tree, reach, c, word, body)
}

/// The atomic on a word.
fn change(tree: &mut Tree, reach: Reach, kind: Act, a: u32, b: u32, word: u32) -> u32
    requires word { IsWordOf tree.old.nodes reach.address 0 word }
    requires a { IsTrue (has tree.old.nodes (a_word a)) }
    requires b { IsTrue (has tree.old.nodes (a_word b)) }
    requires room { length tree.old.nodes + 4 ≤ tree.old.capacity }
    ensures grows { Grows tree.old tree.new 4 }
    ensures makes { let term = term_at tree.old.nodes in IsNode tree.new.nodes AStatement result (change reach kind
        (term a) (term b)) }
{
    let word = place(tree, reach, 0, word);
    stmt(
        tree,
        Stmt::Atomic {
            scratch: 12,
            room: reach.room,
            word,
            kind,
            a,
            b,
        },
    )
}

/// The atomic on a word under its test, whose answer is given or not.
pub(crate) fn atomic_part(
    tree: &mut Tree,
    reach: Reach,
    kind: Act,
    a: u32,
    b: u32,
    answers: bool,
) -> u32
    requires a { IsTrue (has tree.old.nodes (a_word a)) }
    requires b { IsTrue (has tree.old.nodes (a_word b)) }
    requires room { length tree.old.nodes + (13 + more reach.address.way) ≤ tree.old.capacity }
    ensures grows { Grows tree.old tree.new (13 + more reach.address.way) }
    ensures makes { let term = term_at tree.old.nodes in IsNode tree.new.nodes AStatement result
        (atomic_part reach kind (term a) (term b) answers) }
{
    let word = base(tree, reach.address, 0);
    let body = change(tree, reach, kind, a, b, word);
    if answers {
        answered(tree, reach, 0, 12, word, body)
    } else {
        guarded(tree, reach, 0, word, body)
    }
}
