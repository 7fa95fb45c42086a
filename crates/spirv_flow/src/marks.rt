//! The cases and defaults that stand directly in a switch. A chain of statements is gone through in a loop, as it
//! is where blocks are written.
ghost use Rattle.std.specs.Prelude.{◌≡◌, ◌+◌, ◌*◌, ◌≤◌, ◌<◌, ◌^◌, ◌∷◌, [], length, None, IsTrue};
ghost use Rattle.shader_tree.specs.Nodes.{has, a_statement};
ghost use Rattle.shader_tree.specs.Placed.{is_switch, defaults_in};
ghost use Rattle.shader_tree.specs.Shape.{cases_in};
ghost use Rattle.shader_tree.specs.Terms.{term_at};
ghost use Rattle.spirv_emit.specs.Begun.{IsBegun};
ghost use Rattle.spirv_emit.specs.Blocks.{Ends};
ghost use Rattle.spirv_emit.specs.Emission.{words_left, ids_left};
ghost use Rattle.spirv_flow.specs.Lowers.{marks as marks_in};
ghost use Rattle.spirv_flow.specs.Marks.{choice, counted, CountsOn, PutsCases, PutsFirst};

use crate::around::Chain;
use shader_tree::{Stmt, Tree};
use spirv_emit::Emitter;

/// What was counted: the cases, the cases and defaults, and how many of these are in front of the first default.
#[derive(Clone, Copy)]
pub(crate) struct Marks {
    pub(crate) cases: u32,
    pub(crate) all: u32,
    pub(crate) other: Option<u32>,
}

/// A chain that is still to be counted, and what was counted in front of it.
#[derive(Clone, Copy)]
pub(crate) struct Uncounted {
    pub(crate) id: u32,
    pub(crate) marks: Marks,
}

/// Counts what stands first in a chain. Returns the rest, where there is one.
#[cycle(counting)]
fn count_first(tree: &Tree, from: Uncounted) -> Option<Uncounted>
    requires statement { IsTrue (has tree.now.nodes (a_statement from.id)) }
    requires cases { from.marks.cases + length (cases_in (term_at tree.now.nodes from.id)) < 2 ^ 32 }
    requires all { from.marks.all + marks_in (term_at tree.now.nodes from.id) < 2 ^ 32 }
    ensures { CountsOn tree.now.nodes from result }
{
    let marks = from.marks;
    match tree.stmt_at(from.id) {
        Stmt::Then { first, next } => Some(Uncounted {
            id: next,
            marks: count(tree, first, marks),
        }),
        Stmt::Case { next, .. } => Some(Uncounted {
            id: next,
            marks: Marks {
                cases: marks.cases + 1,
                all: marks.all + 1,
                other: marks.other,
            },
        }),
        Stmt::Default { next } => Some(Uncounted {
            id: next,
            marks: Marks {
                cases: marks.cases,
                all: marks.all + 1,
                other: marks.other.or(Some(marks.all)),
            },
        }),
        _ => None,
    }
}

/// Counts the cases and defaults that stand directly in a statement, behind what was counted before.
#[cycle(counting)]
pub(crate) fn count(tree: &Tree, id: u32, before: Marks) -> Marks
    requires statement { IsTrue (has tree.now.nodes (a_statement id)) }
    requires cases { before.cases + length (cases_in (term_at tree.now.nodes id)) < 2 ^ 32 }
    requires all { before.all + marks_in (term_at tree.now.nodes id) < 2 ^ 32 }
    ensures { result ≡ counted before (term_at tree.now.nodes id) }
{
    let mut rest = Uncounted { id, marks: before };
    while let Some(next) = count_first(tree, rest) {
        rest = next;
    }
    rest.marks
}

/// Adds the first case of a chain to an instruction that branches by a word. Returns the rest of the chain, where
/// there is one.
#[cycle(putting)]
fn put_first(emitter: &mut Emitter, tree: &Tree, from: Chain) -> Option<Chain>
    requires statement { IsTrue (has tree.now.nodes (a_statement from.id)) }
    requires begun { IsBegun emitter.old }
    requires short { from.mark + marks_in (term_at tree.now.nodes from.id) < 2 ^ 32 }
    requires words { 2 * marks_in (term_at tree.now.nodes from.id) ≤ words_left emitter.old }
    ensures { PutsFirst tree.now.nodes emitter.old emitter.new from result }
{
    match tree.stmt_at(from.id) {
        Stmt::Then { first, next } => {
            let mark = put_cases(
                emitter,
                tree,
                Chain {
                    id: first,
                    mark: from.mark,
                },
            );
            Some(Chain { id: next, mark })
        }
        Stmt::Case { value, next } => {
            emitter.case(value, from.mark);
            Some(Chain {
                id: next,
                mark: from.mark + 1,
            })
        }
        Stmt::Default { next } => Some(Chain {
            id: next,
            mark: from.mark + 1,
        }),
        _ => None,
    }
}

/// Adds the cases of a chain to an instruction that branches by a word. Returns the label behind those of the
/// chain.
#[cycle(putting)]
fn put_cases(emitter: &mut Emitter, tree: &Tree, chain: Chain) -> u32
    requires statement { IsTrue (has tree.now.nodes (a_statement chain.id)) }
    requires begun { IsBegun emitter.old }
    requires short { chain.mark + marks_in (term_at tree.now.nodes chain.id) < 2 ^ 32 }
    requires words { 2 * marks_in (term_at tree.now.nodes chain.id) ≤ words_left emitter.old }
    ensures puts { PutsCases emitter.old emitter.new chain.mark (term_at tree.now.nodes chain.id) }
    ensures next { result ≡ chain.mark + marks_in (term_at tree.now.nodes chain.id) }
{
    let mut rest = chain;
    while let Some(next) = put_first(emitter, tree, rest) {
        rest = next;
    }
    rest.mark
}

/// Ends a block by a branch by a word to the cases of a statement, whose labels are in a row.
pub(crate) fn put_choice(
    emitter: &mut Emitter,
    tree: &Tree,
    cases: u32,
    marks: Marks,
    on: u32,
    merge: u32,
    first: u32,
)
    requires statement { IsTrue (has tree.now.nodes (a_statement cases)) }
    requires counted { marks ≡ counted (record { cases = 0; all = 0; other = None }) (term_at tree.now.nodes cases) }
    requires few { IsTrue (is_switch (term_at tree.now.nodes cases)) }
    requires short { first + marks_in (term_at tree.now.nodes cases) < 2 ^ 32 }
    requires begun { IsBegun emitter.old }
    requires words { 3 + 2 * marks_in (term_at tree.now.nodes cases) ≤ words_left emitter.old }
    ensures ends { Ends emitter.old emitter.new (choice on merge (term_at tree.now.nodes cases) first ∷ []) }
    ensures begun { IsBegun emitter.new }
    ensures words { words_left emitter.old ≤ words_left emitter.new + 3
        + 2 * marks_in (term_at tree.now.nodes cases) }
    ensures ids { ids_left emitter.new ≡ ids_left emitter.old }
{
    let other = match marks.other {
        Some(k) => first + k,
        None => merge,
    };
    emitter.switch(on, other, marks.cases);
    put_cases(
        emitter,
        tree,
        Chain {
            id: cases,
            mark: first,
        },
    );
}
