//! The blocks of a tree.
//!
//! A chain of statements is gone through in a loop, so that no stack grows with its length.
ghost use Rattle.std.specs.Prelude.{◌≡◌, ◌+◌, ◌≤◌, IsTrue, IsSome};
ghost use Rattle.shader_tree.specs.Costs.{words_in, ids_in};
ghost use Rattle.shader_tree.specs.Nodes.{has, a_statement, a_truth, a_word};
ghost use Rattle.shader_tree.specs.Placed.{is_placed};
ghost use Rattle.shader_tree.specs.Terms.{term_at, Guard, If, Loop, Switch};
ghost use Rattle.spirv_emit.specs.Begun.{IsBegun};
ghost use Rattle.spirv_emit.specs.Emission.{words_left, ids_left};
ghost use Rattle.spirv_flow.specs.Emitting.{FitsTree, MayEmit, DidEmit, EmitsFirst, EmitsTree, root_of};
ghost use Rattle.spirv_flow.specs.Lowers.{marks};

use crate::around::{Around, Chain};
use crate::blocks::close;
use crate::heads::{close_loop, open_choice, open_guard, open_loop, open_switch};
use crate::statements::{emit_break, emit_continue, emit_plain, emit_return};
use shader_tree::{Stmt, Tree};
use spirv_emit::{Emitter, emit_laws};
use spirv_symbols::growth_laws;

/// Emits a statement that is run where a truth holds.
#[cycle(emitting)]
fn emit_guard(emitter: &mut Emitter, tree: &Tree, truth: u32, body: Chain, around: Around)
    requires truth { IsTrue (has tree.now.nodes (a_truth truth)) }
    requires body { IsTrue (has tree.now.nodes (a_statement body.id)) }
    requires may { MayEmit emitter.old around body.mark
        (Guard (term_at tree.now.nodes truth) (term_at tree.now.nodes body.id)) }
    ensures { DidEmit emitter.old emitter.new around body.mark
        (Guard (term_at tree.now.nodes truth) (term_at tree.now.nodes body.id)) }
{
    emit_laws();
    let merge = open_guard(emitter, tree, truth);
    emit(emitter, tree, body, around);
    close(emitter, merge, merge);
}

/// Emits two statements of which one is run, by a truth.
#[cycle(emitting)]
fn emit_choice(emitter: &mut Emitter, tree: &Tree, truth: u32, yes: Chain, no: u32, around: Around)
    requires truth { IsTrue (has tree.now.nodes (a_truth truth)) }
    requires yes { IsTrue (has tree.now.nodes (a_statement yes.id)) }
    requires no { IsTrue (has tree.now.nodes (a_statement no)) }
    requires may { MayEmit emitter.old around yes.mark
        (If (term_at tree.now.nodes truth) (term_at tree.now.nodes yes.id) (term_at tree.now.nodes no)) }
    ensures { DidEmit emitter.old emitter.new around yes.mark
        (If (term_at tree.now.nodes truth) (term_at tree.now.nodes yes.id) (term_at tree.now.nodes no)) }
{
    emit_laws();
    let choice = open_choice(emitter, tree, truth);
    emit(emitter, tree, yes, around);
    close(emitter, choice.merge, choice.second);
    emit(
        emitter,
        tree,
        Chain {
            id: no,
            mark: yes.mark,
        },
        around,
    );
    close(emitter, choice.merge, choice.merge);
}

/// Emits a loop.
#[cycle(emitting)]
fn emit_loop(emitter: &mut Emitter, tree: &Tree, body: Chain, around: Around)
    requires body { IsTrue (has tree.now.nodes (a_statement body.id)) }
    requires may { MayEmit emitter.old around body.mark (Loop (term_at tree.now.nodes body.id)) }
    ensures { DidEmit emitter.old emitter.new around body.mark (Loop (term_at tree.now.nodes body.id)) }
{
    emit_laws();
    let turns = open_loop(emitter);
    emit(
        emitter,
        tree,
        body,
        Around {
            leave: Some(turns.merge),
            renew: Some(turns.next),
        },
    );
    close_loop(emitter, turns);
}

/// Emits a switch.
#[cycle(emitting)]
fn emit_switch(emitter: &mut Emitter, tree: &Tree, on: u32, cases: u32, around: Around, mark: u32)
    requires on { IsTrue (has tree.now.nodes (a_word on)) }
    requires cases { IsTrue (has tree.now.nodes (a_statement cases)) }
    requires may { MayEmit emitter.old around mark
        (Switch (term_at tree.now.nodes on) (term_at tree.now.nodes cases)) }
    ensures { DidEmit emitter.old emitter.new around mark
        (Switch (term_at tree.now.nodes on) (term_at tree.now.nodes cases)) }
{
    emit_laws();
    let labels = open_switch(emitter, tree, on, cases);
    emit(
        emitter,
        tree,
        Chain {
            id: cases,
            mark: labels.first,
        },
        Around {
            leave: Some(labels.merge),
            renew: around.renew,
        },
    );
    close(emitter, labels.merge, labels.merge);
}

/// Emits what stands first in a chain. Returns the rest of the chain, where there is one.
#[cycle(emitting)]
fn emit_first(emitter: &mut Emitter, tree: &Tree, from: Chain, around: Around) -> Option<Chain>
    requires statement { IsTrue (has tree.now.nodes (a_statement from.id)) }
    requires may { MayEmit emitter.old around from.mark (term_at tree.now.nodes from.id) }
    ensures { EmitsFirst tree.now.nodes emitter.old emitter.new around from result }
{
    emit_laws();
    let mark = from.mark;
    match tree.stmt_at(from.id) {
        Stmt::Then { first, next } => {
            let mark = emit(emitter, tree, Chain { id: first, mark }, around);
            Some(Chain { id: next, mark })
        }
        Stmt::Case { next, .. } => {
            close(emitter, mark, mark);
            let mark = mark + 1;
            Some(Chain { id: next, mark })
        }
        Stmt::Default { next } => {
            close(emitter, mark, mark);
            let mark = mark + 1;
            Some(Chain { id: next, mark })
        }
        Stmt::Guard { truth, body } => {
            emit_guard(emitter, tree, truth, Chain { id: body, mark }, around);
            None
        }
        Stmt::If { truth, yes, no } => {
            emit_choice(emitter, tree, truth, Chain { id: yes, mark }, no, around);
            None
        }
        Stmt::Loop { body } => {
            emit_loop(emitter, tree, Chain { id: body, mark }, around);
            None
        }
        Stmt::Switch { on, cases } => {
            emit_switch(emitter, tree, on, cases, around, mark);
            None
        }
        Stmt::Break => {
            emit_break(emitter, around, mark);
            None
        }
        Stmt::Continue => {
            emit_continue(emitter, around, mark);
            None
        }
        Stmt::Return => {
            emit_return(emitter, around, mark);
            None
        }
        _ => {
            emit_plain(emitter, tree, from.id, around, mark);
            None
        }
    }
}

/// Emits a chain of statements. Returns the label behind those of its cases and defaults.
#[cycle(emitting)]
fn emit(emitter: &mut Emitter, tree: &Tree, chain: Chain, around: Around) -> u32
    requires statement { IsTrue (has tree.now.nodes (a_statement chain.id)) }
    requires may { MayEmit emitter.old around chain.mark (term_at tree.now.nodes chain.id) }
    ensures did { DidEmit emitter.old emitter.new around chain.mark (term_at tree.now.nodes chain.id) }
    ensures next { result ≡ chain.mark + marks (term_at tree.now.nodes chain.id) }
{
    let mut rest = chain;
    while let Some(next) = emit_first(emitter, tree, rest, around) {
        rest = next;
    }
    rest.mark
}

/// Emits the blocks of a function: those of the statement that is the tree's root, and a return behind it. No
/// code must have been written before.
///
/// Calls are nested as deep as constructs of the tree are, and as pairs of statements are first in other pairs.
pub fn emit_tree(emitter: &mut Emitter, tree: &Tree)
    requires root { IsSome tree.now.root }
    requires begun { IsBegun emitter.old }
    requires fits { FitsTree emitter.old (root_of tree.now) }
    requires placed { IsTrue (is_placed (root_of tree.now)) }
    requires words { words_in (root_of tree.now) + 44 ≤ words_left emitter.old }
    requires ids { ids_in (root_of tree.now) + 6 ≤ ids_left emitter.old }
    ensures emits { EmitsTree emitter.old emitter.new tree.now }
    ensures begun { IsBegun emitter.new }
    ensures words { words_left emitter.old ≤ words_left emitter.new + words_in (root_of tree.now) + 44 }
    ensures ids { ids_left emitter.old ≤ ids_left emitter.new + ids_in (root_of tree.now) + 6 }
{
    growth_laws();
    emitter.open(tree);
    let around = Around {
        leave: None,
        renew: None,
    };
    let root = tree.root();
    emit(emitter, tree, Chain { id: root, mark: 0 }, around);
    emitter.leave();
}
