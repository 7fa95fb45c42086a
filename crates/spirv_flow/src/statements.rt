//! Statements of one block, and those that lead away.
ghost use Rattle.std.specs.Prelude.{◌≡◌, IsTrue};
ghost use Rattle.shader_tree.specs.Nodes.{has, a_statement};
ghost use Rattle.shader_tree.specs.Terms.{term_at, Break, Continue, Return};
ghost use Rattle.spirv_flow.specs.Emitting.{IsPlain, MayEmit, DidEmit};

use crate::around::Around;
use crate::heads::{close_away, open_away};
use shader_tree::{Stmt, Tree, word_laws};
use spirv_emit::{Emitter, emit_laws};

/// Emits a statement that stands in one block.
pub(crate) fn emit_plain(emitter: &mut Emitter, tree: &Tree, id: u32, around: Around, mark: u32)
    requires statement { IsTrue (has tree.now.nodes (a_statement id)) }
    requires plain { IsPlain (term_at tree.now.nodes id) }
    requires may { MayEmit emitter.old around mark (term_at tree.now.nodes id) }
    ensures { DidEmit emitter.old emitter.new around mark (term_at tree.now.nodes id) }
{
    emit_laws();
    word_laws();
    match tree.stmt_at(id) {
        Stmt::Set { scratch, value } => emitter.set(tree, scratch, value),
        Stmt::Write { space, word, value } => emitter.write(tree, space, word, value),
        Stmt::Load {
            scratch,
            room,
            word,
        } => emitter.load(tree, scratch, room, word),
        Stmt::Store { room, word, value } => emitter.store(tree, room, word, value),
        Stmt::Atomic {
            scratch,
            room,
            word,
            kind,
            a,
            b,
        } => emitter.atomic(tree, scratch, room, word, kind, a, b),
        Stmt::Sync {
            threads,
            scope,
            classes,
        } => emitter.sync(threads, scope, classes),
        Stmt::Nothing => {},
        _ => unreachable!(),
    }
}

/// Leaves the innermost loop or switch.
pub(crate) fn emit_break(emitter: &mut Emitter, around: Around, mark: u32)
    requires { MayEmit emitter.old around mark Break }
    ensures { DidEmit emitter.old emitter.new around mark Break }
{
    emit_laws();
    match around.leave {
        Some(label) => {
            let away = open_away(emitter);
            emitter.branch(label);
            close_away(emitter, away);
        }
        None => unreachable!(),
    }
}

/// Begins the innermost loop anew.
pub(crate) fn emit_continue(emitter: &mut Emitter, around: Around, mark: u32)
    requires { MayEmit emitter.old around mark Continue }
    ensures { DidEmit emitter.old emitter.new around mark Continue }
{
    emit_laws();
    match around.renew {
        Some(label) => {
            let away = open_away(emitter);
            emitter.branch(label);
            close_away(emitter, away);
        }
        None => unreachable!(),
    }
}

/// Ends the lane.
pub(crate) fn emit_return(emitter: &mut Emitter, around: Around, mark: u32)
    requires { MayEmit emitter.old around mark Return }
    ensures { DidEmit emitter.old emitter.new around mark Return }
{
    emit_laws();
    let away = open_away(emitter);
    emitter.leave();
    close_away(emitter, away);
}
