//! What stands in front of the bodies of constructs, and behind those of loops.
ghost use Rattle.std.specs.Prelude.{◌≡◌, ◌+◌, ◌*◌, ◌≤◌, ◌<◌, ◌^◌, [], IsTrue};
ghost use Rattle.kept_values.specs.Tables.{dirty_in};
ghost use Rattle.shader_tree.specs.Costs.{words_in, ids_in};
ghost use Rattle.shader_tree.specs.Nodes.{has, a_statement, a_truth, a_word};
ghost use Rattle.shader_tree.specs.Placed.{is_switch};
ghost use Rattle.shader_tree.specs.Terms.{term_at};
ghost use Rattle.spirv_emit.specs.Begun.{IsBegun, Names};
ghost use Rattle.spirv_emit.specs.Emission.{words_left, ids_left};
ghost use Rattle.spirv_flow.specs.Heads.{OpensGuard, OpensChoice, OpensLoop, ClosesLoop, OpensSwitch, OpensAway, ClosesAway};
ghost use Rattle.spirv_flow.specs.Lowers.{marks};

use crate::blocks::{choose, close, jump, measure};
use crate::marks::{Marks, count, put_choice};
use shader_tree::Tree;
use spirv_emit::Emitter;

/// The labels of a choice's second block, and of the block behind it.
#[derive(Clone, Copy)]
pub(crate) struct Choice {
    pub(crate) second: u32,
    pub(crate) merge: u32,
}

/// The labels of a loop: of the block in which it begins, of the one that leads back, and of the one behind it.
#[derive(Clone, Copy)]
pub(crate) struct Turns {
    pub(crate) header: u32,
    pub(crate) next: u32,
    pub(crate) merge: u32,
}

/// The label of the block behind a switch, and that of its first case or default.
#[derive(Clone, Copy)]
pub(crate) struct Cases {
    pub(crate) merge: u32,
    pub(crate) first: u32,
}

/// Behind a branch that leads away: the label of the block that nothing reaches, and that of the block behind
/// the selection in which it stands.
#[derive(Clone, Copy)]
pub(crate) struct Away {
    pub(crate) next: u32,
    pub(crate) merge: u32,
}

/// Tests a truth, and begins the block where it holds. Returns the label of the block behind that.
pub(crate) fn open_guard(emitter: &mut Emitter, tree: &Tree, truth: u32) -> u32
    requires truth { IsTrue (has tree.now.nodes (a_truth truth)) }
    requires begun { IsBegun emitter.old }
    requires names { Names emitter.old (term_at tree.now.nodes truth) }
    requires words { words_in (term_at tree.now.nodes truth) + 9 ≤ words_left emitter.old }
    requires ids { ids_in (term_at tree.now.nodes truth) + 2 ≤ ids_left emitter.old }
    ensures opens { OpensGuard emitter.old emitter.new (term_at tree.now.nodes truth) result }
    ensures begun { IsBegun emitter.new }
    ensures words { words_left emitter.old ≤ words_left emitter.new + words_in (term_at tree.now.nodes truth) + 9 }
    ensures ids { ids_left emitter.old ≤ ids_left emitter.new + ids_in (term_at tree.now.nodes truth) + 2 }
{
    let id = measure(emitter, tree, truth);
    let inside = emitter.fresh_label();
    let merge = emitter.fresh_label();
    choose(emitter, id, inside, merge, merge);
    merge
}

/// Tests a truth, and begins the first of two blocks.
pub(crate) fn open_choice(emitter: &mut Emitter, tree: &Tree, truth: u32) -> Choice
    requires truth { IsTrue (has tree.now.nodes (a_truth truth)) }
    requires begun { IsBegun emitter.old }
    requires names { Names emitter.old (term_at tree.now.nodes truth) }
    requires words { words_in (term_at tree.now.nodes truth) + 9 ≤ words_left emitter.old }
    requires ids { ids_in (term_at tree.now.nodes truth) + 3 ≤ ids_left emitter.old }
    ensures opens { OpensChoice emitter.old emitter.new (term_at tree.now.nodes truth) result.second result.merge }
    ensures begun { IsBegun emitter.new }
    ensures words { words_left emitter.old ≤ words_left emitter.new + words_in (term_at tree.now.nodes truth) + 9 }
    ensures ids { ids_left emitter.old ≤ ids_left emitter.new + ids_in (term_at tree.now.nodes truth) + 3 }
{
    let id = measure(emitter, tree, truth);
    let first = emitter.fresh_label();
    let second = emitter.fresh_label();
    let merge = emitter.fresh_label();
    choose(emitter, id, first, second, merge);
    Choice { second, merge }
}

/// Begins a loop, and the block of its body.
pub(crate) fn open_loop(emitter: &mut Emitter) -> Turns
    requires begun { IsBegun emitter.old }
    requires words { 12 ≤ words_left emitter.old }
    requires ids { 4 ≤ ids_left emitter.old }
    ensures opens { OpensLoop emitter.old emitter.new result.header result.next result.merge }
    ensures begun { IsBegun emitter.new }
    ensures words { words_left emitter.old ≤ words_left emitter.new + 12 }
    ensures ids { ids_left emitter.old ≤ ids_left emitter.new + 4 }
{
    emitter.flush();
    let header = emitter.fresh_label();
    let inside = emitter.fresh_label();
    let next = emitter.fresh_label();
    let merge = emitter.fresh_label();
    jump(emitter, header, header);
    emitter.loop_merge(merge, next);
    jump(emitter, inside, inside);
    Turns {
        header,
        next,
        merge,
    }
}

/// Leads from the end of a loop's body back to its beginning, and begins the block behind the loop.
pub(crate) fn close_loop(emitter: &mut Emitter, turns: Turns)
    requires begun { IsBegun emitter.old }
    requires words { 8 ≤ words_left emitter.old }
    ensures closes { ClosesLoop emitter.old emitter.new turns.header turns.next turns.merge }
    ensures begun { IsBegun emitter.new }
    ensures words { words_left emitter.old ≤ words_left emitter.new + 8 }
    ensures ids { ids_left emitter.old ≤ ids_left emitter.new }
{
    close(emitter, turns.next, turns.next);
    jump(emitter, turns.header, turns.merge);
}

/// Branches by a word to the cases of a statement, and begins the block in front of the first.
pub(crate) fn open_switch(emitter: &mut Emitter, tree: &Tree, on: u32, cases: u32) -> Cases
    requires on { IsTrue (has tree.now.nodes (a_word on)) }
    requires cases { IsTrue (has tree.now.nodes (a_statement cases)) }
    requires few { IsTrue (is_switch (term_at tree.now.nodes cases)) }
    requires begun { IsBegun emitter.old }
    requires names { Names emitter.old (term_at tree.now.nodes on) }
    requires words { words_in (term_at tree.now.nodes on) + 8 + 2 * marks (term_at tree.now.nodes cases)
        ≤ words_left emitter.old }
    requires ids { ids_in (term_at tree.now.nodes on) + 2 + marks (term_at tree.now.nodes cases)
        ≤ ids_left emitter.old }
    ensures opens { OpensSwitch emitter.old emitter.new (term_at tree.now.nodes on) (term_at tree.now.nodes cases)
        result.merge result.first }
    ensures short { result.first + marks (term_at tree.now.nodes cases) < 2 ^ 32 }
    ensures begun { IsBegun emitter.new }
    ensures words { words_left emitter.old ≤ words_left emitter.new + words_in (term_at tree.now.nodes on) + 8
        + 2 * marks (term_at tree.now.nodes cases) }
    ensures ids { ids_left emitter.old ≤ ids_left emitter.new + ids_in (term_at tree.now.nodes on) + 2
        + marks (term_at tree.now.nodes cases) }
{
    let marks = count(
        tree,
        cases,
        Marks {
            cases: 0,
            all: 0,
            other: None,
        },
    );
    let id = measure(emitter, tree, on);
    let inside = emitter.fresh_label();
    let merge = emitter.fresh_label();
    let first = emitter.fresh_labels(marks.all);
    emitter.selection_merge(merge);
    put_choice(emitter, tree, cases, marks, id, merge, first);
    emitter.label(inside);
    Cases { merge, first }
}

/// Begins the block of a branch that always leads away.
pub(crate) fn open_away(emitter: &mut Emitter) -> Away
    requires begun { IsBegun emitter.old }
    requires words { 9 ≤ words_left emitter.old }
    requires ids { 3 ≤ ids_left emitter.old }
    ensures opens { OpensAway emitter.old emitter.new result.next result.merge }
    ensures clean { dirty_in emitter.new.kept ≡ [] }
    ensures begun { IsBegun emitter.new }
    ensures words { words_left emitter.old ≤ words_left emitter.new + 9 }
    ensures ids { ids_left emitter.old ≤ ids_left emitter.new + 3 }
{
    emitter.flush();
    let truth = emitter.always();
    let inside = emitter.fresh_label();
    let merge = emitter.fresh_label();
    let next = emitter.fresh_label();
    choose(emitter, truth, inside, merge, merge);
    Away { next, merge }
}

/// Goes on behind a branch that leads away.
pub(crate) fn close_away(emitter: &mut Emitter, away: Away)
    requires begun { IsBegun emitter.old }
    requires clean { dirty_in emitter.old.kept ≡ [] }
    requires words { 6 ≤ words_left emitter.old }
    ensures closes { ClosesAway emitter.old emitter.new away.next away.merge }
    ensures begun { IsBegun emitter.new }
    ensures words { words_left emitter.old ≤ words_left emitter.new + 6 }
    ensures ids { ids_left emitter.new ≡ ids_left emitter.old }
{
    emitter.label(away.next);
    jump(emitter, away.merge, away.merge);
}
