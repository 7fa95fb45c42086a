//! The ends of blocks, and the blocks behind them.
ghost use Rattle.std.specs.Prelude.{◌≡◌, ◌+◌, ◌≤◌, []};
ghost use Rattle.kept_values.specs.Tables.{dirty_in};
ghost use Rattle.shader_tree.specs.Terms.{term_at};
ghost use Rattle.spirv_emit.specs.Begun.{IsBegun};
ghost use Rattle.spirv_emit.specs.Emission.{words_left, ids_left};
ghost use Rattle.spirv_emit.specs.Expressions.{May};
ghost use Rattle.shader_tree.specs.Costs.{words_in, ids_in};
ghost use Rattle.spirv_flow.specs.Heads.{Measures, Jumps, Closes, Chooses};

use shader_tree::Tree;
use spirv_emit::Emitter;

/// Adds the code of an expression, and stores what waits. Returns the id of the expression's value.
pub(crate) fn measure(emitter: &mut Emitter, tree: &Tree, id: u32) -> u32
    requires { May tree.now.nodes emitter.old id }
    ensures measures { Measures emitter.old emitter.new (term_at tree.now.nodes id) result }
    ensures clean { dirty_in emitter.new.kept ≡ [] }
    ensures begun { IsBegun emitter.new }
    ensures words { words_left emitter.old ≤ words_left emitter.new + words_in (term_at tree.now.nodes id) }
    ensures ids { ids_left emitter.old ≤ ids_left emitter.new + ids_in (term_at tree.now.nodes id) }
{
    let value = emitter.emit_expression(tree, id);
    emitter.flush();
    value
}

/// Ends a block by a branch to a label, where nothing waits, and begins the block with another label.
pub(crate) fn jump(emitter: &mut Emitter, to: u32, label: u32)
    requires begun { IsBegun emitter.old }
    requires clean { dirty_in emitter.old.kept ≡ [] }
    requires words { 4 ≤ words_left emitter.old }
    ensures jumps { Jumps emitter.old emitter.new to label }
    ensures clean { dirty_in emitter.new.kept ≡ [] }
    ensures begun { IsBegun emitter.new }
    ensures words { words_left emitter.old ≤ words_left emitter.new + 4 }
    ensures ids { ids_left emitter.new ≡ ids_left emitter.old }
{
    emitter.branch(to);
    emitter.label(label);
}

/// Stores what waits, ends a block by a branch to a label, and begins the block with another label.
pub(crate) fn close(emitter: &mut Emitter, to: u32, label: u32)
    requires begun { IsBegun emitter.old }
    requires words { 4 ≤ words_left emitter.old }
    ensures closes { Closes emitter.old emitter.new to label }
    ensures clean { dirty_in emitter.new.kept ≡ [] }
    ensures begun { IsBegun emitter.new }
    ensures words { words_left emitter.old ≤ words_left emitter.new + 4 }
    ensures ids { ids_left emitter.old ≤ ids_left emitter.new }
{
    emitter.flush();
    jump(emitter, to, label);
}

/// Ends the first block of a selection by a branch on a truth, where nothing waits, and begins the block to
/// which it leads where the truth holds.
pub(crate) fn choose(emitter: &mut Emitter, truth: u32, yes: u32, no: u32, merge: u32)
    requires begun { IsBegun emitter.old }
    requires clean { dirty_in emitter.old.kept ≡ [] }
    requires words { 9 ≤ words_left emitter.old }
    ensures chooses { Chooses emitter.old emitter.new truth yes no merge }
    ensures clean { dirty_in emitter.new.kept ≡ [] }
    ensures begun { IsBegun emitter.new }
    ensures words { words_left emitter.old ≤ words_left emitter.new + 9 }
    ensures ids { ids_left emitter.new ≡ ids_left emitter.old }
{
    emitter.selection_merge(merge);
    emitter.branch_if(truth, yes, no);
    emitter.label(yes);
}
