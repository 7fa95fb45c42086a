//! Whether each word of the registers `r#` is a variable of its own.
ghost use Rattle.std.specs.Prelude.{◌≡◌, ◌+◌, ◌≤◌, ◌<◌, length, slice_get, IsTrue, Some};
ghost use Rattle.shader_tree.specs.Nodes.{are_nodes};
ghost use Rattle.shader_tree.specs.declared.node.Node.{Node as TheNode};
ghost use Rattle.spirv_emit.specs.Begun.{IsBegun};
ghost use Rattle.spirv_emit.specs.Emission.{words_left, ids_left};
ghost use Rattle.spirv_emit.specs.Naming.{Opened, is_word_node, searches, none_searches};

use crate::emitter::Emitter;
use node_pool::Pool;
use shader_tree::{Expr, Node, Space, Stmt, Tree, node_laws};
use spirv_symbols::{Symbol, growth_laws};

/// Whether a node is a word.
fn is_word(nodes: &Pool<Node>, id: u32) -> bool
    requires { id < length nodes.now.list }
    ensures { result ≡ is_word_node (slice_get nodes.now.list id) }
{
    match nodes.get(id) {
        Node::Expr(Expr::Word(_)) => true,
        _ => false,
    }
}

/// Whether a node reads or writes a word of the registers `r#` at an index that is no literal.
fn searches(tree: &Tree, id: u32) -> bool
    requires { id < length tree.now.nodes }
    ensures { (n : TheNode) → slice_get tree.now.nodes id ≡ Some n → result ≡ searches tree.now.nodes n }
{
    node_laws();
    let nodes = tree.nodes();
    match nodes.get(id) {
        Node::Expr(
            Expr::Read {
                space: Space::Temps,
                word,
            },
        ) => !is_word(nodes, word),
        Node::Stmt(
            Stmt::Write {
                space: Space::Temps,
                word,
                ..
            },
        ) => !is_word(nodes, word),
        _ => false,
    }
}

/// Whether no node of a tree reads or writes a word of the registers `r#` at an index that is no literal.
fn none_searches(tree: &Tree) -> bool
    ensures none { result ≡ none_searches tree.now.nodes tree.now.nodes }
    ensures earlier { IsTrue (are_nodes tree.now.nodes) }
{
    let nodes = tree.nodes();
    for id in 0..nodes.len() {
        if searches(tree, id) {
            return false;
        }
    }
    true
}

impl Emitter {
    /// Opens the function for the code of a tree: before any code is written.
    ///
    /// Each word of the registers `r#` is a variable of its own where no node of the tree has an index into them
    /// that is no literal. Else all words are one array, which is named here.
    pub fn open(&mut self, tree: &Tree)
        requires begun { IsBegun self.old }
        requires words { 43 ≤ words_left self.old }
        requires ids { 6 ≤ ids_left self.old }
        ensures opened { Opened self.old self.new tree.now.nodes }
        ensures begun { IsBegun self.new }
        ensures words { words_left self.old ≤ words_left self.new + 43 }
        ensures ids { ids_left self.old ≤ ids_left self.new + 6 }
    {
        growth_laws();
        node_laws();
        self.frame.separate = none_searches(tree);
        if !self.frame.separate {
            self.name(Symbol::Registers);
        }
    }
}
