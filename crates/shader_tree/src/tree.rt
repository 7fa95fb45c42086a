ghost use Rattle.std.specs.Prelude.{◌≡◌, ◌+◌, ◌-◌, ◌<◌, [], ◌∷◌, ◌++◌, length, slice_get, Some, None, IsTrue, IsSome, IfOk};
ghost use Rattle.shader_tree.specs.declared.node.Node.TheVariants as node;
ghost use Rattle.shader_tree.specs.Holding.{OfWords};
ghost use Rattle.shader_tree.specs.Nodes.{a_statement, has, is_expr, fits, is_short, are_nodes, are_short};
ghost use Rattle.shader_tree.specs.Terms.{term_at, Stands, Adds};
ghost use Rattle.shader_tree.specs.Trees.{Grown, grown, is_root};

use crate::node::{Expr, Node, Stmt};
use node_pool::Pool;
use std::alloc::Global;
use std::marker::Model;
use word_base::NoMemory;

/// Nodes, each of which names earlier ones, and one of them as the root.
///
/// A node is named by its id, a `u32` counted from 0 in the order in which nodes are added. Only `make`
/// takes memory.
#[derive(Drop)]
pub struct Tree {
    nodes: Pool<Node>,
    root: Option<u32>,
}

impl Model for Tree {
    ghost Value = { Grown };

    ghost view = { λ t. grown t.nodes.list t.nodes.capacity t.root };

    ghost invariant = { λ t. IsTrue (are_nodes t.nodes.list) × IsTrue (is_root t.nodes.list t.root)
        × IsTrue (are_short t.nodes.list) };
}

impl Tree {
    /// Makes a tree without nodes, with room for that many.
    ///
    /// # Errors
    ///
    /// `NoMemory` where the pool of its nodes cannot be had.
    pub fn make(alloc: Global, nodes: u32) -> Result<Tree, NoMemory>
        ensures { IfOk result (λ t. t ≡ grown [] nodes None) }
    {
        let nodes = Pool::make(alloc, nodes)?;
        Ok(Tree { nodes, root: None })
    }

    /// Adds an expression, and returns its id. What it names must be there and of the right sorts, a divisor
    /// must not be 0, a thread id must have a component below 3, and there must be room.
    pub fn expr(&mut self, e: Expr) -> u32
        requires fits { IsTrue (fits self.old.nodes (node.Expr e)) }
        requires room { length self.old.nodes < self.old.capacity }
        ensures id { result ≡ length self.old.nodes }
        ensures tree { self.new ≡ record self.old { nodes = self.old.nodes ++ node.Expr e ∷ [] } }
        ensures adds { Adds self.old.nodes self.new.nodes (node.Expr e) result }
    {
        self.nodes.push(node_of(e))
    }

    /// Adds a statement, and returns its id. What it names must be there and of the right sorts, and there
    /// must be room.
    pub fn stmt(&mut self, s: Stmt) -> u32
        requires fits { IsTrue (fits self.old.nodes (node.Stmt s)) }
        requires room { length self.old.nodes < self.old.capacity }
        ensures id { result ≡ length self.old.nodes }
        ensures tree { self.new ≡ record self.old { nodes = self.old.nodes ++ node.Stmt s ∷ [] } }
        ensures adds { Adds self.old.nodes self.new.nodes (node.Stmt s) result }
    {
        self.nodes.push(Node::Stmt(s))
    }

    /// The expression of an id.
    pub fn expr_at(&self, id: u32) -> Expr
        requires { IsTrue (is_expr self.now.nodes id) }
        ensures { Stands self.now.nodes id (node.Expr result) }
    {
        match self.nodes.get(id) {
            Node::Expr(e) => e,
            Node::Stmt(_) => unreachable!(),
        }
    }

    /// The statement of an id.
    pub fn stmt_at(&self, id: u32) -> Stmt
        requires { IsTrue (has self.now.nodes (a_statement id)) }
        ensures { Stands self.now.nodes id (node.Stmt result) }
    {
        match self.nodes.get(id) {
            Node::Expr(_) => unreachable!(),
            Node::Stmt(s) => s,
        }
    }

    /// The root, which must have been set since the tree was made or cleared.
    pub fn root(&self) -> u32
        requires { IsSome self.now.root }
        ensures root { self.now.root ≡ Some result }
        ensures statement { IsTrue (has self.now.nodes (a_statement result)) }
        ensures literals { OfWords (term_at self.now.nodes result) }
    {
        match self.root {
            Some(root) => root,
            None => unreachable!(),
        }
    }

    /// Makes a statement the root.
    pub fn set_root(&mut self, stmt: u32)
        requires { IsTrue (has self.old.nodes (a_statement stmt)) }
        ensures { self.new ≡ record self.old { root = Some stmt } }
    {
        self.root = Some(stmt);
    }

    /// How many more nodes there is room for.
    pub fn room(&self) -> u32
        ensures room { result + length self.now.nodes ≡ self.now.capacity }
    {
        self.nodes.capacity() - self.nodes.len()
    }

    /// The nodes. The node of an id stands at that place, each names earlier ones, and literals are words.
    pub fn nodes(&self) -> &Pool<Node>
        ensures nodes { result.now.list ≡ self.now.nodes }
        ensures earlier { IsTrue (are_nodes self.now.nodes) }
        ensures literals { IsTrue (are_short self.now.nodes) }
        ensures capacity { result.now.capacity ≡ self.now.capacity }
    {
        &self.nodes
    }

    /// Takes all nodes out, and the root with them. The room for nodes stays.
    pub fn clear(&mut self)
        ensures { self.new ≡ grown [] self.old.capacity None }
    {
        self.nodes.clear();
        self.root = None;
    }
}

/// The node of an expression. Its literal is a word.
fn node_of(e: Expr) -> Node
    ensures node { result ≡ node.Expr e }
    ensures literal { IsTrue (is_short result) }
{
    match e {
        Expr::Word(w) => Node::Expr(Expr::Word(w)),
        _ => Node::Expr(e),
    }
}
