//! The tree between bytecode and blocks: guarded statements over single words, in one pool of nodes.
//!
//! An instruction is raised to statements, and statements are lowered to blocks of a module. Each node
//! names earlier ones by their ids; what an id stands for is a term. `Tree` adds nodes, lends them, and
//! keeps the id of the root.
//!
//! The definitions that the contracts cite stand in `specs/`: `Nodes` for sorts and what a node names,
//! `Terms` for what ids stand for, `Trees` for what a contract sees. What a tree means stands there too:
//! `Values` of expressions, `Chains` of statements, the `Lane` that runs them, what a statement owes to its
//! instruction in `Plans`. What it holds and names is gathered by `Walks`, its `Shape` and where its
//! statements are `Placed` follow; `Costs` are what its nodes take in a module at most.
#![tactic(auto)]

mod laws;
mod node;
mod tree;

pub use laws::{chain_laws, cost_laws, node_laws, plan_laws, step_laws, value_laws, word_laws};
pub use node::{Comparison, Expr, Node, Space, Stmt};
pub use tree::Tree;
