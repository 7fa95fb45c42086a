//! The blocks of a function: straight code, and the constructs around it with their labels.
//!
//! The definitions stand in `specs/`: `Layout` for blocks as a nested value, and what it writes; `Fronts`
//! for what stands around the blocks in a function; `Shapes` for the items that blocks show; `Lowering` for a
//! statement of the tree beside its layout, `Pieces` for what its pieces of code do, `GoingBack` for how often
//! the module's lane goes back; `Lowers` for what calls that write a statement's blocks owe, and `Formed` for
//! what the blocks owe to the form of their module, with `Labels` for the labels in code. What `emit_tree`
//! needs and what it writes stands in `Emitting`, with `Heads` and `Marks` for what is in front of bodies.
#![tactic(auto)]

mod around;
mod blocks;
mod emit;
mod forms;
mod heads;
mod laws;
mod marks;
mod statements;

pub use emit::emit_tree;
pub use forms::form_laws;
pub use laws::{lane_laws, layout_laws, shape_laws};
