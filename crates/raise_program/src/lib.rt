//! The flat list of a program's instructions as the tree of its statements.
//!
//! `raise` walks from the last instruction to the first, so that a chain of statements is built from its
//! end, and keeps what stands behind each construct whose end it passed, at most 64 of them.
//!
//! The definitions stand in `specs/`: `Spots` for a statement in its surroundings, and where an
//! instruction in it leads, `SpotLane` for a lane that stands at such statements, `Raised` for the
//! statements of a tree and what of them is still to be run at a spot, `Parts` for what each instruction
//! is raised to, `Whole` for a whole program, `Advances` for how the tree's lane goes on at control flow,
//! `GoingBack` for how often the program's lane goes back, `ProgramShape` for a program's loops, switches
//! and events in order, and `TreeOf` for what the tree of a whole program is. What the code keeps on its
//! walk: `Walked` as statements, `Walking` as ids of a tree that grows.
#![tactic(auto)]

mod laws;
mod parts;
mod raising;
mod trees;
mod walk;

pub use laws::{advance_laws, chain_laws, leap_laws, raised_lane_laws, spot_laws};
pub use raising::raise;
pub use trees::{program_word_laws, raised_tree_laws};
