//! Instructions on views, counters and shared memory, and `sync`, as statements of the tree.
//!
//! What such an instruction is raised to is a term; the definitions stand in `specs/`: `Reaching` for its
//! address and the statements of its events, each under its test, `Guarding` for its whole statement, and
//! `Guards` for what that owes. The code builds this term: `Making` and `Giving` say what its parts stand
//! for while the tree grows, and `Counting` how many nodes they take. `Examples` runs such statements, and
//! `CostExamples` says what they cost.
#![tactic(auto)]

mod address;
mod chains;
mod events;
mod guarding;
mod joins;
mod keeping;
mod kinds;
mod laws;
mod locate;
mod parts;
mod reach;
mod work;
mod writing;

pub use guarding::guarded;
pub use laws::{guardable_laws, guarded_bound_laws, guarded_laws, quiet_laws};
