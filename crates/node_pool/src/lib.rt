//! Pools and keys. A pool is a list with a fixed capacity, whose items lie side by side in one region of
//! memory and are named by their index. Keys are a list of distinct pairs of words in two pools, in which
//! most are found in one step, the others in at most 32 steps and one more for each kind of key.
//!
//! Four functions of `region` touch the memory: one takes it, one gives it back, one writes a place and
//! one lends a place. All above them is safe code.
#![tactic(auto)]

mod key;
mod key_tree;
mod keys;
mod pool;
mod region;

pub use key::Key;
pub use keys::Keys;
pub use pool::Pool;
