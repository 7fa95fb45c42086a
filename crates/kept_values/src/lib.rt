//! Which id has the value of which word of a lane while a block of a module is written, and which words
//! are not in memory yet.
//!
//! A word is a scratch word, a word of the registers r# with a variable of its own, or a word of an
//! array. Each sort is kept up to a number that the table is made with. Finding a word, giving it an id
//! and forgetting all words each take a few steps, however many words there are.
#![tactic(auto)]

mod kept;
mod laws;
mod numbers;
mod shelf;
mod word;

pub use kept::Kept;
pub use laws::kept_laws;
pub use word::Word;
