//! What every layer of the translator speaks of: words and their bytes, rules and refusals, and the
//! events of a lane of a compute shader.
//!
//! The definitions that the contracts cite stand in `specs/`: `Words` for words and bytes, `Rules`
//! for the order of refusals, `Firsts` for the first of a list by any key, `Lanes` for machines that make events, `Counted` for those that count what
//! their silent steps cost, `Settings` for what a lane is given, `Bits` and `Alu` for the arithmetic of
//! instructions.
#![tactic(auto)]

mod arithmetic;
mod event;
mod laws;
pub mod rule;
mod word;

pub use arithmetic::{
    Binary, Paired, Ternary, Unary, alu_pair, alu1, alu2, alu3, arithmetic_laws, bfi, new_word,
    result_laws,
};
pub use event::{Act, Classes, Event, Ids, Room, Scope};
pub use laws::small_laws;
pub use rule::{Halt, NoMemory, ROWS, Refusal, Row, Rule, first_by_laws, first_laws};
pub use word::{byte_laws, field, word_at, word_laws};
