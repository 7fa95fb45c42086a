//! The words of the command line: which job they ask for, if any.
//!
//! `read_words` reads them by `clap` as one simple command. Its contract cites the definitions in
//! `specs/`: `Command` for the options and the values that words give them, `Job` for what the values
//! ask for.
#![tactic(auto)]

mod command;
mod laws;
mod values;

pub use command::{BindingChoice, Command, read_words};
pub use laws::usage_laws;
