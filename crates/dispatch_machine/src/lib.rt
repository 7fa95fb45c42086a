//! Whole dispatches: which lanes a dispatch has, what they share, and what a run over a list of picks does;
//! and the trait of the lanes that run.
//!
//! `Lane` is what a runner of lanes calls: silent steps up to a bound, until the next event or end. `drive`
//! makes it of what is `Stepwise`, one step.
//!
//! The definitions stand in `specs/`: `Runs` for runs over picks of any lanes, `Dispatch` for the lanes of a
//! dispatch and their memory, `SameRuns` for a program and a module that do the same, and `Lane` for what a
//! lane gives to its calls, which a lane over a list of words shows in `LaneExample`. Beside them stand
//! dispatches that are computed: shared memory and barriers in `RunExamples` and `RowExamples`, modules in
//! `ModuleRunExamples`, a constant buffer in `BufferExamples`, a null view in `NullExamples`, and lanes that
//! break strict rules in `WrongExamples`.
#![tactic(auto)]

mod driver;
mod example;
mod lane;
mod laws;

pub use driver::{Driven, Stepped, Stepwise, drive};
pub use example::{WordLane, word_lane};
pub use lane::{Lane, Next, Strict};
pub use laws::{dispatch_laws, example_laws, lane_laws, run_laws, same_laws};
