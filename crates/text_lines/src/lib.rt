//! The lines of a text, the parts of a line, and numbers: what all texts of this project share.
//!
//! A line ends with an LF, and a CR before that is dropped; the last LF may be missing. The parts of a
//! line are separated by one or more spaces. A number is 1 to 10 decimal digits. A text names its own mark of
//! comments. The definitions stand in `specs/`: `Lines` for lines and what is written of them, `Parts`
//! for parts, `Numbers` for numbers, and `Examples` has some, computed.
#![tactic(auto)]

mod laws;
mod lines;
mod numbers;
mod parts;
mod writing;

pub use laws::{line_laws, number_laws, part_laws};
pub use lines::{end_of, first_line, has_outer_space, is_passed};
pub use numbers::number;
pub use parts::{behind_spaces, next_part};
pub use writing::{push_line, push_number, push_text};
