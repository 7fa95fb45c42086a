//! Root signatures: which registers the chunk `RTS0` of a container covers, in order, or the first rule
//! that it breaks.
//!
//! The definitions stand in `specs/`: `Layout` for where the words stand, `Covers` for the registers of
//! an entry, `Covering` for the entries of a root signature in order, `Refusals` for the rules, and
//! `Signatures` for what callers may rely on.
#![tactic(auto)]

mod covers;
mod entries;
mod laws;
mod layout;
mod marks;
mod overlaps;
mod reader;
mod refusals;
mod runs;
mod signature;

pub use covers::Covers;
pub use laws::signature_laws;
pub use reader::parse;
pub use signature::RootSignature;
