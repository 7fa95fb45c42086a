use crate::symbol::Symbol;

/// A symbol and its id.
#[derive(Clone, Copy, Debug, PartialEq, Eq)]
pub struct Entry {
    /// The symbol.
    pub symbol: Symbol,
    /// Its id.
    pub id: u32,
}
