/// A word of a lane, by its sort and its number within the sort, counted from 0.
#[derive(Clone, Copy, Debug, PartialEq, Eq)]
pub enum Word {
    /// A word that a statement gives a value for later statements.
    Scratch(u32),
    /// A word of the registers r# that has a variable of its own.
    Register(u32),
    /// A word of an array, numbered through all arrays.
    Element(u32),
}
