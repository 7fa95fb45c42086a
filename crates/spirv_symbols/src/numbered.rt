/// A word and the id of its constant.
#[derive(Clone, Copy, Debug, PartialEq, Eq)]
pub struct Numbered {
    /// The word.
    pub word: u32,
    /// The id of its constant.
    pub id: u32,
}
