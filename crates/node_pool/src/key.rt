/// A pair of words by which something is known.
#[derive(Clone, Copy, Debug, PartialEq, Eq)]
pub struct Key {
    /// What is numbered.
    pub kind: u32,
    /// Which of its kind.
    pub number: u32,
}
