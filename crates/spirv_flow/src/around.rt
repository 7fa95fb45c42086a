/// What is around a statement: where a break leads, in a loop or switch, and where a continue leads, in a
/// loop. Both are labels of blocks.
#[derive(Clone, Copy)]
pub(crate) struct Around {
    pub(crate) leave: Option<u32>,
    pub(crate) renew: Option<u32>,
}

/// A chain of statements, by the id of its node, and the label of the block that its first case or default
/// begins. Further ones have the labels behind it.
#[derive(Clone, Copy)]
pub(crate) struct Chain {
    pub(crate) id: u32,
    pub(crate) mark: u32,
}
