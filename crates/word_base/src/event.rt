/// A range of words that events touch.
///
/// The number is the slot of the register in the shader: `t#`, `u#`, the hidden counter of a `u#`,
/// or `g#`. (Shader Model 5 assembly: resource views and thread group shared memory.)
#[derive(Clone, Copy, Debug, PartialEq, Eq)]
pub enum Room {
    /// A read-only view `t#`.
    Resource(u32),
    /// A read-write view `u#`.
    Uav(u32),
    /// The hidden counter of a structured `u#`, one word.
    Counter(u32),
    /// Thread group shared memory `g#`.
    Shared(u32),
}

/// What an atomic does with the word that it finds.
#[derive(Clone, Copy, Debug, PartialEq, Eq)]
pub enum Act {
    /// The old word plus `a`, modulo 2^32.
    Add,
    /// The old word less `a`, modulo 2^32.
    Sub,
    /// And, bit by bit.
    And,
    /// Or, bit by bit.
    Or,
    /// Exclusive or, bit by bit.
    Xor,
    /// The greater word by signed value.
    SMax,
    /// The smaller word by signed value.
    SMin,
    /// The greater word by value.
    UMax,
    /// The smaller word by value.
    UMin,
    /// The word `a`.
    Exchange,
    /// The word `b` where the old word is `a`, and the old word elsewhere.
    CompareExchange,
}

/// Whose order a fence or a barrier speaks of.
#[derive(Clone, Copy, Debug, PartialEq, Eq)]
pub enum Scope {
    /// All lanes of the device.
    Device,
    /// The lanes of one thread group.
    Group,
}

/// The memory that a fence or a barrier orders.
#[derive(Clone, Copy, Debug, PartialEq, Eq)]
pub struct Classes {
    /// The words of views.
    pub buffers: bool,
    /// Thread group shared memory.
    pub shared: bool,
}

/// What a lane does to the memory that all lanes see.
///
/// A load and an atomic are answered with one word. Word indices count from the first word of the
/// room.
#[derive(Clone, Copy, Debug, PartialEq, Eq)]
pub enum Event {
    /// Reads a word.
    Load {
        /// The room that is read.
        room: Room,
        /// The word that is read, counted from 0.
        word: u32,
    },
    /// Writes a word.
    Store {
        /// The room that is written.
        room: Room,
        /// The word that is written, counted from 0.
        word: u32,
        /// What it becomes.
        value: u32,
    },
    /// Reads a word and writes it anew, in one step. For every kind but `CompareExchange`, `b` is 0.
    Atomic {
        /// The room that is changed.
        room: Room,
        /// The word that is changed, counted from 0.
        word: u32,
        /// What becomes of it.
        kind: Act,
        /// The operand; of `CompareExchange` the word that is expected.
        a: u32,
        /// Of `CompareExchange` the new word, and else 0.
        b: u32,
    },
    /// Orders what this lane does before and after it.
    Fence {
        /// Whose order it speaks of.
        scope: Scope,
        /// The memory that it orders.
        classes: Classes,
    },
    /// A fence at which the lanes of a group wait for one another.
    Barrier {
        /// Whose order it speaks of.
        scope: Scope,
        /// The memory that it orders.
        classes: Classes,
    },
}

/// The numbers of a lane.
///
/// (Shader Model 5 assembly: `vThreadGroupID`, `vThreadIDInGroup`, `vThreadIDInGroupFlattened` and
/// `vThreadID`.)
#[derive(Clone, Copy, Debug, PartialEq, Eq)]
pub struct Ids {
    /// The group in the dispatch, along x.
    pub group_x: u32,
    /// The group in the dispatch, along y.
    pub group_y: u32,
    /// The group in the dispatch, along z.
    pub group_z: u32,
    /// The thread in its group, along x.
    pub x: u32,
    /// The thread in its group, along y.
    pub y: u32,
    /// The thread in its group, along z.
    pub z: u32,
    /// The thread in its group, counted along x, then y, then z.
    pub flat: u32,
    /// The thread in the dispatch, along x.
    pub thread_x: u32,
    /// The thread in the dispatch, along y.
    pub thread_y: u32,
    /// The thread in the dispatch, along z.
    pub thread_z: u32,
}
