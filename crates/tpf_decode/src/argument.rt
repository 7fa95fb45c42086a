/// The type of an operand.
#[derive(Clone, Copy, Debug, PartialEq, Eq)]
pub enum Kind {
    /// A register `r#`.
    Temp,
    /// An element of an indexable register `x#`.
    Indexable,
    /// One word, or four.
    Immediate,
    /// A view that is read, `t#`.
    Resource,
    /// A vector of a constant buffer `cb#`.
    Constant,
    /// A vector of the immediate constant buffer.
    ImmediateConstant,
    /// A destination that is thrown away.
    Null,
    /// A view that is read and written, `u#`.
    Uav,
    /// Memory that a thread group shares, `g#`.
    Shared,
    /// The thread's number in the dispatch, `vThreadID`.
    ThreadId,
    /// The group's number in the dispatch, `vThreadGroupID`.
    GroupId,
    /// The thread's number in its group, `vThreadIDInGroup`.
    IdInGroup,
    /// The thread's number in its group, as one number.
    FlatId,
}

/// The components that an operand selects.
#[derive(Clone, Copy, Debug, PartialEq, Eq)]
pub enum Select {
    /// None are selected: the operand has no component, or one.
    Bare,
    /// The components that are written, x in the lowest bit.
    Mask(u8),
    /// A component for each of the four, two bits each, that of x in the lowest bits.
    Swizzle(u8),
    /// One component.
    One(u8),
}

/// An operand that is added to an index.
#[derive(Clone, Copy, Debug, PartialEq, Eq)]
pub struct Relative {
    /// Its type.
    pub kind: Kind,
    /// The register or slot, and 0 for a thread's number.
    pub slot: u32,
    /// The element of an indexable register, or the vector of a constant buffer, and else 0.
    pub index: u32,
    /// The component, and 0 of the flattened number.
    pub component: u8,
}

/// An operand. Fields that its type does not use are 0, false or None.
#[derive(Clone, Copy, Debug, PartialEq, Eq)]
pub struct Argument {
    /// Its type.
    pub kind: Kind,
    /// The components that it selects.
    pub select: Select,
    /// Whether it is negated.
    pub negate: bool,
    /// The register or slot.
    pub slot: u32,
    /// The immediate part of its index.
    pub index: u32,
    /// The operand that is added to its index.
    pub relative: Option<Relative>,
    /// The first word of an immediate.
    pub x: u32,
    /// The second word of an immediate, which is the first where it has one word; so are `z` and `w`.
    pub y: u32,
    /// The third word of an immediate.
    pub z: u32,
    /// The fourth word of an immediate.
    pub w: u32,
}

/// What an instruction does with an operand, as the opcode table says for each.
#[derive(Clone, Copy, Debug, PartialEq, Eq)]
pub enum Role {
    /// It is written.
    Dest,
    /// Its components are read.
    Source,
    /// Its first selected component is read.
    Scalar,
    /// Its first two selected components are read, an index and a byte offset.
    Pair,
    /// It is a view that is read.
    ViewRead,
    /// It is a view that is written.
    ViewWrite,
    /// It is a view that is named.
    ViewName,
    /// It is an immediate of which the first word counts.
    Literal,
    /// It is a thread's number that is declared.
    Input,
}
