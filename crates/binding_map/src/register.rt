/// What is bound, by its slot.
#[derive(Clone, Copy, Debug, PartialEq, Eq, Hash)]
pub enum Register {
    /// A constant buffer, cb#.
    Constant(u32),
    /// A view that is read, t#.
    Resource(u32),
    /// A view that is read and written, u#.
    Uav(u32),
    /// The counter of a u#.
    Counter(u32),
}

/// Where it is bound.
#[derive(Clone, Copy, Debug, PartialEq, Eq)]
pub enum Place {
    /// At a descriptor. (SPIR-V specification: the decorations DescriptorSet and Binding.)
    Bound { set: u32, binding: u32 },
    /// In push constants: that many words, from that one on. (SPIR-V specification: the storage class
    /// PushConstant.)
    Push { first: u32, count: u32 },
}
