use binding_map::Place;

/// A constant buffer `cb#` that the program declares, by its slot.
#[derive(Clone, Copy, Debug, PartialEq, Eq)]
pub struct ConstantBuffer {
    /// The number of the register.
    pub slot: u32,
    /// How many vectors of four words it declares.
    pub vectors: u32,
    /// Where it is bound.
    pub place: Place,
}
