use crate::symbol::Symbol;

/// What a program and its bindings say of a variable.
#[derive(Clone, Copy)]
pub struct Declared {
    /// The variable: `Memory`, `Uniform` or `Elements`.
    pub variable: Symbol,
    /// The words of shared memory or of indexable registers, the vectors of a constant buffer; else 0.
    pub size: u32,
    /// The descriptor set at which it is bound; 0 where it is not.
    pub set: u32,
    /// The binding at which it is bound; 0 where it is not.
    pub binding: u32,
    /// Whether a `u#` is globally coherent.
    pub coherent: bool,
}
