use word_base::Refusal;

/// How a run of the program ended.
#[derive(Clone, Copy, Debug, PartialEq, Eq)]
pub enum Status {
    /// The module was written.
    Ok,
    /// The input breaks a rule.
    Refused,
    /// The words ask for nothing.
    Usage,
    /// The outside failed.
    Fault,
    /// Memory was wanted and could not be had.
    NoMemory,
}

/// Why no module was made or written.
#[derive(Clone, Copy, Debug, PartialEq, Eq)]
pub(crate) enum Failure {
    /// The input breaks this rule first.
    Refused(Refusal),
    /// The outside failed.
    Fault,
    /// Memory was wanted and could not be had.
    NoMemory,
}
