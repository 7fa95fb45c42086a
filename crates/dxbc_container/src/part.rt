/// A part of the bytes of a file.
#[derive(Clone, Copy, Debug, PartialEq, Eq)]
pub struct Slice {
    /// The first byte of the part, counted from byte 0 of the file.
    pub start: u32,
    /// The size of the part in bytes.
    pub size: u32,
}

/// A chunk of a container.
#[derive(Clone, Copy, Debug, PartialEq, Eq)]
pub struct Tagged {
    /// The four bytes of the tag, as a little-endian word.
    pub tag: u32,
    /// The data of the chunk, behind its tag and its size.
    pub part: Slice,
}
