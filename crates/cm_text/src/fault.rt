//! Why bytes are no source text.

/// Why bytes are no source text.
#[derive(Clone, Copy, Debug, PartialEq, Eq)]
pub enum TextFault {
    /// There are `len` bytes, more than a source may have.
    TooLong { len: u64 },
    /// The byte at `at` is the first that begins no UTF-8 character.
    NotUtf8 { at: u32 },
}
