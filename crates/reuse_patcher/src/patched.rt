//! What a patch comes to.

use generic_printer::Slice;

/// The text of a changed tree over its source.
#[derive(Drop)]
pub struct Patch {
    pub(crate) text: Vec<u8>,
    pub(crate) slices: Vec<Slice>,
}

impl Patch {
    /// The text.
    pub fn text(&self) -> &[u8] {
        self.text.as_slice()
    }

    /// What of the text is the source's, in order.
    pub fn slices(&self) -> &[Slice] {
        self.slices.as_slice()
    }

    /// The text alone.
    pub fn into_text(self) -> Vec<u8> {
        self.text
    }
}
