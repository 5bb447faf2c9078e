//! Forms in their spellings.

use js_forms::{Form, Spelling};

/// A form in one of its spellings.
#[derive(Clone, Copy, Debug, PartialEq, Eq)]
pub struct Variant {
    pub form: Form,
    pub spelling: Spelling,
}
