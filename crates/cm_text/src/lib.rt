//! Source texts: bytes that are UTF-8 and not too long, their lines, and the layout of made text.
//!
//! This is the lowest crate of the text's side. Whoever reads a file or a script makes a `Source`
//! of its bytes, and every later crate reads that.
#![tactic(auto)]

mod fault;
mod layout;
mod line_end;
mod lines;
mod source;

pub use fault::TextFault;
pub use layout::{Layout, Quote};
pub use line_end::LineEnd;
pub use source::{MAX_LENGTH, Source};
