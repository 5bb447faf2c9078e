//! What a run says of each name, and the texts that it writes of it: rows, counts and reasons.
//!
//! It stands at the end of the way of the data: what a file came to goes in, lines come out.
#![tactic(auto)]

mod answer;
mod counts;
mod errors;
mod texts;

pub use answer::{RowAnswer, RowError};
pub use counts::Counts;
pub use texts::{error_row, push_printed, row_text, sample_text, script_text, summary};
