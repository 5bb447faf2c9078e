//! Missing semicolons: where a `;` may be left out, and where the statement or the field before a
//! line end would go on with the token behind it (ECMA-262, clause 12.10).
//!
//! The levels are those of the table of forms, 0 to 19.
#![tactic(auto)]

mod rules;

pub use rules::{EndLevels, Ending, may_end, would_join};
