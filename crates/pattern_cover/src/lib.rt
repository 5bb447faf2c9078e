//! Converts expressions that were read into the patterns that the same tokens spell.
//!
//! Only what follows a list, an object or a group tells whether it is an expression or a pattern. So
//! the parser reads an expression, keeps here what its tree does not tell, and has it converted where
//! the token behind it says so (ECMA-262, clauses 13.15.5 and 15.3).
#![tactic(auto)]

mod conversion;
mod facts;

pub use conversion::{PatternError, parameters, to_pattern};
pub use facts::CoverFacts;
