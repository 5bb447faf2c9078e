//! Reads the statements and expressions of JavaScript by the table of forms.
//!
//! The reader chooses a form and its spelling by looking ahead, and then reads its pieces in order.
//! Expressions grow from their first operand on, by levels. What may be an expression or a pattern is
//! read as an expression, and converted into a pattern where the token behind it says so.
#![tactic(auto)]

mod arrow;
mod builders;
mod expected;
mod expression;
mod for_head;
mod grammar;
mod lists;
mod lookahead;
mod members;
mod module;
mod nodes;
mod operand;
mod pattern;
mod programs;
mod reader;
mod spelled;
mod statement;
mod template;
mod tokens;

pub use programs::{MAX_LEVELS, Read, program};
pub use reader::Quasi;
