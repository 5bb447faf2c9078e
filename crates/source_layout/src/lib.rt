//! How a source is laid out: what stands between the children of its nodes, how its lists are written,
//! by how much it indents, and whether it has semicolons.
//!
//! A list is what a slot of several places holds; of an import, its names in braces. A line list
//! holds statements, members of a class or cases, all others have commas.
#![tactic(auto)]

mod atoms;
mod facts;
mod lists;
mod styles;

pub use atoms::{Atom, GapName, Run, SourceGap, gap_of, is_line_broken, line_count};
pub use facts::{FileFacts, Unit, facts_of, line_front, quote_at, stands_first, unit_of, width_of};
pub use lists::{
    first_item, holder, is_line_list, is_list_item, last_item, list_slot, next_item, next_spelled,
    outer_span, position, previous_item, previous_spelled,
};
pub use styles::{MainRun, Style, begins_at, main_run, style_of};
