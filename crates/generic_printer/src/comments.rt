//! The comments of the gaps between children.

use crate::rows::{Row, row_at};
use std::alloc::AllocError;
use tree_core::Comment;

/// A comment, and whether it stands inside its node beside no child.
#[derive(Clone, Copy)]
pub struct Note<'a> {
    pub comment: &'a Comment,
    pub inner: bool,
}

fn is_line_end(unit: u16) -> bool {
    unit == 0x0A || unit == 0x0D || unit == 0x2028 || unit == 0x2029
}

/// Whether a line ends with the comment or in it.
pub fn is_breaking(comment: &Comment) -> bool {
    if !comment.block {
        return true;
    }
    for unit in comment.text.get() {
        if is_line_end(*unit) {
            return true;
        }
    }
    false
}

/// Whether a line ends with one of the comments or in it.
pub fn any_breaks(comments: &[Comment]) -> bool {
    for comment in comments {
        if is_breaking(comment) {
            return true;
        }
    }
    false
}

/// The same of notes.
pub fn any_note_breaks(notes: &[Note<'_>]) -> bool {
    for note in notes {
        if is_breaking(note.comment) {
            return true;
        }
    }
    false
}

/// Adds the comments.
pub fn add<'a>(
    found: &mut Vec<Note<'a>>,
    comments: &'a [Comment],
    inner: bool,
) -> Result<(), AllocError> {
    for comment in comments {
        found.push(Note { comment, inner })?;
    }
    Ok(())
}

/// Adds the comments before the row: its own, and those that rise to it.
pub fn add_before<'a>(
    found: &mut Vec<Note<'a>>,
    rows: &[Row<'a>],
    at: usize,
) -> Result<(), AllocError> {
    let mut here = at;
    for _turn in 0..rows.len() {
        let row = row_at(rows, here)?;
        add(found, row.node.notes.lead(), false)?;
        if !row.rises || row.first == 0 {
            return Ok(());
        }
        here = row.first;
    }
    Ok(())
}

// The row lowest down whose comments fall to the row.
fn lowest(rows: &[Row<'_>], at: usize) -> Result<usize, AllocError> {
    let mut here = at;
    for _turn in 0..rows.len() {
        let row = row_at(rows, here)?;
        if !row.falls || row.last == 0 {
            return Ok(here);
        }
        here = row.last;
    }
    Ok(here)
}

/// Adds the comments behind the row: those that fall to it, and its own.
pub fn add_behind<'a>(
    found: &mut Vec<Note<'a>>,
    rows: &[Row<'a>],
    at: usize,
) -> Result<(), AllocError> {
    let mut here = lowest(rows, at)?;
    for _turn in 0..rows.len() {
        let row = row_at(rows, here)?;
        add(found, row.node.notes.trail(), false)?;
        if here == at || row.parent >= here {
            return Ok(());
        }
        here = row.parent;
        let parent = row_at(rows, here)?;
        add(found, parent.node.notes.inner(), false)?;
    }
    Ok(())
}
