//! The comments of a piece, in the source and in the changed tree.

use crate::marks::same_comment;
use crate::neighbours::Sides;
use crate::nodes::SourceNode;
use crate::source::SourceTree;
use generic_printer::{Note, Row, add_before, add_behind};
use std::alloc::AllocError;
use tree_core::Comment;

fn add_all<'s>(found: &mut Vec<&'s Comment>, comments: &'s [Comment]) -> Result<(), AllocError> {
    for comment in comments {
        found.push(comment)?;
    }
    Ok(())
}

fn trail_of<'s>(
    found: &mut Vec<&'s Comment>,
    source: &SourceTree<'s>,
    child: Option<usize>,
) -> Result<(), AllocError> {
    if let Some(number) = child {
        if let Some(child) = source.node(number) {
            add_all(found, child.node.notes.trail())?;
        }
    }
    Ok(())
}

fn lead_of<'s>(
    found: &mut Vec<&'s Comment>,
    source: &SourceTree<'s>,
    child: Option<usize>,
) -> Result<(), AllocError> {
    if let Some(number) = child {
        if let Some(child) = source.node(number) {
            add_all(found, child.node.notes.lead())?;
        }
    }
    Ok(())
}

/// The comments of the piece in the source.
pub fn source_comments<'s>(
    found: &mut Vec<&'s Comment>,
    source: &SourceTree<'s>,
    owner: SourceNode<'s>,
    sides: Sides,
) -> Result<(), AllocError> {
    found.clear();
    trail_of(found, source, sides.left)?;
    lead_of(found, source, sides.right)?;
    if sides.right.is_none() {
        add_all(found, owner.node.notes.inner())?;
    }
    Ok(())
}

/// The comments of the piece in the changed tree.
pub fn final_comments<'a>(
    found: &mut Vec<Note<'a>>,
    rows: &[Row<'a>],
    row: Row<'a>,
    left: usize,
    right: usize,
) -> Result<(), AllocError> {
    found.clear();
    if left != 0 && !(right == 0 && row.falls) {
        add_behind(found, rows, left)?;
    }
    if right != 0 && !(left == 0 && row.rises) {
        add_before(found, rows, right)?;
    }
    if right == 0 && !row.falls {
        for comment in row.node.notes.inner() {
            found.push(Note {
                comment,
                inner: true,
            })?;
        }
    }
    Ok(())
}

/// Whether the comments are the same.
pub fn same_notes(notes: &[Note<'_>], comments: &[&Comment]) -> bool {
    if notes.len() != comments.len() {
        return false;
    }
    for at in 0..notes.len() {
        if !same_comment(notes[at].comment, comments[at]) {
            return false;
        }
    }
    true
}
