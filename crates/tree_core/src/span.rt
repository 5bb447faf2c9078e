//! Stretches of a text, and a tree with the stretches of its nodes and comments.

use crate::tree::Tree;
use sqlite_items::Items;

/// The bytes from `start` up to `end`.
#[derive(Clone, Copy, Debug, PartialEq, Eq)]
pub struct Span {
    pub start: u32,
    pub end: u32,
}

/// The stretches of a tree's nodes, each at the place of its node's number.
pub type Spans = Items<Span>;

/// The stretches of a text's comments, in the order of the text.
pub type CommentSpans = Items<Span>;

/// A tree that was read, with the stretches of its nodes by number and of its comments in order.
///
/// The fields are dropped in this order: when a large block is freed, many allocators gather the small
/// ones that were freed before, so the nodes come last.
#[derive(Drop)]
pub struct Parsed {
    pub spans: Spans,
    pub comments: CommentSpans,
    pub tree: Tree,
}
