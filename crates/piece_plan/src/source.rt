//! A source as the plan reads it: its text, its nodes by number, and their spans.

use crate::nodes::{SourceNode, nodes_of, span_at};
use cm_text::Source;
use std::alloc::{AllocError, Global};
use tree_core::{Parsed, Span, Tree};

/// A source that was read.
#[derive(Drop)]
pub struct SourceTree<'a> {
    pub text: &'a Source,
    pub spans: &'a [Span],
    pub comments: &'a [Span],
    pub nodes: Vec<SourceNode<'a>>,
}

impl<'a> SourceTree<'a> {
    pub fn new(
        alloc: Global,
        text: &'a Source,
        parsed: &'a Parsed,
    ) -> Result<SourceTree<'a>, AllocError> {
        Ok(SourceTree {
            text,
            spans: parsed.spans.as_slice(),
            comments: parsed.comments.as_slice(),
            nodes: nodes_of(alloc, &parsed.tree)?,
        })
    }

    /// The node of this number.
    pub fn node(&self, number: usize) -> Option<SourceNode<'a>> {
        match self.nodes.get(number) {
            Some(node) => Some(*node),
            None => None,
        }
    }

    /// The source node that the tree is or comes from.
    pub fn source_of(&self, tree: &Tree) -> Option<usize> {
        let number = tree.from? as usize;
        if number < self.nodes.len() {
            return Some(number);
        }
        None
    }

    pub fn span(&self, number: usize) -> Span {
        span_at(self.spans, number)
    }
}
