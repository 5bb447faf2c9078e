//! Which comments of a source go to which node.

use crate::comment_places::Spanned;
use js_tokens::{byte_at, units};
use sqlite_items::Items;
use std::alloc::{AllocError, Global};
use tree_core::{Comment, Comments, Notes, Span};

/// Where comments go: before a node, after it, or inside it beside no child.
#[derive(Clone, Copy, Debug, PartialEq, Eq)]
pub enum Side {
    Lead,
    Trail,
    Inner,
}

// The comments of the source from one up to another, which go to one side of a node.
#[derive(Clone, Copy, Debug)]
struct Run {
    side: Side,
    from: usize,
    to: usize,
    // One more than the place of another run of the same node; 0 where there is none.
    more: usize,
}

/// Runs by the numbers of their nodes.
#[derive(Drop)]
pub struct Attached {
    runs: Items<Run>,
    // For each node one more than the place of its last run, 0 where it has none.
    last: Items<usize>,
}

impl Attached {
    /// None yet. Where the source has no comments, there is no table of nodes either.
    pub fn new(alloc: Global, nodes: usize, comments: usize) -> Result<Attached, AllocError> {
        let nodes = if comments == 0 { 0 } else { nodes };
        Ok(Attached {
            runs: Items::new(alloc),
            last: Items::from_vec(vec![in alloc; 0usize; nodes]?),
        })
    }

    /// Gives the comments to the node.
    pub fn add(
        &mut self,
        node: Option<u32>,
        side: Side,
        from: usize,
        to: usize,
    ) -> Result<(), AllocError> {
        let Some(number) = node else {
            return Ok(());
        };
        let at = number as usize;
        if from >= to || at >= self.last.len() {
            return Ok(());
        }
        let more = self.last.as_slice()[at];
        self.runs.push(Run {
            side,
            from,
            to,
            more,
        })?;
        let count = self.runs.len();
        if at < self.last.len() {
            self.last.set(at, count);
        }
        Ok(())
    }

    // The run at one less than this place.
    fn run(&self, place: usize) -> Option<Run> {
        if place == 0 {
            return None;
        }
        self.runs.get(place - 1).copied()
    }

    // The node's last run.
    fn of_node(&self, node: Option<u32>) -> Option<Run> {
        let number = node?;
        let place = self.last.get(number as usize)?;
        self.run(*place)
    }

    // Another run of the same node.
    fn another(&self, run: Run) -> Option<Run> {
        self.run(run.more)
    }
}

// The comment with this span of the text.
fn comment(alloc: Global, text: &[u8], span: Span) -> Result<Comment, AllocError> {
    let start = (span.start as usize).min(text.len());
    let block = byte_at(text, start.saturating_add(1)) == b'*';
    let behind = if block { 2 } else { 0 };
    let end = (span.end as usize).min(text.len()).saturating_sub(behind);
    let first = start.saturating_add(2).min(end);
    Ok(Comment {
        block,
        text: units(alloc, &text[first..end], false)?,
    })
}

// The comments of the run.
fn comments(alloc: Global, text: &[u8], spans: &[Span], run: Run) -> Result<Comments, AllocError> {
    let mut all = Items::new(alloc);
    for at in run.from..run.to.min(spans.len()) {
        all.push(comment(alloc, text, spans[at])?)?;
    }
    Ok(all)
}

/// The comments of the node with this number.
pub fn notes_of(
    alloc: Global,
    spanned: Spanned<'_>,
    attached: &Attached,
    node: Option<u32>,
) -> Result<Notes, AllocError> {
    let mut next = attached.of_node(node);
    if next.is_none() {
        return Ok(Notes::none());
    }
    let (mut lead, mut trail, mut inner) = (
        Items::new(alloc),
        Items::new(alloc),
        Items::new(alloc),
    );
    for _turn in 0..3 {
        let Some(run) = next else {
            break;
        };
        let all = comments(alloc, spanned.source.bytes(), spanned.comments, run)?;
        match run.side {
            Side::Lead => lead = all,
            Side::Trail => trail = all,
            Side::Inner => inner = all,
        }
        next = attached.another(run);
    }
    Notes::new(alloc, lead, trail, inner)
}
