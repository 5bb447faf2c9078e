//! Comments, and those of one node.

ghost use Rattle.std.specs.Prelude.{◌≡◌, [], IfOk};

use crate::units::Units;
use sqlite_items::Items;
use std::alloc::{AllocError, Global};
use std::marker::Model;

/// A comment: whether it stands between `/*` and `*/`, and its text without these marks or `//`.
#[derive(Debug, Drop)]
pub struct Comment {
    pub block: bool,
    pub text: Units,
}

/// Comments in order.
pub type Comments = Items<Comment>;

// The comments of a node that has some.
#[derive(Debug, Drop)]
struct Beside {
    lead: Comments,
    trail: Comments,
    inner: Comments,
}

/// The comments before, after and inside a node. Most nodes have none, and those pay for no list.
#[derive(Debug, Drop)]
pub struct Notes {
    beside: Option<Box<Beside>>,
}

impl Model for Notes {
    ghost use Rattle.tree_core.specs.Notes as spec;

    ghost Value = { spec.Notes };

    ghost use Rattle.tree_core.specs.Noted.{noted};

    ghost view = { λ n. noted n.beside };
}

impl Notes {
    /// No comments.
    pub fn none() -> Notes
        ensures { result ≡ record { lead = []; trail = []; inner = [] } }
    {
        Notes { beside: None }
    }

    /// The comments before a node, after it, and inside it beside no child.
    pub fn new(
        alloc: Global,
        lead: Comments,
        trail: Comments,
        inner: Comments,
    ) -> Result<Notes, AllocError>
        ensures { IfOk result (λ n. n ≡ record { lead = lead; trail = trail; inner = inner }) }
    {
        if lead.is_empty() && trail.is_empty() && inner.is_empty() {
            return Ok(Notes { beside: None });
        }
        let beside = Box::new(alloc, Beside { lead, trail, inner })?;
        Ok(Notes {
            beside: Some(beside),
        })
    }

    /// The comments before the node.
    pub fn lead(&self) -> &[Comment]
        ensures { result.now ≡ self.now.lead }
    {
        match &self.beside {
            None => &[],
            Some(beside) => beside.lead.as_slice(),
        }
    }

    /// The comments after the node.
    pub fn trail(&self) -> &[Comment]
        ensures { result.now ≡ self.now.trail }
    {
        match &self.beside {
            None => &[],
            Some(beside) => beside.trail.as_slice(),
        }
    }

    /// The comments inside the node that stand beside no child.
    pub fn inner(&self) -> &[Comment]
        ensures { result.now ≡ self.now.inner }
    {
        match &self.beside {
            None => &[],
            Some(beside) => beside.inner.as_slice(),
        }
    }
}
