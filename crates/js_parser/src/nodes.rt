//! Trees that are read, the lists and parts of forms of which they are made, and what is kept along
//! with them.

ghost use Rattle.std.specs.Prelude.{◌≡◌, ◌+◌, ◌-◌, ◌^◌, ◌||◌, max, min};

use js_forms::{Form, level, scalars};
use sqlite_items::Items;
use std::alloc::{AllocError, Global};
use std::mem;
use tree_core::{Place, Scalar, Scalars, Slot, Tree, Units};
use type_defs::slot_count;

/// What is kept of trees.
#[derive(Clone, Copy)]
pub struct Summary {
    /// How many nodes and grouping parentheses nest in them.
    pub levels: u32,
    /// Whether one has a shorthand with a default, so that it must become a pattern.
    pub must_become_pattern: bool,
    /// Whether one has an `await` or `yield` of the function around it.
    pub awaits: bool,
}

impl Summary {
    pub fn none() -> Summary {
        Summary {
            levels: 0,
            must_become_pattern: false,
            awaits: false,
        }
    }

    pub fn with(self, other: Summary) -> Summary
        ensures levels { result.levels ≡ max self.levels other.levels }
        ensures must_become_pattern { result.must_become_pattern ≡ (self.must_become_pattern || other.must_become_pattern) }
        ensures awaits { result.awaits ≡ (self.awaits || other.awaits) }
    {
        Summary {
            levels: self.levels.max(other.levels),
            must_become_pattern: self.must_become_pattern || other.must_become_pattern,
            awaits: self.awaits || other.awaits,
        }
    }

    // One level higher.
    pub fn enclosed(self) -> Summary
        ensures levels { result.levels ≡ min (self.levels + 1) (2 ^ 32 - 1) }
        ensures must_become_pattern { result.must_become_pattern ≡ self.must_become_pattern }
        ensures awaits { result.awaits ≡ self.awaits }
    {
        Summary {
            levels: self.levels.saturating_add(1),
            ..self
        }
    }

    /// That of a node of this form over these.
    fn of_node(self, form: Form) -> Summary {
        let below = self.enclosed();
        match form {
            Form::Await | Form::Yield | Form::YieldValue | Form::YieldStar => Summary {
                awaits: true,
                ..below
            },
            _ => {
                let awaits = below.awaits && !form.is_function();
                Summary { awaits, ..below }
            }
        }
    }
}

/// A tree that is read.
#[derive(Drop)]
pub struct ReadNode {
    /// In a box, so that the recursion moves no nodes about on the stack.
    pub tree: Box<Tree>,
    pub form: Form,
    /// 19 in grouping parentheses.
    pub level: u8,
    pub grouped: bool,
    pub summary: Summary,
}

impl ReadNode {
    pub fn is_name(&self) -> bool {
        matches!(self.form, Form::Name)
    }

    /// Whether it may be assigned to, and is no pattern.
    pub fn is_simple(&self) -> bool {
        matches!(self.form, Form::Name | Form::Dot(_) | Form::Index(_))
    }

    /// Whether it may become a pattern, which is in no parentheses.
    pub fn is_cover(&self) -> bool {
        !self.grouped && matches!(self.form, Form::Array | Form::Object)
    }

    pub fn is_super(&self) -> bool {
        matches!(self.form, Form::Super)
    }

    pub fn is_pattern(&self) -> bool {
        matches!(self.form, Form::ArrayPattern | Form::ObjectPattern)
    }
}

/// The trees of a list.
#[derive(Drop)]
pub struct Children {
    pub places: Items<Place>,
    pub summary: Summary,
}

impl Children {
    pub fn new(alloc: Global) -> Children {
        Children {
            places: Items::new(alloc),
            summary: Summary::none(),
        }
    }

    pub fn push(&mut self, node: ReadNode) -> Result<(), AllocError> {
        self.summary = self.summary.with(node.summary);
        self.places.push(filled(node.tree))
    }

    pub fn push_hole(&mut self) -> Result<(), AllocError> {
        self.places.push(hole())
    }

    /// These and then the others.
    pub fn append(self, more: Children) -> Result<Children, AllocError> {
        let Children {
            mut places,
            summary,
        } = self;
        places.append(more.places)?;
        Ok(Children {
            places,
            summary: summary.with(more.summary),
        })
    }
}

fn filled(tree: Box<Tree>) -> Place {
    Place {
        name: None,
        node: Some(tree),
    }
}

fn hole() -> Place {
    Place {
        name: None,
        node: None,
    }
}

/// What is read of a form.
#[derive(Drop)]
pub struct Parts {
    scalars: Scalars,
    slots: Items<Slot>,
    /// The first children of the list that comes next, where they are read apart.
    first_items: Option<Children>,
    pub summary: Summary,
}

impl Parts {
    /// Nothing yet but what the form determines.
    pub fn new(alloc: Global, form: Form) -> Result<Parts, AllocError> {
        let count = slot_count(form.kind());
        Ok(Parts {
            scalars: scalars(alloc, form)?,
            slots: Items::from_vec(Vec::with_capacity(alloc, count)?),
            first_items: None,
            summary: Summary::none(),
        })
    }

    /// The same, and the first child where the form begins with one.
    pub fn begun(alloc: Global, form: Form, first: Option<ReadNode>) -> Result<Parts, AllocError> {
        let mut read = Parts::new(alloc, form)?;
        if let Some(first) = first {
            read.push_child(first)?;
        }
        Ok(read)
    }

    pub fn push_scalar(&mut self, alloc: Global, scalar: Scalar) -> Result<(), AllocError> {
        let scalars = mem::replace(&mut self.scalars, Scalars::new());
        self.scalars = scalars.with(alloc, scalar)?;
        Ok(())
    }

    pub fn push_text(&mut self, alloc: Global, text: Units) -> Result<(), AllocError> {
        self.push_scalar(alloc, Scalar::Text(text))
    }

    fn push_slot(&mut self, slot: Slot, below: Summary) -> Result<(), AllocError> {
        self.summary = self.summary.with(below);
        self.slots.push(slot)
    }

    pub fn push_child(&mut self, node: ReadNode) -> Result<(), AllocError> {
        let below = node.summary;
        self.push_slot(Slot::single(filled(node.tree)), below)
    }

    pub fn push_absent(&mut self) -> Result<(), AllocError> {
        self.push_slot(Slot::single(hole()), Summary::none())
    }

    pub fn push_maybe(&mut self, child: Option<ReadNode>) -> Result<(), AllocError> {
        match child {
            Some(node) => self.push_child(node),
            None => self.push_absent(),
        }
    }

    // The children behind those of a list that was begun.
    fn behind_begun(&mut self, children: Children) -> Result<Children, AllocError> {
        match mem::replace(&mut self.first_items, None) {
            Some(first) => first.append(children),
            None => Ok(children),
        }
    }

    /// Adds first children of the list that comes next.
    pub fn begin_list(&mut self, children: Children) -> Result<(), AllocError> {
        self.first_items = Some(self.behind_begun(children)?);
        Ok(())
    }

    /// Adds the list with these children, behind those with which it began.
    pub fn push_list(&mut self, children: Children) -> Result<(), AllocError> {
        let Children { places, summary } = self.behind_begun(children)?;
        self.push_slot(Slot::list(places), summary)
    }

    /// The node of the form, with its number.
    pub fn into_node(self, alloc: Global, form: Form, from: u32) -> Result<ReadNode, AllocError> {
        let Parts {
            scalars,
            slots,
            summary,
            first_items: _,
        } = self;
        let mut tree = Tree::new(form.kind(), scalars, slots);
        tree.from = Some(from);
        Ok(ReadNode {
            tree: tree.boxed(alloc)?,
            form,
            level: level(form),
            grouped: false,
            summary: summary.of_node(form),
        })
    }
}
