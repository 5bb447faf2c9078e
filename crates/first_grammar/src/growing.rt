//! How what is read grows: trees are put into lists and parts of forms, and these into nodes. The
//! heights are kept along, so that no tree need grow that nests deeper than it may.

ghost use Rattle.std.specs.Prelude.{[], ◌∷◌, ◌++◌, ◌≡◌, ◌<◌, ◌^◌, IfOk};
ghost use Rattle.first_grammar.specs.Growing.{grown_view, children_view, parts_view};
ghost use Rattle.first_grammar.specs.Reading as spec;
ghost use Rattle.first_grammar.specs.Reading.{unnamed};
ghost use Rattle.first_grammar.specs.Spells as spells;

use crate::measured::{Children, Grown, Parts};
use crate::table::{Kind, fixed, node_kind};
use sqlite_items::Items;
use std::alloc::{AllocError, Global};
use tree_core::{Notes, Place, Scalar, Scalars, Slot, Tree, Units};

impl Children {
    pub fn new(alloc: Global) -> Children
        ensures { children_view result ≡ [] }
    {
        Children {
            places: Items::new(alloc),
            levels: 0,
        }
    }

    /// These trees and one more behind them.
    pub fn with(self, alloc: Global, grown: Grown) -> Result<Children, AllocError>
        ensures { IfOk result (λ all. children_view all ≡ children_view self ++ unnamed (grown_view grown) ∷ []) }
    {
        let Children { mut places, levels } = self;
        places.push(Place::filled(alloc, grown.tree)?)?;
        let levels = levels.max(grown.levels);
        Ok(Children { places, levels })
    }
}

impl Parts {
    pub fn new(alloc: Global) -> Parts
        ensures { parts_view result ≡ ([], []) }
    {
        Parts {
            scalars: Scalars::new(),
            slots: Items::new(alloc),
            levels: 0,
        }
    }

    /// With a text.
    pub fn with_text(self, alloc: Global, text: Units) -> Result<Parts, AllocError>
        ensures { IfOk result (λ all. parts_view all ≡ spec.with_scalar (parts_view self) text) }
    {
        let Parts {
            scalars,
            slots,
            levels,
        } = self;
        let scalars = scalars.with(alloc, Scalar::Text(text))?;
        Ok(Parts {
            scalars,
            slots,
            levels,
        })
    }

    /// With a slot of one tree.
    pub fn with_child(self, alloc: Global, grown: Grown) -> Result<Parts, AllocError>
        ensures { IfOk result (λ all. parts_view all ≡ spec.with_row (parts_view self) (spells.one None (grown_view grown))) }
    {
        let Parts {
            scalars,
            mut slots,
            levels,
        } = self;
        slots.push(Slot::single(Place::filled(alloc, grown.tree)?))?;
        let levels = levels.max(grown.levels);
        Ok(Parts {
            scalars,
            slots,
            levels,
        })
    }

    /// With a slot of a list.
    pub fn with_list(self, children: Children) -> Result<Parts, AllocError>
        ensures { IfOk result (λ all. parts_view all ≡ spec.with_row (parts_view self) (spells.all (children_view children))) }
    {
        let Parts {
            scalars,
            mut slots,
            levels,
        } = self;
        slots.push(Slot::list(children.places))?;
        let levels = levels.max(children.levels);
        Ok(Parts {
            scalars,
            slots,
            levels,
        })
    }

    /// The node of the kind whose form they fill, with its number.
    pub fn into_node(self, alloc: Global, kind: Kind, from: u32) -> Result<Grown, AllocError>
        requires { self.levels < 2 ^ 63 }
        ensures { IfOk result (λ grown. grown_view grown ≡ spec.made kind (parts_view self) from) }
    {
        let Parts {
            scalars,
            slots,
            levels,
        } = self;
        let tree = Tree {
            kind: node_kind(kind),
            scalars: fixed(alloc, kind)?.append(alloc, scalars)?,
            slots,
            notes: Notes::none(),
            from: Some(from),
        };
        let levels = levels + 1;
        Ok(Grown { tree, levels })
    }
}
