//! Trees and parts of forms that are read, with the height of what stands in them.

ghost use Rattle.std.specs.Prelude.{◌≡◌, map};
ghost use Rattle.tree_core.specs.Height.{height, places_height, slots_height};
ghost use Rattle.tree_core.specs.View.{syntax, place_view, slot_view, places_of, slots_of};

use sqlite_items::Items;
use tree_core::{Place, Scalars, Slot, Tree};

/// A tree that is read.
#[derive(Drop)]
pub struct Grown {
    pub tree: Tree,
    pub levels: usize,
    ghost measured: { levels ≡ height (syntax tree) },
}

/// The trees of a list.
#[derive(Drop)]
pub struct Children {
    pub places: Items<Place>,
    pub levels: usize,
    ghost measured: { levels ≡ places_height (places_of (map place_view places)) },
}

/// What is read of a form.
#[derive(Drop)]
pub struct Parts {
    pub scalars: Scalars,
    pub slots: Items<Slot>,
    pub levels: usize,
    ghost measured: { levels ≡ slots_height (slots_of (map slot_view slots)) },
}
