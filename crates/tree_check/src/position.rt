//! Where a node stands: what its place takes, what surrounds it, and its parent.

ghost use Rattle.std.specs.Prelude.{◌≡◌};
ghost use Rattle.tree_check.specs.Forms as spec;

use crate::cursor::{Cursor, places_at};
use crate::slot_table::Taken;
use js_forms::{Context, Form, Place};
use tree_core::Tree;
use tree_forms::{ALONE, Variant, child};
use type_defs::Kind;

/// What is told once of a node's lists, for all that stands there.
#[derive(Clone, Copy)]
pub struct Fronts {
    /// How many directives come first in its first list.
    pub directives: usize,
    /// How many cases come before the first one without test, of a switch.
    pub tested: usize,
}

/// The parent of a node, and where the node stands in it.
#[derive(Clone, Copy)]
pub struct Parent<'a> {
    pub node: &'a Tree,
    pub variant: Variant,
    /// The number of the slot.
    pub slot: usize,
    /// The number of the place in the slot.
    pub index: usize,
    pub fronts: Fronts,
}

/// Where a node stands.
#[derive(Clone, Copy)]
pub struct Position<'a> {
    /// `None` for the first node of the tree.
    pub parent: Option<Parent<'a>>,
    /// What its place takes.
    pub place: Place,
    /// What surrounds it.
    pub context: Context,
    /// Whether it is the first child of a chain, or of one of its links.
    pub on_spine: bool,
}

/// The position of a tree's first node.
pub fn outermost<'a>() -> Position<'a> {
    Position {
        parent: None,
        place: ALONE,
        context: Context::outermost(),
        on_spine: false,
    }
}

fn is_directive(place: &tree_core::Place) -> bool {
    match &place.node {
        Some(node) => matches!(node.kind, Kind::Directive),
        None => false,
    }
}

fn leading_directives(places: &[tree_core::Place]) -> usize {
    for at in 0..places.len() {
        if !is_directive(&places[at]) {
            return at;
        }
    }
    places.len()
}

fn is_default(place: &tree_core::Place) -> bool {
    match &place.node {
        Some(node) => matches!(node.kind, Kind::SwitchCase) && child(node, 0).is_none(),
        None => false,
    }
}

fn cases_with_tests(places: &[tree_core::Place]) -> usize {
    for at in 0..places.len() {
        if is_default(&places[at]) {
            return at;
        }
    }
    places.len()
}

/// What is told once of the node's lists.
pub fn fronts_of(node: &Tree) -> Fronts {
    match node.kind {
        Kind::Program | Kind::BlockStatement => Fronts {
            directives: leading_directives(places_at(node, 0)),
            tested: 0,
        },
        Kind::SwitchStatement => Fronts {
            directives: 0,
            tested: cases_with_tests(places_at(node, 1)),
        },
        _ => Fronts {
            directives: 0,
            tested: 0,
        },
    }
}

// Whether a first child of the form goes on with the chain that the form is or belongs to.
fn goes_on(form: Form, on_spine: bool) -> bool
    ensures { result ≡ spec.goes_on form on_spine }
{
    match form {
        Form::Chain => true,
        Form::Dot(_) | Form::Index(_) | Form::Call(_) => on_spine,
        _ => false,
    }
}

fn place_of(taken: Taken) -> Place {
    match taken.place {
        Some(place) => place,
        None => ALONE,
    }
}

/// The position of the child that the cursor passed last, of a node in this form at the position,
/// whose slot takes this.
pub fn below<'a>(
    above: &Position<'a>,
    taken: Taken,
    variant: Variant,
    fronts: Fronts,
    cursor: &Cursor<'a>,
) -> Position<'a> {
    let place = place_of(taken);
    Position {
        parent: Some(Parent {
            node: cursor.node,
            variant,
            slot: cursor.slot,
            index: cursor.index(),
            fronts,
        }),
        place,
        context: above.context.within(place.scope, variant.form.flow()),
        on_spine: cursor.slot == 0 && goes_on(variant.form, above.on_spine),
    }
}
