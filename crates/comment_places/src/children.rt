//! The children of a node in the order of the text, each with what its slot takes.
//!
//! The slots stand in that order, but for a template's characters and expressions, which take
//! turns. A name that is spelled once for two children has a mirror, which stands nowhere.

ghost use Rattle.std.specs.Prelude.{◌≡◌, ◌≤◌, ◌++◌, [], ◌∷◌, drop, length, map, IfOk, OnOk};
ghost use Rattle.tree_core.specs.View.{syntax, slot_view, place_view, slots_of, places_of};
ghost use Rattle.comment_places.specs.Children.{kid_view};
ghost use Rattle.comment_places.specs.Children as spec;

use js_forms::{Category, Form};
use std::alloc::{AllocError, Global};
use tree_core::{Place, Slot, Tree};
use tree_forms::{ALONE, Variant, is_mirror, slot_at};

/// A child: the node, the number of its place in its parent, that of its slot, and what this takes.
#[derive(Clone, Copy)]
pub struct Child<'a> {
    pub node: &'a Tree,
    pub number: u32,
    pub slot_number: usize,
    pub category: Category,
}

fn category_at(variant: Option<Variant>, number: usize) -> Category
    ensures { result ≡ spec.category_at variant number }
{
    match variant {
        Some(variant) => category_in(variant, number),
        None => ALONE.category,
    }
}

fn category_in(variant: Variant, number: usize) -> Category
    ensures { result ≡ spec.category_in variant number }
{
    match slot_at(variant, number) {
        Some(place) => place.category,
        None => ALONE.category,
    }
}

fn add_place<'a>(
    found: &mut Vec<Child<'a>>,
    slot_number: usize,
    category: Category,
    number: u32,
    place: &'a Place,
) -> Result<(), AllocError>
    ensures { OnOk result (map kid_view found.new.items ≡ map kid_view found.old.items ++ spec.in_places slot_number category number (places_of (place_view place.now ∷ []))) }
{
    match &place.node {
        None => Ok(()),
        Some(node) => Ok(found.push(Child {
            node,
            number,
            slot_number,
            category,
        })?),
    }
}

fn add_slot<'a>(
    found: &mut Vec<Child<'a>>,
    slot_number: usize,
    category: Category,
    number: u32,
    places: &'a Slot,
) -> Result<(), AllocError>
    ensures { OnOk result (map kid_view found.new.items ≡ map kid_view found.old.items ++ spec.in_places slot_number category number (slot_view places.now).1) }
{
    match places {
        Slot::Single(place) => add_place(found, slot_number, category, number, place),
        Slot::List(places) => add_places(found, slot_number, category, number, places.as_slice()),
    }
}

fn add_places<'a>(
    found: &mut Vec<Child<'a>>,
    slot_number: usize,
    category: Category,
    number: u32,
    places: &'a [Place],
) -> Result<(), AllocError>
    ensures { OnOk result (map kid_view found.new.items ≡ map kid_view found.old.items ++ spec.in_places slot_number category number (places_of (map place_view places.now))) }
{
    let mut here = number;
    for place in places {
        add_place(found, slot_number, category, here, place)?;
        here = here.saturating_add(1);
    }
    Ok(())
}

// The number of the first place behind the slot, whose first has this one.
fn behind(slot: &Slot, number: u32) -> u32
    ensures { result ≡ spec.behind number (slot_view slot.now).1 }
{
    match slot {
        Slot::Single(_) => number.saturating_add(1),
        Slot::List(places) => {
            let mut here = number;
            for _place in places.as_slice() {
                here = here.saturating_add(1);
            }
            here
        }
    }
}

// The children in the order of the slots.
fn in_order<'a>(
    alloc: Global,
    variant: Option<Variant>,
    slots: &'a [Slot],
) -> Result<Vec<Child<'a>>, AllocError>
    ensures { IfOk result (λ found. map kid_view found.items ≡ spec.in_slots variant 0 0 (slots_of (map slot_view slots.now))) }
{
    let mut found = Vec::new(alloc);
    let mut number = 0u32;
    for at in 0..slots.len() {
        let slot = &slots[at];
        if !stands_nowhere(variant, at) {
            add_slot(&mut found, at, category_at(variant, at), number, slot)?;
        }
        number = behind(slot, number);
    }
    Ok(found)
}

fn stands_nowhere(variant: Option<Variant>, number: usize) -> bool
    ensures { result ≡ spec.stands_nowhere variant number }
{
    match variant {
        Some(variant) => is_mirror(variant, number),
        None => false,
    }
}

// How many characters come before the first expression of a template.
fn character_count(children: &[Child<'_>]) -> usize
    ensures count { result ≡ spec.character_count (map kid_view children.now) }
    ensures within { result ≤ length children.now }
{
    for at in 0..children.len() {
        if !is_character(children[at].category) {
            return at;
        }
    }
    children.len()
}

fn is_character(category: Category) -> bool
    ensures { result ≡ spec.is_character category }
{
    match category {
        Category::Characters => true,
        _ => false,
    }
}

// Characters and expressions in turn.
fn turns<'a>(
    alloc: Global,
    characters: &[Child<'a>],
    holes: &[Child<'a>],
) -> Result<Vec<Child<'a>>, AllocError>
    ensures { IfOk result (λ found. map kid_view found.items ≡ spec.turns (map kid_view characters.now) (map kid_view holes.now)) }
{
    let mut found = Vec::new(alloc);
    for at in 0..characters.len().max(holes.len()) {
        add_at(&mut found, characters, at)?;
        add_at(&mut found, holes, at)?;
    }
    Ok(found)
}

// Adds the child of this number, where there is one.
fn add_at<'a>(
    found: &mut Vec<Child<'a>>,
    children: &[Child<'a>],
    at: usize,
) -> Result<(), AllocError>
    ensures { OnOk result (map kid_view found.new.items ≡ map kid_view found.old.items ++ spec.first_of (map kid_view (drop at children.now))) }
{
    if at < children.len() {
        found.push(children[at])?;
    }
    Ok(())
}

/// Whether the form is that of a template.
pub fn is_template_form(form: Form) -> bool
    ensures { result ≡ spec.is_template_form form }
{
    matches!(form, Form::Template)
}

/// The same of a tree's form.
pub fn is_template(variant: Option<Variant>) -> bool
    ensures { result ≡ spec.is_template variant }
{
    match variant {
        Some(variant) => is_template_form(variant.form),
        None => false,
    }
}

/// The children that are there, in the order of the text, of a tree in this form.
pub fn children<'a>(
    alloc: Global,
    variant: Option<Variant>,
    tree: &'a Tree,
) -> Result<Vec<Child<'a>>, AllocError>
    ensures { IfOk result (λ found. map kid_view found.items ≡ spec.children variant (syntax tree.now)) }
{
    let found = in_order(alloc, variant, tree.slots.as_slice())?;
    if is_template(variant) {
        return in_turns(alloc, &found);
    }
    Ok(found)
}

// A template's characters and then its expressions, in turn.
fn in_turns<'a>(alloc: Global, found: &[Child<'a>]) -> Result<Vec<Child<'a>>, AllocError>
    ensures { IfOk result (λ kids. map kid_view kids.items ≡ spec.in_turns (map kid_view found.now)) }
{
    let count = character_count(found);
    turns(alloc, &found[..count], &found[count..])
}
