//! What a tree is at its left end: its level, and the comments that come to stand there.

ghost use Rattle.std.specs.Prelude.{◌≡◌, [], ◌∷◌, map};
ghost use Rattle.tree_core.specs.View.{syntax, slot_view, place_view, slots_of, places_of};
ghost use Rattle.tree_forms.specs.Edges as spec;

use crate::choosing::form;
use crate::slots::{begins_bare, slot};
use crate::variant::Variant;
use js_forms::{
    CALL, Category, Form, Link, MEMBER, PRIMARY, Place, SEQUENCE, Scope, is_optional, spelled_level,
};
use tree_core::{Comment, Slot, Tree};
use type_defs::{Group, Kind, NodeType, is_a};

/// The place of an expression that may be any.
pub const ALONE: Place = Place {
    category: Category::Expression,
    least: SEQUENCE,
    scope: Scope::Same,
};

/// The left end of a tree.
#[derive(Clone, Copy, Debug, PartialEq, Eq)]
pub struct Edge {
    /// The level of the expression.
    pub level: u8,
    /// How many links of a chain go from here down to the lowest that is optional and bare.
    pub links: u32,
    /// Whether parentheses may stand around it.
    pub groups: bool,
    /// Whether comments come to stand before it.
    pub noted: bool,
}

/// Whether an expression in the place may stand in parentheses.
pub fn takes_groups(category: Category) -> bool
    ensures { result ≡ spec.takes_groups category }
{
    match category {
        Category::Expression
        | Category::Cover
        | Category::Argument
        | Category::Element
        | Category::Callee
        | Category::Target
        | Category::Assigned
        | Category::AssignedValue
        | Category::AssignedElement
        | Category::Operand
        | Category::ArrowBody
        | Category::ForInit
        | Category::ForLeft => true,
        _ => false,
    }
}

// The link of a member or a call.
fn link_in(form: Form) -> Option<Link>
    ensures { result ≡ spec.link_in form }
{
    match form {
        Form::Dot(link) | Form::Index(link) | Form::Call(link) => Some(link),
        _ => None,
    }
}

fn below_links(below: Option<Edge>) -> u32
    ensures { result ≡ spec.below_links below }
{
    match below {
        Some(first) => first.links,
        None => 0,
    }
}

pub fn links_with(link: Option<Link>, below: u32) -> u32
    ensures { result ≡ spec.links_with link below }
{
    match link {
        Some(link) => {
            if below != 0 {
                return below.saturating_add(1);
            }
            if is_optional(link) { 1 } else { 0 }
        }
        None => 0,
    }
}

pub fn link_of(variant: Option<Variant>) -> Option<Link>
    ensures { result ≡ spec.link_of variant }
{
    match variant {
        Some(variant) => link_in(variant.form),
        None => None,
    }
}

// Whether the first child of the form, with this edge, may stand in parentheses.
fn first_groups(variant: Variant, first: Edge) -> bool
    ensures { result ≡ spec.first_groups variant first }
{
    match slot(variant, 0) {
        Some(place) => takes_groups(place.category) && first.groups,
        None => false,
    }
}

// The level of a member or a tagged template: its first child's where that is bare and of level 17.
fn member_level(variant: Variant, below: Option<Edge>) -> u8
    ensures { result ≡ spec.member_level variant below }
{
    match below {
        Some(first) => {
            if first.level == CALL && !(first.noted && first_groups(variant, first)) {
                CALL
            } else {
                MEMBER
            }
        }
        None => MEMBER,
    }
}

// Whether it is a member or a tagged template.
fn is_member(form: Form) -> bool
    ensures { result ≡ spec.is_member form }
{
    matches!(form, Form::Dot(_) | Form::Index(_) | Form::Tagged)
}

fn level_over(variant: Variant, below: Option<Edge>) -> u8
    ensures { result ≡ spec.level_over variant below }
{
    if is_member(variant.form) {
        return member_level(variant, below);
    }
    spelled_level(variant.form, variant.spelling)
}

// Whether the comments before the first child come to stand before the node.
fn rises(variant: Variant, below: Option<Edge>) -> bool
    ensures { result ≡ spec.rises variant below }
{
    match below {
        Some(first) => { begins_bare(variant) && (first.noted && !first_groups(variant, first)) }
        None => false,
    }
}

fn has_any(comments: &[Comment]) -> bool
    ensures { result ≡ spec.has_any comments.now }
{
    !comments.is_empty()
}

/// Whether it is the kind of an expression.
pub fn is_expression(kind: Kind) -> bool
    ensures { result ≡ spec.is_expression kind }
{
    is_a(kind, NodeType::Group(Group::Expression))
}

fn level_of(variant: Option<Variant>, below: Option<Edge>) -> u8
    ensures { result ≡ spec.level_of variant below }
{
    match variant {
        Some(variant) => level_over(variant, below),
        None => PRIMARY,
    }
}

fn rises_of(variant: Option<Variant>, below: Option<Edge>) -> bool
    ensures { result ≡ spec.rises_of variant below }
{
    match variant {
        Some(variant) => rises(variant, below),
        None => false,
    }
}

fn over(variant: Option<Variant>, tree: &Tree, below: Option<Edge>) -> Edge
    ensures { result ≡ spec.edge_over variant tree.now.kind tree.now.notes.lead below }
{
    let links = links_with(link_of(variant), below_links(below));
    Edge {
        level: level_of(variant, below),
        links,
        groups: is_expression(tree.kind) && links == 0,
        noted: has_any(tree.notes.lead()) || rises_of(variant, below),
    }
}

/// The left end of the tree.
#[cycle(edges)]
pub fn left_end(tree: &Tree) -> Edge
    ensures { result ≡ spec.left_end (syntax tree.now) }
{
    let below = first_edge(tree.slots.as_slice());
    over(form(tree, ALONE), tree, below)
}

#[cycle(edges)]
fn first_edge(slots: &[Slot]) -> Option<Edge>
    ensures { result ≡ spec.first_edge (slots_of (map slot_view slots.now)) }
{
    if slots.is_empty() {
        return None;
    }
    slot_edge(&slots[0])
}

#[cycle(edges)]
fn slot_edge(slot: &Slot) -> Option<Edge>
    ensures { result ≡ spec.places_edge (slot_view slot.now).1 }
{
    match slot {
        Slot::Single(place) => place_edge(place),
        Slot::List(places) => places_edge(places.as_slice()),
    }
}

#[cycle(edges)]
fn places_edge(places: &[tree_core::Place]) -> Option<Edge>
    ensures { result ≡ spec.places_edge (places_of (map place_view places.now)) }
{
    if places.is_empty() {
        return None;
    }
    place_edge(&places[0])
}

#[cycle(edges)]
fn place_edge(place: &tree_core::Place) -> Option<Edge>
    ensures { result ≡ spec.places_edge (places_of (place_view place.now ∷ [])) }
{
    match &place.node {
        None => None,
        Some(node) => Some(left_end(node)),
    }
}

/// The level of the expression in made text (ECMA-262, clauses 13.2 to 13.16).
pub fn level(tree: &Tree) -> u8
    ensures { result ≡ spec.level (syntax tree.now) }
{
    left_end(tree).level
}
