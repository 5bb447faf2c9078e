//! Whether two trees are the same but for the numbers of their nodes and the names of their
//! places.

ghost use Rattle.std.specs.Prelude.{◌≡◌, ◌↔◌, IsTrue, [], ◌∷◌, map};
ghost use Rattle.tree_core.specs.Bare.{bare, bare_slots, bare_places};
ghost use Rattle.tree_core.specs.View.{syntax, slot_view, place_view, slots_of, places_of};

use crate::comment::{Comment, Notes};
use crate::scalars::{Scalar, Scalars};
use crate::tree::{Place, Slot, Tree};

/// Whether the trees have the same kinds, scalars, slots and comments, each list of comments
/// compared by itself. Numbers of nodes and names of places are not compared.
#[cycle(same)]
pub fn same(a: &Tree, b: &Tree) -> bool
    ensures { IsTrue result ↔ (bare (syntax a.now) ≡ bare (syntax b.now)) }
{
    if !a.kind.is(b.kind) || !same_scalars(&a.scalars, &b.scalars) {
        return false;
    }
    same_notes(&a.notes, &b.notes) && same_slots(a.slots.as_slice(), b.slots.as_slice())
}

#[cycle(same)]
fn same_slots(a: &[Slot], b: &[Slot]) -> bool
    ensures { IsTrue result ↔ (bare_slots (slots_of (map slot_view a.now)) ≡ bare_slots (slots_of (map slot_view b.now))) }
{
    if a.len() != b.len() {
        return false;
    }
    for at in 0..a.len() {
        if !same_slot(&a[at], &b[at]) {
            return false;
        }
    }
    true
}

#[cycle(same)]
fn same_slot(a: &Slot, b: &Slot) -> bool
    ensures { IsTrue result ↔ (((slot_view a.now).0 ≡ (slot_view b.now).0) × (bare_places (slot_view a.now).1 ≡ bare_places (slot_view b.now).1)) }
{
    match (a, b) {
        (Slot::Single(a), Slot::Single(b)) => same_place(a, b),
        (Slot::List(a), Slot::List(b)) => same_places(a.as_slice(), b.as_slice()),
        _ => false,
    }
}

#[cycle(same)]
fn same_places(a: &[Place], b: &[Place]) -> bool
    ensures { IsTrue result ↔ (bare_places (places_of (map place_view a.now)) ≡ bare_places (places_of (map place_view b.now))) }
{
    if a.len() != b.len() {
        return false;
    }
    for at in 0..a.len() {
        if !same_place(&a[at], &b[at]) {
            return false;
        }
    }
    true
}

#[cycle(same)]
fn same_place(a: &Place, b: &Place) -> bool
    ensures { IsTrue result ↔ (bare_places (places_of (place_view a.now ∷ [])) ≡ bare_places (places_of (place_view b.now ∷ []))) }
{
    match (&a.node, &b.node) {
        (None, None) => true,
        (Some(a), Some(b)) => same(a, b),
        _ => false,
    }
}

fn same_notes(a: &Notes, b: &Notes) -> bool
    ensures { IsTrue result ↔ (a.now ≡ b.now) }
{
    same_comments(a.lead(), b.lead())
        && same_comments(a.trail(), b.trail())
        && same_comments(a.inner(), b.inner())
}

fn same_comments(a: &[Comment], b: &[Comment]) -> bool
    ensures { IsTrue result ↔ (a.now ≡ b.now) }
{
    if a.len() != b.len() {
        return false;
    }
    for at in 0..a.len() {
        if !same_comment(&a[at], &b[at]) {
            return false;
        }
    }
    true
}

fn same_comment(a: &Comment, b: &Comment) -> bool
    ensures { IsTrue result ↔ (a.now ≡ b.now) }
{
    a.block == b.block && a.text.get() == b.text.get()
}

fn same_scalars(a: &Scalars, b: &Scalars) -> bool
    ensures { IsTrue result ↔ (a.now ≡ b.now) }
{
    if a.len() != b.len() {
        return false;
    }
    for at in 0..a.len() {
        match (a.get(at), b.get(at)) {
            (Some(a), Some(b)) => {
                if !same_scalar(a, b) {
                    return false;
                }
            }
            _ => return false,
        }
    }
    true
}

fn same_scalar(a: &Scalar, b: &Scalar) -> bool
    ensures { IsTrue result ↔ (a.now ≡ b.now) }
{
    match (a, b) {
        (Scalar::Text(a), Scalar::Text(b)) => a.get() == b.get(),
        (Scalar::Truth(a), Scalar::Truth(b)) => *a == *b,
        (Scalar::Null, Scalar::Null) => true,
        _ => false,
    }
}
