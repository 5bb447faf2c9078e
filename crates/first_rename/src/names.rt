//! Names, and the identifiers of a tree that have one.

ghost use Rattle.std.specs.Prelude.{◌≡◌, ◌↔◌, ◌-◌, ◌^◌, [], ◌∷◌, min, IsTrue};
ghost use Rattle.tree_core.specs.View.{syntax, slot_view, place_view, places_of};
ghost use Rattle.first_rename.specs.Names.{IsPlainName, count_of, count_places};
ghost use Rattle.first_rename.specs.Names as spec;

use first_grammar::words::{is_part, is_reserved, is_start};
use tree_core::{Place, Scalar, Slot, Tree};
use type_defs::Kind;

/// Whether the bytes are a name and no reserved word (ECMA-262, clause 12.7, in ASCII alone).
pub fn is_plain_name(bytes: &[u8]) -> bool
    ensures { IsTrue result ↔ IsPlainName bytes.now }
{
    !bytes.is_empty()
        && is_start(bytes[0])
        && bytes.iter().all(|byte| is_part(*byte))
        && !is_reserved(bytes)
}

/// How many identifiers of the tree have the name, property names among them; `u64::MAX` where
/// there are more.
#[cycle(count)]
pub fn count(tree: &Tree, name: &[u8]) -> u64
    ensures { result ≡ min (count_of name.now (syntax tree.now)) (2 ^ 64 - 1) }
{
    let mut found = u64::from(is_named(tree, name));
    for slot in tree.slots.as_slice() {
        found = found.saturating_add(count_in_slot(slot, name));
    }
    found
}

#[cycle(count)]
fn count_in_slot(slot: &Slot, name: &[u8]) -> u64
    ensures { result ≡ min (count_places name.now (slot_view slot.now).1) (2 ^ 64 - 1) }
{
    match slot {
        Slot::Single(place) => count_in_place(place, name),
        Slot::List(places) => {
            let mut found = 0u64;
            for place in places.as_slice() {
                found = found.saturating_add(count_in_place(place, name));
            }
            found
        }
    }
}

#[cycle(count)]
fn count_in_place(place: &Place, name: &[u8]) -> u64
    ensures { result ≡ min (count_places name.now (places_of (place_view place.now ∷ []))) (2 ^ 64 - 1) }
{
    match &place.node {
        None => 0,
        Some(node) => count(node, name),
    }
}

/// Whether the tree is an identifier of the name.
pub fn is_named(tree: &Tree, name: &[u8]) -> bool
    ensures { result ≡ spec.is_named name.now tree.now.kind tree.now.scalars }
{
    if !matches!(tree.kind, Kind::Identifier) || tree.scalars.len() != 1 {
        return false;
    }
    match tree.scalars.get(0) {
        Some(scalar) => is_text(scalar, name),
        None => false,
    }
}

// Whether the scalar is this text.
fn is_text(scalar: &Scalar, name: &[u8]) -> bool
    ensures { result ≡ spec.is_text name.now scalar.now }
{
    match scalar {
        Scalar::Text(units) => units.is(name),
        _ => false,
    }
}
