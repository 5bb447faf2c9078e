//! What nodes and places are to scopes.

ghost use Rattle.std.specs.Prelude.{◌≡◌, ◌<◌, length, Some, IfSome};
ghost use Rattle.std.specs.Option.{option_copied};
ghost use Rattle.scope_lookup.specs.Scopings.{name_at, text_of};
ghost use Rattle.scope_lookup.specs.Roles.{kind_under};
ghost use Rattle.scope_lookup.specs.Places.{scope_kind_at, is_computed, is_filled, is_named, role_at, truth_some};

use crate::role::{Role, ScopeKind, computed_scalar, scope_kind, slot_role};
use node_arena::{Arena, NodeId, PlaceId};
use tree_core::{Scalar, Units};
use type_defs::{Kind, scalar_count};

/// The role of a place in its owner.
pub fn role_at(arena: &Arena, place: PlaceId) -> Role
    requires { place < length arena.now.forest.places }
    ensures { result ≡ role_at arena.now.forest place }
{
    let Some(owner) = arena.owner(place) else {
        return Role::Plain;
    };
    let Some(slot) = arena.slot_of(place) else {
        return Role::Plain;
    };
    slot_role(arena.kind(owner), slot)
}

/// A block that is a function's body has no scope of its own.
fn kind_under(role: Role, kind: ScopeKind) -> ScopeKind
    ensures { result ≡ kind_under role kind }
{
    match kind {
        ScopeKind::NoScope => ScopeKind::NoScope,
        ScopeKind::Block => {
            if role.is_body() {
                return ScopeKind::NoScope;
            }
            ScopeKind::Lexical
        }
        ScopeKind::Lexical => ScopeKind::Lexical,
        ScopeKind::Var => ScopeKind::Var,
    }
}

/// Which scope a node has.
pub fn scope_kind_at(arena: &Arena, node: NodeId) -> ScopeKind
    requires { node < length arena.now.forest.nodes }
    ensures { result ≡ scope_kind_at arena.now.forest node }
{
    let kind = scope_kind(arena.kind(node));
    let Some(place) = arena.place_of(node) else {
        return kind_under(Role::Plain, kind);
    };
    kind_under(role_at(arena, place), kind)
}

pub fn is_filled(arena: &Arena, place: Option<PlaceId>) -> bool
    requires { IfSome place (λ p. p < length arena.now.forest.places) }
    ensures { result ≡ is_filled arena.now.forest place }
{
    match place {
        None => false,
        Some(place) => arena.node_at(place).is_some(),
    }
}

/// Whether the node is a function or class expression with a name.
pub fn is_named(arena: &Arena, node: NodeId) -> bool
    requires { node < length arena.now.forest.nodes }
    ensures { result ≡ is_named arena.now.forest node }
{
    if !slot_role(arena.kind(node), 0).is_own_name() {
        return false;
    }
    is_filled(arena, arena.slot_first(node, 0))
}

/// Whether the scalar is a truth that is true.
fn is_true(arena: &Arena, node: NodeId, index: u8) -> bool
    requires { node < length arena.now.forest.nodes }
    ensures { result ≡ truth_some arena.now node (Some index) }
{
    if (index as usize) >= scalar_count(arena.kind(node)) {
        return false;
    }
    match arena.scalar(node, index) {
        Scalar::Truth(truth) => *truth,
        _ => false,
    }
}

/// Whether the node's key is computed.
pub fn is_computed(arena: &Arena, node: NodeId) -> bool
    requires { node < length arena.now.forest.nodes }
    ensures { result ≡ is_computed arena.now node }
{
    match computed_scalar(arena.kind(node)) {
        None => false,
        Some(index) => is_true(arena, node, index),
    }
}

/// The first scalar of a node, where it is a text.
pub fn text_of(arena: &Arena, node: NodeId) -> Option<&Units>
    requires { node < length arena.now.forest.nodes }
    ensures { option_copied result ≡ text_of arena.now node }
{
    if scalar_count(arena.kind(node)) == 0 {
        return None;
    }
    match arena.scalar(node, 0) {
        Scalar::Text(text) => Some(text),
        _ => None,
    }
}

/// The name of the Identifier in a place.
pub fn name_at(arena: &Arena, place: PlaceId) -> Option<&Units>
    requires { place < length arena.now.forest.places }
    ensures { option_copied result ≡ name_at arena.now place }
{
    let Some(node) = arena.node_at(place) else {
        return None;
    };
    if arena.kind(node) != Kind::Identifier {
        return None;
    }
    text_of(arena, node)
}
