//! From a name to the scope and the place that declare it.

ghost use Rattle.std.specs.Prelude.{◌≡◌, ◌<◌, length, is_some, All, IfOk, IfSome};
ghost use Rattle.scope_lookup.specs.Resolve.{declaration, exports_own, find_from, first_named, is_name, is_reference, key_used, lookup_of, resolve_of};
ghost use Rattle.node_arena.specs.Reads.{owner_at};
ghost use Rattle.scope_lookup.specs.Scopings.{name_at as name_at_of};

use crate::climbing::{outer, scope_of};
use crate::node_roles::{is_computed, is_filled, name_at, role_at};
use crate::scope::Scope;
use crate::walk::declared;
use node_arena::{Arena, PlaceId};
use std::alloc::{AllocError, Global};
use tree_core::Units;

/// The slot of an export's source.
const SOURCE: u8 = 2;

/// Whether the Identifier in the place has this name.
fn has_name(arena: &Arena, place: PlaceId, name: &Units) -> bool
    requires { place < length arena.now.forest.places }
    ensures { result ≡ is_name name.now (name_at_of arena.now place) }
{
    match name_at(arena, place) {
        None => false,
        Some(own) => own.get() == name.get(),
    }
}

#[tactic(auto, using(crate::proofs::Names::first_here, crate::proofs::Names::first_later, crate::proofs::Names::first_none))]
/// The first of the places whose Identifier has this name.
fn first_named(arena: &Arena, places: &[PlaceId], name: &Units) -> Option<PlaceId>
    requires { All (λ p. p < length arena.now.forest.places) places.now }
    ensures first { result ≡ first_named arena.now name.now places.now }
    ensures within { IfSome result (λ p. p < length arena.now.forest.places) }
{
    for at in 0..places.len() {
        let place = places[at];
        if has_name(arena, place, name) {
            return Some(place);
        }
    }
    None
}

/// The first place that declares the name in the scope itself.
fn declaration(
    alloc: Global,
    arena: &Arena,
    scope: &Scope,
    name: &Units,
) -> Result<Option<PlaceId>, AllocError>
    requires { scope.now.owner < length arena.now.forest.nodes }
    ensures first { IfOk result (λ o. o ≡ declaration arena.now name.now scope.now) }
    ensures within { IfOk result (λ o. IfSome o (λ p. p < length arena.now.forest.places)) }
{
    let places = declared(alloc, arena, scope)?;
    Ok(first_named(arena, &places, name))
}

/// Whether the scope itself declares the name.
pub fn declares(
    alloc: Global,
    arena: &Arena,
    scope: &Scope,
    name: &Units,
) -> Result<bool, AllocError>
    requires { scope.now.owner < length arena.now.forest.nodes }
    ensures { IfOk result (λ b. b ≡ is_some (declaration arena.now name.now scope.now)) }
{
    Ok(declaration(alloc, arena, scope, name)?.is_some())
}

/// A scope, and the place in it that declares a name.
#[derive(Clone, Copy, Debug)]
struct Found {
    scope: Scope,
    place: PlaceId,
}

#[tactic(auto, using(crate::proofs::Names::find_here, crate::proofs::Names::find_outside, crate::proofs::Names::find_nowhere, crate::proofs::Names::find_end))]
/// The first scope from this one outwards that declares the name, and the first place there.
fn find(
    alloc: Global,
    arena: &Arena,
    scope: &Scope,
    name: &Units,
) -> Result<Option<Found>, AllocError>
    requires { scope.now.owner < length arena.now.forest.nodes }
    ensures found { IfOk result (λ o. o ≡ find_from arena.now name.now scope.now) }
    ensures within { IfOk result (λ o. IfSome o (λ f. (f.scope.owner < length arena.now.forest.nodes) × (f.place < length arena.now.forest.places))) }
{
    let mut asked = *scope;
    // a node has at most two scopes
    for _turn in 0..2 * arena.nodes() {
        if let Some(place) = declaration(alloc, arena, &asked, name)? {
            return Ok(Some(Found {
                scope: asked,
                place,
            }));
        }
        match outer(arena, &asked) {
            None => return Ok(None),
            Some(next) => asked = next,
        }
    }
    Ok(None)
}

/// The first scope that declares the name, from this one outwards.
pub fn lookup(
    alloc: Global,
    arena: &Arena,
    scope: &Scope,
    name: &Units,
) -> Result<Option<Scope>, AllocError>
    requires { scope.now.owner < length arena.now.forest.nodes }
    ensures value { IfOk result (λ o. o ≡ lookup_of arena.now scope.now name.now) }
    ensures within { IfOk result (λ o. IfSome o (λ s. s.owner < length arena.now.forest.nodes)) }
{
    match find(alloc, arena, scope, name)? {
        None => Ok(None),
        Some(found) => Ok(Some(found.scope)),
    }
}

/// Whether the place of an export specifier is in an export without a source.
fn exports_own(arena: &Arena, place: PlaceId) -> bool
    requires { place < length arena.now.forest.places }
    ensures { result ≡ exports_own arena.now.forest place }
{
    let Some(specifier) = arena.owner(place) else {
        return false;
    };
    let Some(listed) = arena.place_of(specifier) else {
        return true;
    };
    let Some(export) = arena.owner(listed) else {
        return true;
    };
    !is_filled(arena, arena.slot_first(export, SOURCE))
}

/// Whether the place of a key is computed.
fn is_computed_key(arena: &Arena, place: PlaceId) -> bool
    requires { place < length arena.now.forest.places }
    ensures { result ≡ key_used arena.now (owner_at arena.now.forest place) }
{
    match arena.owner(place) {
        None => false,
        Some(owner) => is_computed(arena, owner),
    }
}

/// Whether an Identifier in the place is looked up: an expression, a target, a declaration, or what
/// an export without source exports.
fn is_reference(arena: &Arena, place: PlaceId) -> bool
    requires { place < length arena.now.forest.places }
    ensures { result ≡ is_reference arena.now place }
{
    let role = role_at(arena, place);
    if role.is_exported() {
        return exports_own(arena, place);
    }
    if role.is_key() {
        return is_computed_key(arena, place);
    }
    !role.is_word()
}

/// The first declaring place of the Identifier in a place, in the nearest scope that declares its
/// name. None for a name that is not looked up, and where no scope declares it.
pub fn resolve(alloc: Global, arena: &Arena, place: PlaceId) -> Result<Option<PlaceId>, AllocError>
    requires { place < length arena.now.forest.places }
    ensures value { IfOk result (λ o. o ≡ resolve_of arena.now place) }
    ensures within { IfOk result (λ o. IfSome o (λ p. p < length arena.now.forest.places)) }
{
    let Some(name) = name_at(arena, place) else {
        return Ok(None);
    };
    if !is_reference(arena, place) {
        return Ok(None);
    }
    let Some(scope) = scope_of(arena, place) else {
        return Ok(None);
    };
    match find(alloc, arena, &scope, name)? {
        None => Ok(None),
        Some(found) => Ok(Some(found.place)),
    }
}
