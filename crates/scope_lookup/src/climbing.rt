//! From a place up to the scope around it.

ghost use Rattle.std.specs.Prelude.{◌≡◌, ◌<◌, length, IfSome};
ghost use Rattle.scope_lookup.specs.Climbs.{above, around, class_of, climb_from, inside, is_global, outer_of, owner_of, scope_at};
ghost use Rattle.scope_lookup.specs.Places.{AroundIn, is_scope};

use crate::node_roles::{is_computed, is_named, role_at, scope_kind_at};
use crate::scope::Scope;
use node_arena::{Arena, NodeId, PlaceId};
use type_defs::Kind;

/// Whether the node has a scope: a program, a function, a block that is no function's body, a `for`
/// statement, a `switch`, a catch clause, a static block, or a named class expression.
pub fn is_scope(arena: &Arena, node: NodeId) -> bool
    requires { node < length arena.now.forest.nodes }
    ensures { result ≡ is_scope arena.now.forest node }
{
    if scope_kind_at(arena, node).is_scope() {
        return true;
    }
    is_named(arena, node)
}

/// Whether the scope is a program's.
pub fn is_global(arena: &Arena, scope: &Scope) -> bool
    requires { scope.now.owner < length arena.now.forest.nodes }
    ensures { result ≡ is_global arena.now.forest scope.now }
{
    !scope.name && arena.kind(scope.owner) == Kind::Program
}

/// What a place belongs to, as far as its owner tells.
#[derive(Clone, Copy, Debug)]
enum Around {
    Inside(Scope),
    /// The scope that this place belongs to.
    Above(PlaceId),
    Nowhere,
}

/// Where the scope around a node is found.
fn above(arena: &Arena, node: Option<NodeId>) -> Around
    requires { IfSome node (λ j. j < length arena.now.forest.nodes) }
    ensures value { result ≡ above arena.now.forest node }
    ensures within { AroundIn arena.now.forest result }
{
    let Some(node) = node else {
        return Around::Nowhere;
    };
    match arena.place_of(node) {
        None => Around::Nowhere,
        Some(place) => Around::Above(place),
    }
}

/// The owner of the place where a node stands.
fn owner_of(arena: &Arena, node: NodeId) -> Option<NodeId>
    requires { node < length arena.now.forest.nodes }
    ensures value { result ≡ owner_of arena.now.forest node }
    ensures within { IfSome result (λ j. j < length arena.now.forest.nodes) }
{
    match arena.place_of(node) {
        None => None,
        Some(place) => arena.owner(place),
    }
}

/// The class of a member, and the member itself where it is in no class body.
fn class_of(arena: &Arena, member: NodeId) -> Option<NodeId>
    requires { member < length arena.now.forest.nodes }
    ensures value { result ≡ class_of arena.now.forest member }
    ensures within { IfSome result (λ j. j < length arena.now.forest.nodes) }
{
    let Some(body) = owner_of(arena, member) else {
        return Some(member);
    };
    if arena.kind(body) != Kind::ClassBody {
        return Some(member);
    }
    owner_of(arena, body)
}

/// What a place that is no place of a name belongs to.
fn inside(arena: &Arena, owner: NodeId) -> Around
    requires { owner < length arena.now.forest.nodes }
    ensures value { result ≡ inside arena.now.forest owner }
    ensures within { AroundIn arena.now.forest result }
{
    if scope_kind_at(arena, owner).is_scope() {
        return Around::Inside(Scope { owner, name: false });
    }
    if is_named(arena, owner) {
        return Around::Inside(Scope { owner, name: true });
    }
    above(arena, Some(owner))
}

fn place_around(arena: &Arena, place: PlaceId) -> Around
    requires { place < length arena.now.forest.places }
    ensures value { result ≡ around arena.now place }
    ensures within { AroundIn arena.now.forest result }
{
    let Some(owner) = arena.owner(place) else {
        return Around::Nowhere;
    };
    let role = role_at(arena, place);
    if role.is_declared() || role.is_outside() {
        return above(arena, Some(owner));
    }
    if role.is_own_name() && is_named(arena, owner) {
        return Around::Inside(Scope { owner, name: true });
    }
    if role.is_key() && is_computed(arena, owner) {
        return above(arena, class_of(arena, owner));
    }
    inside(arena, owner)
}

/// The scope around a place that a node has.
#[tactic(auto, using(crate::proofs::Climbs::climb_inside, crate::proofs::Climbs::climb_nowhere, crate::proofs::Climbs::climb_above, crate::proofs::Climbs::climb_end))]
fn climb(arena: &Arena, place: PlaceId) -> Option<Scope>
    requires { place < length arena.now.forest.places }
    ensures value { result ≡ climb_from arena.now place }
    ensures within { IfSome result (λ s. s.owner < length arena.now.forest.nodes) }
{
    let mut at = place;
    for _turn in 0..arena.nodes() + 1 {
        match place_around(arena, at) {
            Around::Inside(scope) => return Some(scope),
            Around::Above(place) => at = place,
            Around::Nowhere => return None,
        }
    }
    None
}

/// The scope to which a place belongs. The root place belongs to the Program in it. The name of a
/// declaration, a computed key and the `extends` of a class belong outside.
pub fn scope_of(arena: &Arena, place: PlaceId) -> Option<Scope>
    requires { place < length arena.now.forest.places }
    ensures value { result ≡ scope_at arena.now place }
    ensures within { IfSome result (λ s. s.owner < length arena.now.forest.nodes) }
{
    if place.number() != arena.root().number() {
        return climb(arena, place);
    }
    let Some(owner) = arena.node_at(place) else {
        return None;
    };
    if arena.kind(owner) != Kind::Program {
        return None;
    }
    Some(Scope { owner, name: false })
}

/// The next outer scope, `None` exactly where there is none. A named function expression's scope
/// lies in that of its name.
pub fn outer(arena: &Arena, scope: &Scope) -> Option<Scope>
    requires { scope.now.owner < length arena.now.forest.nodes }
    ensures value { result ≡ outer_of arena.now scope.now }
    ensures within { IfSome result (λ s. s.owner < length arena.now.forest.nodes) }
{
    let owner = scope.owner;
    if !scope.name && scope_kind_at(arena, owner).is_scope() && is_named(arena, owner) {
        return Some(Scope { owner, name: true });
    }
    match arena.place_of(owner) {
        None => None,
        Some(place) => climb(arena, place),
    }
}
