//! The bindings of a scope: its names in the order of their first declaration.

ghost use Rattle.std.specs.Prelude.{◌≡◌, ◌<◌, [], false, length, map, nat_eq, All, IfOk, OnOk};
ghost use Rattle.std.specs.Cmp.Lexicographic.{pointwise};
ghost use Rattle.std.specs.List.{list_any};
ghost use Rattle.scope_lookup.specs.Bindings.{add_at, bind, bind_all, bindings_of};

use crate::node_roles::name_at;
use crate::scope::{Binding, Bindings, Scope};
use crate::walk::declared;
use indexmap::IndexSet;
use node_arena::{Arena, PlaceId};
use sqlite_items::Items;
use std::alloc::{AllocError, Global};
use tree_core::Units;

/// A new name with its first place.
#[tactic(auto, using(crate::proofs::Bound::new_name, crate::proofs::Bound::new_names))]
fn add_name(
    alloc: Global,
    names: &mut IndexSet<Vec<u16>>,
    found: &mut Vec<Binding>,
    name: &[u16],
    place: PlaceId,
) -> Result<(), AllocError>
    requires known { map (λ key. key.items) names.old.keys ≡ map (λ b. b.name) found.old.items }
    requires absent { list_any (λ key. pointwise nat_eq name.now key.items) names.old.keys ≡ false }
    ensures names { OnOk result (map (λ key. key.items) names.new.keys ≡ map (λ b. b.name) found.new.items) }
    ensures found { OnOk result (found.new.items ≡ bind found.old.items name.now place) }
{
    names.insert(Vec::from_slice(alloc, name)?)?;
    let name = Units::new(Vec::from_slice(alloc, name)?);
    let places = Items::from_slice(alloc, &[place])?;
    found.push(Binding { name, places })?;
    Ok(())
}

/// One more place of the binding of this number.
fn add_place(found: &mut Vec<Binding>, index: usize, place: PlaceId) -> Result<(), AllocError>
    requires { index < length found.old.items }
    ensures { OnOk result (found.new.items ≡ add_at found.old.items index place) }
{
    found[index].places.push(place)?;
    Ok(())
}

/// One more declaration of a name. The set has the names of the bindings, in their order.
#[tactic(auto, using(crate::proofs::Bound::known_name, crate::proofs::Bound::known_names, crate::proofs::Bound::known_index))]
fn note(
    alloc: Global,
    names: &mut IndexSet<Vec<u16>>,
    found: &mut Vec<Binding>,
    name: &[u16],
    place: PlaceId,
) -> Result<(), AllocError>
    requires { map (λ key. key.items) names.old.keys ≡ map (λ b. b.name) found.old.items }
    ensures names { OnOk result (map (λ key. key.items) names.new.keys ≡ map (λ b. b.name) found.new.items) }
    ensures found { OnOk result (found.new.items ≡ bind found.old.items name.now place) }
{
    let Some(index) = names.get_index_of(name) else {
        return add_name(alloc, names, found, name, place);
    };
    add_place(found, index, place)?;
    Ok(())
}

/// The names of the Identifiers in these places, each with its places.
#[tactic(auto, using(crate::proofs::Bound::bound_next))]
fn grouped(alloc: Global, arena: &Arena, places: &[PlaceId]) -> Result<Vec<Binding>, AllocError>
    requires { All (λ p. p < length arena.now.forest.places) places.now }
    ensures { IfOk result (λ v. v.items ≡ bind_all arena.now [] places.now) }
{
    let mut names = IndexSet::new(alloc);
    let mut found = Vec::new(alloc);
    for place in places.iter().copied() {
        if let Some(name) = name_at(arena, place) {
            note(alloc, &mut names, &mut found, name.get(), place)?;
        }
    }
    Ok(found)
}

/// The names that a scope declares in the order of first declaration, each with its declaring
/// places in the order of the source. What is no scope, or is one no longer, declares none.
pub fn bindings(alloc: Global, arena: &Arena, scope: &Scope) -> Result<Bindings, AllocError>
    requires { scope.now.owner < length arena.now.forest.nodes }
    ensures { IfOk result (λ v. v ≡ bindings_of arena.now scope.now) }
{
    let places = declared(alloc, arena, scope)?;
    Ok(Items::from_vec(grouped(alloc, arena, &places)?))
}
