//! Taking what stands in a place away, with what is nothing without it.

ghost use Rattle.std.specs.Prelude.{◌≡◌, ◌<◌, ◌≤◌, ◌+◌, ◌↔◌, Ok, Err, length, IfSome, OnOk, OnErr};
ghost use Rattle.node_arena.specs.Reads.{state_at};
ghost use Rattle.node_arena.specs.Store.{changed};
ghost use Rattle.node_arena.specs.declared.state.PlaceState.TheVariants.{Out};
ghost use Rattle.ast_paths.specs.Paths.{is_bare, is_empty, prune_of, take_out_of, take_owner_of};

use crate::fault::PathFault;
use node_arena::{Arena, NodeId, PlaceId, PlaceState, Steps};
use std::marker::Brand;
use std::sync::ledger::{Blank, Ledger};
use type_defs::Kind;

/// Takes a place out of its list with what stands there, and empties a place that is in no list.
#[tactic(auto, using(crate::proofs::Joining::unlisted))]
fn take_out<L: Ledger>(
    arena: &mut Arena,
    place: PlaceId,
    steps: &mut Steps<L>,
) -> Result<(), PathFault>
    requires at { place < length arena.old.forest.places }
    ensures ok { OnOk result (arena.new ≡ changed arena.old (take_out_of arena.old.forest place)) }
    ensures err { OnErr result (arena.new ≡ arena.old) }
    ensures listed { result ≡ Err PathFault.NotInList ↔ state_at arena.old.forest place ≡ Out }
    ensures refused { OnErr result (result ≡ Err PathFault.NotInList) }
    ensures steps { steps.new ≤ steps.old + 7 }
{
    match arena.state(place) {
        PlaceState::Out => Err(PathFault::NotInList),
        PlaceState::Listed => match arena.unlink(place, steps) {
            Ok(_) => Ok(()),
            Err(_) => Err(PathFault::NotInList),
        },
        PlaceState::Root | PlaceState::Single => {
            let _gone = arena.clear(place, steps);
            Ok(())
        }
    }
}

/// Whether no node stands in the place, or there is no place.
fn is_empty(arena: &Arena, place: Option<PlaceId>) -> bool
    requires { IfSome place (λ p. p < length arena.now.forest.places) }
    ensures { result ≡ is_empty arena.now.forest place }
{
    match place {
        None => true,
        Some(place) => match arena.node_at(place) {
            None => true,
            Some(_) => false,
        },
    }
}

/// Whether the node is an expression statement without its expression, or a declaration without
/// declarators.
fn is_bare(arena: &Arena, node: NodeId) -> bool
    requires { node < length arena.now.forest.nodes }
    ensures { result ≡ is_bare arena.now.forest node }
{
    let first = arena.slot_first(node, 0);
    match arena.kind(node) {
        Kind::ExpressionStatement => is_empty(arena, first),
        Kind::VariableDeclaration => first.is_none(),
        _ => false,
    }
}

/// A node that is nothing without what was taken from it goes too.
fn take_owner<L: Ledger>(arena: &mut Arena, owner: NodeId, steps: &mut Steps<L>)
    requires at { owner < length arena.old.forest.nodes }
    ensures after { arena.new ≡ changed arena.old (take_owner_of arena.old.forest owner) }
    ensures steps { steps.new ≤ steps.old + 7 }
{
    if !is_bare(arena, owner) {
        return;
    }
    let Some(place) = arena.place_of(owner) else {
        return;
    };
    match take_out(arena, place, steps) {
        Ok(()) => {}
        Err(_) => {}
    }
}

/// Takes what stands in a place away, counting steps.
fn prune_counting<L: Ledger>(
    arena: &mut Arena,
    place: PlaceId,
    blank: Blank,
) -> Result<(), PathFault>
    requires name { blank.name ≡ L.name }
    requires parts { blank.parts ≡ L.parts }
    requires some { 0 < blank.parts }
    requires at { place < length arena.old.forest.places }
    ensures ok { OnOk result (arena.new ≡ changed arena.old (prune_of arena.old.forest place)) }
    ensures err { OnErr result (arena.new ≡ arena.old) }
    ensures listed { result ≡ Err PathFault.NotInList ↔ state_at arena.old.forest place ≡ Out }
    ensures refused { OnErr result (result ≡ Err PathFault.NotInList) }
{
    let mut steps = Steps::<L>::new(blank);
    prune_with(arena, place, &mut steps)
}

/// Takes what stands in a place away, and then its owner where that is nothing without it.
#[tactic(auto, using(crate::proofs::Sizes::nodes_taken))]
pub(crate) fn prune_with<L: Ledger>(
    arena: &mut Arena,
    place: PlaceId,
    steps: &mut Steps<L>,
) -> Result<(), PathFault>
    requires at { place < length arena.old.forest.places }
    ensures ok { OnOk result (arena.new ≡ changed arena.old (prune_of arena.old.forest place)) }
    ensures err { OnErr result (arena.new ≡ arena.old) }
    ensures listed { result ≡ Err PathFault.NotInList ↔ state_at arena.old.forest place ≡ Out }
    ensures refused { OnErr result (result ≡ Err PathFault.NotInList) }
    ensures steps { steps.new ≤ steps.old + 14 }
{
    let owner = arena.owner(place);
    take_out(arena, place, steps)?;
    let Some(owner) = owner else {
        return Ok(());
    };
    take_owner(arena, owner, steps);
    Ok(())
}

/// Takes a place out of its list with what stands there, or empties it where it is in no list. Then
/// the owner goes too, once, where it is an expression statement without its expression or a
/// declaration without declarators. It takes no memory.
pub fn prune(arena: &mut Arena, place: PlaceId) -> Result<(), PathFault>
    requires at { place < length arena.old.forest.places }
    ensures ok { OnOk result (arena.new ≡ changed arena.old (prune_of arena.old.forest place)) }
    ensures err { OnErr result (arena.new ≡ arena.old) }
    ensures listed { result ≡ Err PathFault.NotInList ↔ state_at arena.old.forest place ≡ Out }
    ensures refused { OnErr result (result ≡ Err PathFault.NotInList) }
{
    prune_counting::<Brand>(arena, place, Blank::new(1))
}
