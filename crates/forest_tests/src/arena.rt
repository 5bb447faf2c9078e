//! Copies in a small arena.

ghost use Rattle.std.specs.Prelude.{◌≡◌, ◌<◌};

use node_arena::{Arena, ArenaFault, Steps};
use std::alloc::Global;
use std::marker::Brand;
use std::sync::ledger::{Blank, Ledger};
use type_defs::Kind;

// An identifier in an expression statement in a list of a block, and a copy of the block: its
// number, how many nodes and places there are then, and how much the copy is.
fn copied<L: Ledger>(alloc: Global, blank: Blank) -> Result<[u32; 5], ArenaFault>
    requires name { blank.name ≡ L.name }
    requires parts { blank.parts ≡ L.parts }
    requires some { 0 < blank.parts }
{
    let mut steps = Steps::<L>::new(blank);
    let mut arena = Arena::new(alloc)?;
    let statement = arena.make(Kind::ExpressionStatement)?;
    let name = arena.make(Kind::Identifier)?;
    if let Some(place) = arena.slot_first(statement, 0) {
        if arena.may_go(name, place) {
            arena.put(place, name, &mut steps);
        }
    }
    let copy = arena.copy(statement)?;
    let size = arena.size(copy);
    Ok([
        copy.number(),
        arena.nodes(),
        arena.places(),
        size.nodes,
        size.places,
    ])
}

#[test]
fn copies_with_new_numbers(rt: HostRuntime) {
    match copied::<Brand>(rt.alloc(), Blank::new(1)) {
        Ok(found) => assert_eq!(rt; found, [2, 4, 3, 2, 1]),
        Err(_) => assert!(rt; false),
    }
}
