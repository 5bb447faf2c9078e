//! Places without doubles.

ghost use Rattle.std.specs.Prelude.{◌≡◌, ◌<◌, length, nat_eq, All, OnOk};
ghost use Rattle.indexmap.specs.IndexSet.{insert_all, insert_key};

use indexmap::IndexSet;
use node_arena::PlaceId;
use std::alloc::AllocError;

/// One more place, if it is not among those seen.
fn add(seen: &mut IndexSet<u32>, kept: &mut Vec<PlaceId>, place: PlaceId) -> Result<(), AllocError>
    requires { kept.old.items ≡ seen.old.keys }
    ensures same { OnOk result (kept.new.items ≡ seen.new.keys) }
    ensures added { OnOk result (kept.new.items ≡ insert_key nat_eq kept.old.items place) }
{
    let (_, new) = seen.insert_full(place.number())?;
    if new {
        kept.push(place)?;
    }
    Ok(())
}

#[tactic(auto, using(crate::proofs::Inserted::added_one))]
/// More places, each that is not among those seen, in their order.
pub fn add_all(
    seen: &mut IndexSet<u32>,
    kept: &mut Vec<PlaceId>,
    places: &[PlaceId],
) -> Result<(), AllocError>
    requires { kept.old.items ≡ seen.old.keys }
    ensures same { OnOk result (kept.new.items ≡ seen.new.keys) }
    ensures added { OnOk result (kept.new.items ≡ insert_all nat_eq kept.old.items places.now) }
{
    for place in places.iter().copied() {
        add(seen, kept, place)?;
    }
    Ok(())
}
