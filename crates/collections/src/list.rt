//! Lists of places.

ghost use Rattle.std.specs.Prelude.{◌≡◌, ◌<◌, length, IfOk, IfSome};
ghost use Rattle.collections.specs.Found.{at_of, item_in};

use node_arena::PlaceId;
use sqlite_items::Items;
use std::alloc::{AllocError, Global};

/// Places in order.
pub type Paths = Items<PlaceId>;

/// The most items of a list.
pub const MAX_ITEMS: usize = 1000000;

/// The index of the item that an index names, which counts from the end where it is negative.
fn item_at(len: usize, index: i64) -> Option<usize>
    ensures value { result ≡ item_in len index }
    ensures within { IfSome result (λ i. i < len) }
{
    if index >= 0 {
        let from_start = index as u64;
        if from_start < len as u64 {
            return Some(from_start as usize);
        }
        return None;
    }
    let from_end = index.unsigned_abs();
    if from_end <= len as u64 {
        return Some(len - from_end as usize);
    }
    None
}

/// The place of an index alone, which counts from the end where it is negative; no place where the
/// list has none there.
pub fn at(alloc: Global, paths: &Paths, index: i64) -> Result<Paths, AllocError>
    ensures { IfOk result (λ v. v ≡ at_of paths.now index) }
{
    let paths = paths.as_slice();
    let mut found = Items::new(alloc);
    if let Some(item) = item_at(paths.len(), index) {
        found.push(paths[item])?;
    }
    Ok(found)
}
