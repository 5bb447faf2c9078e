//! The list in a slot of a node, read by index. A place of it is remembered, so that a loop over
//! the list goes from each place to the next; any other index costs steps by its distance from the
//! remembered place or from the first.

ghost use Rattle.std.specs.Prelude.{◌≡◌};

use crate::door::{first_of, next_of, node_at, prev_of};
use crate::host::{Host, push};
use indexmap::IndexMap;
use node_arena::{Arena, NodeId, PlaceId};
use script_values::{Stop, Value};

/// A list by its node and slot.
#[derive(Clone, Copy, Debug, PartialEq, Eq, Hash)]
pub struct ListKey {
    pub node: u32,
    pub slot: u8,
}

/// A place of a list with its index, and the list's length where it was counted.
#[derive(Clone, Copy, Debug)]
pub struct ListMemo {
    pub index: u32,
    pub place: PlaceId,
    pub length: Option<u32>,
}

/// What is remembered of lists.
pub type ListMemos = IndexMap<ListKey, ListMemo>;

/// The key of a list.
pub fn list_key(node: NodeId, slot: u8) -> ListKey {
    ListKey {
        node: node.number(),
        slot,
    }
}

fn memo_of(memos: &ListMemos, node: NodeId, slot: u8) -> Option<ListMemo> {
    memos.get(&list_key(node, slot)).copied()
}

/// Remembers a place of a list.
pub fn remember_place(
    memos: &mut ListMemos,
    node: NodeId,
    slot: u8,
    memo: ListMemo,
) -> Result<(), Stop> {
    memos.insert(list_key(node, slot), memo)?;
    Ok(())
}

/// Forgets what is remembered of a list.
pub fn forget_list(memos: &mut ListMemos, node: NodeId, slot: u8) {
    let _gone = memos.swap_remove(&list_key(node, slot));
}

/// Where a walk along a list came, and how many steps it could not go.
#[derive(Clone, Copy, Debug)]
struct Reached {
    place: PlaceId,
    left: u32,
}

fn forward(arena: &Arena, from: PlaceId, steps: u32) -> Result<Reached, Stop> {
    let mut place = from;
    for turn in 0..steps {
        match next_of(arena, place)? {
            Some(next) => place = next,
            None => {
                let left = steps - turn;
                return Ok(Reached { place, left });
            }
        }
    }
    Ok(Reached { place, left: 0 })
}

fn backward(arena: &Arena, from: PlaceId, steps: u32) -> Result<PlaceId, Stop> {
    let mut place = from;
    for _turn in 0..steps {
        match prev_of(arena, place)? {
            Some(before) => place = before,
            None => return Ok(place),
        }
    }
    Ok(place)
}

// Where the walk to an index begins: at the remembered place, or at the first.
fn start_for(
    arena: &Arena,
    memos: &ListMemos,
    node: NodeId,
    slot: u8,
    index: u32,
) -> Result<Option<ListMemo>, Stop> {
    if let Some(memo) = memo_of(memos, node, slot) {
        if memo.index <= index {
            return Ok(Some(memo));
        }
        let back = memo.index - index;
        if back <= index {
            let place = backward(arena, memo.place, back)?;
            return Ok(Some(ListMemo {
                index,
                place,
                length: memo.length,
            }));
        }
    }
    let length = match memo_of(memos, node, slot) {
        Some(memo) => memo.length,
        None => None,
    };
    match first_of(arena, node, slot)? {
        None => Ok(None),
        Some(place) => Ok(Some(ListMemo {
            index: 0,
            place,
            length,
        })),
    }
}

/// The place of an index in a list; none where the list is not longer than the index.
pub fn list_place(
    arena: &Arena,
    memos: &mut ListMemos,
    node: NodeId,
    slot: u8,
    index: u32,
) -> Result<Option<PlaceId>, Stop> {
    let Some(start) = start_for(arena, memos, node, slot, index)? else {
        return Ok(None);
    };
    if let Some(length) = start.length {
        if index >= length {
            return Ok(None);
        }
    }
    let reached = forward(arena, start.place, index.saturating_sub(start.index))?;
    let index = index.saturating_sub(reached.left);
    let length = if reached.left > 0 {
        Some(index.saturating_add(1))
    } else {
        start.length
    };
    let memo = ListMemo {
        index,
        place: reached.place,
        length,
    };
    remember_place(memos, node, slot, memo)?;
    if reached.left > 0 {
        return Ok(None);
    }
    Ok(Some(reached.place))
}

/// How long a list is. It is counted once, until the list changes.
pub fn list_length(
    arena: &Arena,
    memos: &mut ListMemos,
    node: NodeId,
    slot: u8,
) -> Result<u32, Stop> {
    if let Some(memo) = memo_of(memos, node, slot) {
        if let Some(length) = memo.length {
            return Ok(length);
        }
    }
    let Some(start) = start_for(arena, memos, node, slot, arena.places())? else {
        return Ok(0);
    };
    let reached = forward(arena, start.place, arena.places())?;
    let steps = arena.places().saturating_sub(reached.left);
    let length = start.index.saturating_add(steps).saturating_add(1);
    let memo = ListMemo {
        length: Some(length),
        ..start
    };
    remember_place(memos, node, slot, memo)?;
    Ok(length)
}

/// What stands in a place, as a value.
pub fn place_value(arena: &Arena, place: PlaceId) -> Result<Value, Stop> {
    match node_at(arena, place)? {
        None => Ok(Value::Null),
        Some(node) => Ok(Value::Node(node)),
    }
}

/// What stands at an index of a list; undefined outside it.
pub fn list_item(host: &mut Host, node: NodeId, slot: u8, index: i64) -> Result<Value, Stop>
    ensures forest { host.new.arena ≡ host.old.arena }
{
    let Ok(index) = u32::try_from(index) else {
        return Ok(Value::Undefined);
    };
    match list_place(&host.arena, &mut host.known.lists, node, slot, index)? {
        None => Ok(Value::Undefined),
        Some(place) => place_value(&host.arena, place),
    }
}

/// The items that a list has now, in order: nodes, and null for a hole.
pub fn list_items(host: &Host, node: NodeId, slot: u8) -> Result<Vec<Value>, Stop> {
    let mut items = Vec::new(host.alloc);
    let mut at = first_of(&host.arena, node, slot)?;
    for _turn in 0..host.arena.places() {
        let Some(place) = at else {
            return Ok(items);
        };
        push(&mut items, place_value(&host.arena, place)?)?;
        at = next_of(&host.arena, place)?;
    }
    Ok(items)
}
