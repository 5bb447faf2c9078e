//! Whether a node matches a filter object, and how many nodes below it are asked for that.

ghost use Rattle.std.specs.Prelude.{◌≤◌, ◌≡◌};

use crate::filters::MAX_FILTER_LEVELS;
use host_fields::{Host, Read, first_of, next_of, node_at, read_field, read_value, scalar_of};
use node_arena::{NodeId, PlaceId};
use script_values::{ListId, ObjectId, Stop, TextId, Value, take};
use tree_core::Scalar;

/// Whether what was tried fits, and how many nodes were asked for their fields.
#[derive(Clone, Copy, Debug, PartialEq, Eq)]
struct Trial {
    fits: bool,
    visits: u64,
}

fn told(fits: bool) -> Trial {
    Trial { fits, visits: 0 }
}

// Whether a text is the scalar of a node.
fn is_scalar_text(host: &mut Host, node: NodeId, index: u8, text: TextId) -> Result<bool, Stop>
    ensures forest { host.new.arena ≡ host.old.arena }
{
    let Scalar::Text(own) = scalar_of(&host.arena, node, index)? else {
        return Ok(false);
    };
    let own = own.get();
    if host.heap.length(text)? as usize != own.len() {
        return Ok(false);
    }
    host.heap.flatten(text)?;
    Ok(host.heap.units(text)? == own)
}

// Whether a field that is a text is this one.
fn is_text(host: &mut Host, node: NodeId, read: Read, text: TextId) -> Result<bool, Stop>
    ensures forest { host.new.arena ≡ host.old.arena }
{
    match read {
        Read::Text(index) => is_scalar_text(host, node, index, text),
        Read::Bigint | Read::Type => match read_value(host, node, read)? {
            Value::Text(own) => host.heap.same_text(own, text),
            _ => Ok(false),
        },
        _ => Ok(false),
    }
}

fn fits_plain(host: &mut Host, node: NodeId, read: Read, pattern: Value) -> Result<bool, Stop>
    ensures forest { host.new.arena ≡ host.old.arena }
{
    match pattern {
        Value::Text(text) => is_text(host, node, read, text),
        Value::Whole(number) => Ok(read == Read::Whole(number)),
        Value::Truth(truth) => Ok(read == Read::Truth(truth)),
        Value::Null => Ok(read == Read::Null),
        _ => Ok(false),
    }
}

// The item of this number of a list in the heap.
fn item_at(host: &Host, list: ListId, number: usize) -> Result<Value, Stop> {
    let items = host.heap.items(list)?;
    if number >= items.len() {
        return Err(Stop::NoMemory);
    }
    Ok(items[number])
}

// Whether the list from a place on has so many places.
fn is_long(host: &Host, first: Option<PlaceId>, count: usize) -> Result<bool, Stop> {
    let mut at = first;
    for _item in 0..count {
        let Some(place) = at else {
            return Ok(false);
        };
        at = next_of(&host.arena, place)?;
    }
    Ok(true)
}

// What stands in a place, as a field reads it.
fn place_read(host: &Host, place: PlaceId) -> Result<Read, Stop> {
    match node_at(&host.arena, place)? {
        None => Ok(Read::Null),
        Some(node) => Ok(Read::Node(node)),
    }
}

#[cycle(matching)]
fn try_fields(host: &mut Host, node: NodeId, object: ObjectId, left: u8) -> Result<Trial, Stop>
    ensures forest { host.new.arena ≡ host.old.arena }
{
    let mut visits = 0u64;
    for number in 0..host.heap.object_length(object)? {
        let Some((word, pattern)) = host.heap.entry(object, number)? else {
            return Err(Stop::NoMemory);
        };
        let read = read_field(host, node, word)?;
        let trial = try_read(host, node, read, pattern, left)?;
        visits = visits.saturating_add(trial.visits);
        if !trial.fits {
            return Ok(Trial {
                fits: false,
                visits,
            });
        }
    }
    Ok(Trial { fits: true, visits })
}

#[cycle(matching)]
fn try_places(
    host: &mut Host,
    node: NodeId,
    first: Option<PlaceId>,
    list: ListId,
    left: u8,
) -> Result<Trial, Stop>
    ensures forest { host.new.arena ≡ host.old.arena }
{
    let count = host.heap.items(list)?.len();
    if !is_long(host, first, count)? {
        return Ok(told(false));
    }
    let mut at = first;
    let mut visits = 0u64;
    for number in 0..count {
        let Some(place) = at else {
            return Ok(told(false));
        };
        let pattern = item_at(host, list, number)?;
        let read = place_read(host, place)?;
        let trial = try_read(host, node, read, pattern, left)?;
        visits = visits.saturating_add(trial.visits);
        if !trial.fits {
            return Ok(Trial {
                fits: false,
                visits,
            });
        }
        at = next_of(&host.arena, place)?;
    }
    Ok(Trial { fits: true, visits })
}

// A list pattern on what is a list; the items of a list of comments are objects, which no pattern
// fits.
#[cycle(matching)]
fn try_list(
    host: &mut Host,
    node: NodeId,
    read: Read,
    list: ListId,
    left: u8,
) -> Result<Trial, Stop>
    ensures forest { host.new.arena ≡ host.old.arena }
{
    match read {
        Read::List(slot) => {
            let first = first_of(&host.arena, node, slot)?;
            try_places(host, node, first, list, left)
        }
        Read::Comments => Ok(told(host.heap.items(list)?.is_empty())),
        _ => Ok(told(false)),
    }
}

// A part of a filter on what a field of the node reads as. An object asks a node below, which is
// visited.
#[cycle(matching)]
fn try_read(
    host: &mut Host,
    node: NodeId,
    read: Read,
    pattern: Value,
    left: u8,
) -> Result<Trial, Stop>
    ensures forest { host.new.arena ≡ host.old.arena }
{
    match pattern {
        Value::Object(object) => {
            let Read::Node(child) = read else {
                return Ok(told(false));
            };
            if left == 0 {
                return Err(Stop::NoMemory);
            }
            let trial = try_fields(host, child, object, left - 1)?;
            Ok(Trial {
                fits: trial.fits,
                visits: trial.visits.saturating_add(1),
            })
        }
        Value::List(list) => {
            if left == 0 {
                return Err(Stop::NoMemory);
            }
            try_list(host, node, read, list, left - 1)
        }
        _ => Ok(told(fits_plain(host, node, read, pattern)?)),
    }
}

/// Whether a node has the fields of a filter object that was tested. A unit is taken for each node
/// below that was asked, up to the first field that does not fit.
pub fn fits_object(
    host: &mut Host,
    node: NodeId,
    object: ObjectId,
    fuel: &mut u64,
) -> Result<bool, Stop>
    ensures fuel { fuel.new ≤ fuel.old }
    ensures forest { host.new.arena ≡ host.old.arena }
{
    let trial = try_fields(host, node, object, MAX_FILTER_LEVELS)?;
    take(fuel, trial.visits)?;
    Ok(trial.fits)
}
