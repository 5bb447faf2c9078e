//! Methods of collections that take no function.

ghost use Rattle.std.specs.Prelude.{◌≤◌, ◌≡◌, ◌+◌, Ok, true, false, IfOk, OnOk};

use crate::arguments::{argument, number_of, type_of};
use host_fields::{Host, kind_at, node_at, place_value, push};
use node_arena::PlaceId;
use script_values::{CollectionId, Fault, Stop, Value, take};
use sqlite_items::Items;
use type_defs::is_a;

/// How many paths a collection has.
pub fn path_count(host: &Host, collection: CollectionId) -> Result<usize, Stop> {
    Ok(host.heap.paths(collection)?.len())
}

/// The path of this number of a collection.
pub fn path_at(host: &Host, collection: CollectionId, number: usize) -> Result<PlaceId, Stop> {
    match host.heap.paths(collection)?.get(number) {
        Some(place) => Ok(*place),
        None => Err(Stop::NoMemory),
    }
}

/// A new collection of paths that comes from another, or from none.
pub fn new_collection(
    host: &mut Host,
    paths: Vec<PlaceId>,
    from: Option<CollectionId>,
) -> Result<Value, Stop>
    ensures forest { host.new.arena ≡ host.old.arena }
{
    let first = match from {
        None => None,
        Some(from) => Some(first_collection(host, from)?),
    };
    let made = host.heap.collection(Items::from_vec(paths), from)?;
    let first = match first {
        None => made,
        Some(first) => first,
    };
    host.known.firsts.insert(made.number(), first)?;
    Ok(Value::Collection(made))
}

// The collection from which a collection comes by all its steps.
fn first_collection(host: &Host, collection: CollectionId) -> Result<CollectionId, Stop> {
    match host.known.firsts.get(&collection.number()) {
        Some(first) => Ok(*first),
        None => Err(Stop::NoMemory),
    }
}

// Takes a unit for each path of a collection.
fn take_paths(host: &Host, collection: CollectionId, fuel: &mut u64) -> Result<usize, Stop>
    ensures fuel { fuel.new ≤ fuel.old }
    ensures units { IfOk result (λ count. fuel.new + count ≡ fuel.old) }
{
    let count = path_count(host, collection)?;
    take(fuel, count as u64)?;
    Ok(count)
}

/// `size()`
pub fn size(host: &mut Host, on: CollectionId, fuel: &mut u64) -> Result<Value, Stop>
    ensures fuel { fuel.new ≤ fuel.old }
    ensures forest { host.new.arena ≡ host.old.arena }
{
    let count = take_paths(host, on, fuel)?;
    match i64::try_from(count) {
        Ok(count) => Ok(Value::Whole(count)),
        Err(_) => Err(Stop::NoMemory),
    }
}

// The number of the path that an index names, which counts from the end where it is negative.
fn path_number(count: usize, index: i64) -> Option<usize> {
    let far = usize::try_from(index.unsigned_abs()).ok()?;
    let number = if index < 0 {
        count.checked_sub(far)?
    } else {
        far
    };
    if number < count {
        return Some(number);
    }
    None
}

/// `at(index)`
pub fn at(
    host: &mut Host,
    on: CollectionId,
    arguments: &[Value],
    fuel: &mut u64,
) -> Result<Value, Stop>
    ensures fuel { fuel.new ≤ fuel.old }
    ensures forest { host.new.arena ≡ host.old.arena }
{
    let index = number_of(argument(arguments, 0))?;
    let count = take_paths(host, on, fuel)?;
    let mut paths = Vec::new(host.alloc);
    if let Some(number) = path_number(count, index) {
        let path = path_at(host, on, number)?;
        push(&mut paths, path)?;
    }
    new_collection(host, paths, Some(on))
}

/// `paths()`
pub fn paths(host: &mut Host, on: CollectionId, fuel: &mut u64) -> Result<Value, Stop>
    ensures fuel { fuel.new ≤ fuel.old }
    ensures forest { host.new.arena ≡ host.old.arena }
{
    let count = take_paths(host, on, fuel)?;
    let mut values = Vec::new(host.alloc);
    for number in 0..count {
        push(&mut values, Value::Path(path_at(host, on, number)?))?;
    }
    Ok(Value::List(host.heap.list(&values)?))
}

/// `nodes()`
pub fn nodes(host: &mut Host, on: CollectionId, fuel: &mut u64) -> Result<Value, Stop>
    ensures fuel { fuel.new ≤ fuel.old }
    ensures forest { host.new.arena ≡ host.old.arena }
{
    let count = take_paths(host, on, fuel)?;
    let mut values = Vec::new(host.alloc);
    for number in 0..count {
        let path = path_at(host, on, number)?;
        push(&mut values, place_value(&host.arena, path)?)?;
    }
    Ok(Value::List(host.heap.list(&values)?))
}

/// `isOfType(type)`
pub fn is_of_type(
    host: &mut Host,
    on: CollectionId,
    arguments: &[Value],
    fuel: &mut u64,
) -> Result<Value, Stop>
    ensures fuel { fuel.new ≤ fuel.old }
    ensures forest { host.new.arena ≡ host.old.arena }
{
    let named = type_of(argument(arguments, 0))?;
    let count = take_paths(host, on, fuel)?;
    for number in 0..count {
        let Some(node) = node_at(&host.arena, path_at(host, on, number)?)? else {
            return Ok(Value::Truth(false));
        };
        if !is_a(kind_at(&host.arena, node)?, named) {
            return Ok(Value::Truth(false));
        }
    }
    Ok(Value::Truth(count > 0))
}

// Whether a collection is the root path alone.
fn is_root(host: &Host, collection: CollectionId) -> Result<bool, Stop> {
    if path_count(host, collection)? != 1 {
        return Ok(false);
    }
    Ok(path_at(host, collection, 0)? == host.root)
}

/// `toSource()`: the print of the first collection, from which this one comes, which is the root
/// path alone; else Foreign. Prints count those before which a node changed.
pub fn to_source(host: &mut Host, on: CollectionId, fuel: &mut u64) -> Result<Value, Stop>
    ensures fuel { fuel.new ≤ fuel.old }
    ensures forest { host.new.arena ≡ host.old.arena }
    ensures printed { OnOk result (result ≡ Ok (Value.Printed host.new.prints)) }
    ensures settled { OnOk result (host.new.changed ≡ false) }
    ensures raised { OnOk result (host.old.changed ≡ true → host.new.prints ≡ host.old.prints + 1) }
    ensures kept { OnOk result (host.old.changed ≡ false → host.new.prints ≡ host.old.prints) }
{
    let first = first_collection(host, on)?;
    if !is_root(host, first)? {
        return Err(Stop::Fault(Fault::Foreign));
    }
    take_paths(host, on, fuel)?;
    if !host.changed {
        return Ok(Value::Printed(host.prints));
    }
    let Some(prints) = host.prints.checked_add(1) else {
        return Err(Stop::NoMemory);
    };
    host.prints = prints;
    host.changed = false;
    Ok(Value::Printed(prints))
}
