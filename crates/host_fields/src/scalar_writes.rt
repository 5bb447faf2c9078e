//! Setting the scalars of nodes: a scalar takes what its kind's builder takes there.

ghost use Rattle.std.specs.Prelude.{◌≡◌, ◌≤◌, length, true, OnOk};

use crate::door::known_node;
use crate::host::Host;
use crate::literals::{FLAGS, SORT, VALUE};
use crate::objects::copied_text;
use crate::scalars::forget_text;
use node_arena::{Arena, NodeId};
use node_builders::{Takes, field_takes};
use script_values::{Fault, Stop, Value};
use std::alloc::Global;
use tree_core::{Scalar, Units};
use type_defs::{Kind, scalar_count};

const NOT_TAKEN: Stop = Stop::Fault(Fault::BuilderType);

fn takes_text(takes: Takes) -> bool {
    matches!(
        takes,
        Takes::Text | Takes::MaybeText | Takes::Sort | Takes::Value
    )
}

fn digits(alloc: Global, number: i64) -> Result<Units, Stop> {
    let text = number.to_string(alloc)?;
    Ok(Units::of_bytes(alloc, text.as_bytes())?)
}

// The scalar that a value is, where the field takes it.
fn taken(host: &mut Host, takes: Takes, to: Value) -> Result<Scalar, Stop>
    ensures forest { host.new.arena ≡ host.old.arena }
{
    match to {
        Value::Text(text) => {
            if takes_text(takes) {
                return Ok(Scalar::Text(copied_text(host.alloc, &mut host.heap, text)?));
            }
            Err(NOT_TAKEN)
        }
        Value::Truth(truth) => {
            if matches!(takes, Takes::Truth | Takes::Value) {
                return Ok(Scalar::Truth(truth));
            }
            Err(NOT_TAKEN)
        }
        Value::Null => {
            if matches!(takes, Takes::MaybeText | Takes::Value) {
                return Ok(Scalar::Null);
            }
            Err(NOT_TAKEN)
        }
        Value::Whole(number) => {
            if takes == Takes::Value && number >= 0 {
                return Ok(Scalar::Text(digits(host.alloc, number)?));
            }
            Err(NOT_TAKEN)
        }
        _ => Err(NOT_TAKEN),
    }
}

// The sort of the literal whose value is this.
fn sort_of(to: &Value) -> &'static str {
    match *to {
        Value::Text(_) => "string",
        Value::Whole(_) => "number",
        Value::Truth(_) => "boolean",
        _ => "null",
    }
}

fn write(arena: &mut Arena, node: NodeId, index: u8, scalar: Scalar) -> Result<(), Stop>
    ensures { arena.new.forest ≡ arena.old.forest }
{
    let node = known_node(arena, node)?;
    if usize::from(index) >= scalar_count(arena.kind(node)) {
        return Err(Stop::NoMemory);
    }
    arena.set_scalar(node, index, scalar);
    Ok(())
}

// The value of a literal tells its sort, and it has no flags then.
fn write_literal(host: &mut Host, node: NodeId, sort: &str, scalar: Scalar) -> Result<(), Stop>
    ensures nodes { length host.old.arena.forest.nodes ≤ length host.new.arena.forest.nodes }
    ensures places { length host.old.arena.forest.places ≤ length host.new.arena.forest.places }
{
    let sort = Units::of_bytes(host.alloc, sort.as_bytes())?;
    write(&mut host.arena, node, SORT, Scalar::Text(sort))?;
    write(&mut host.arena, node, VALUE, scalar)?;
    write(&mut host.arena, node, FLAGS, Scalar::Null)
}

/// Sets a scalar of a node of the kind. BuilderType: the scalar does not take the value, and then
/// nothing changed. The value of a literal sets its sort, and takes its flags away.
pub fn set_scalar(
    host: &mut Host,
    node: NodeId,
    kind: Kind,
    index: u8,
    to: Value,
) -> Result<(), Stop>
    ensures nodes { length host.old.arena.forest.nodes ≤ length host.new.arena.forest.nodes }
    ensures places { length host.old.arena.forest.places ≤ length host.new.arena.forest.places }
    ensures changed { OnOk result (host.new.changed ≡ true) }
{
    let all = field_takes(kind);
    let at = usize::from(index);
    if at >= all.len() {
        return Err(NOT_TAKEN);
    }
    let takes = all[at];
    let sort = sort_of(&to);
    let scalar = taken(host, takes, to)?;
    if takes == Takes::Value {
        write_literal(host, node, sort, scalar)?;
    } else {
        write(&mut host.arena, node, index, scalar)?;
    }
    forget_text(&mut host.known.scalars, node);
    host.changed = true;
    Ok(())
}
