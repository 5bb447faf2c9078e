//! What the fields of nodes read as: `type`, `comments`, those of the table of kinds, and the views of
//! their kinds, after ESTree.

ghost use Rattle.std.specs.Prelude.{◌≡◌};

use crate::comments::{comments_value, has_comments};
use crate::door::{kind_at, known_node, node_at, scalar_of};
use crate::host::Host;
use crate::kinds::{Field, field_named, kind_text};
use crate::literals::{bigint_value, element_value, node_view, regex_value};
use crate::names::{View, view_at};
use crate::scalars::scalar_value;
use node_arena::{Arena, NodeId};
use script_values::{Stop, Value, Word};
use tree_core::Scalar;
use type_defs::Kind;

/// What a field of a node reads as, before anything is made for it.
#[derive(Clone, Copy, Debug, PartialEq, Eq)]
pub enum Read {
    Undefined,
    Null,
    Truth(bool),
    Whole(i64),
    /// A scalar that is a text, by its number.
    Text(u8),
    /// The digits of a BigInt.
    Bigint,
    /// The name of the node's kind.
    Type,
    /// The pattern and flags of a regular expression.
    Regex,
    /// The text of a template element.
    Element,
    /// Comments, of which there are some.
    Comments,
    Node(NodeId),
    /// The list in this slot.
    List(u8),
}

fn scalar_read(arena: &Arena, node: NodeId, index: u8) -> Result<Read, Stop> {
    match scalar_of(arena, node, index)? {
        Scalar::Text(_) => Ok(Read::Text(index)),
        Scalar::Truth(truth) => Ok(Read::Truth(*truth)),
        Scalar::Null => Ok(Read::Null),
    }
}

// What stands in the one place of a slot.
fn single_read(arena: &Arena, node: NodeId, slot: u8) -> Result<Read, Stop> {
    let node = known_node(arena, node)?;
    let Some(place) = arena.slot_first(node, slot) else {
        return Ok(Read::Null);
    };
    match node_at(arena, place)? {
        None => Ok(Read::Null),
        Some(child) => Ok(Read::Node(child)),
    }
}

// A field of the table of kinds.
fn own_read(host: &mut Host, node: NodeId, kind: Kind, word: Word) -> Result<Read, Stop>
    ensures forest { host.new.arena ≡ host.old.arena }
{
    let alloc = host.alloc;
    match field_named(alloc, &mut host.heap, &mut host.known.fields, kind, word)? {
        None => Ok(Read::Undefined),
        Some(Field::Scalar(index)) => scalar_read(&host.arena, node, index),
        Some(Field::List(slot)) => Ok(Read::List(slot)),
        Some(Field::Single(slot)) => single_read(&host.arena, node, slot),
    }
}

/// What a field of a node reads as.
pub fn read_field(host: &mut Host, node: NodeId, word: Word) -> Result<Read, Stop>
    ensures forest { host.new.arena ≡ host.old.arena }
{
    let kind = kind_at(&host.arena, node)?;
    match view_at(word) {
        None => own_read(host, node, kind, word),
        Some(View::Type) => Ok(Read::Type),
        Some(View::Comments) => {
            if has_comments(&host.arena, node)? {
                return Ok(Read::Comments);
            }
            Ok(Read::Null)
        }
        Some(view) => match node_view(&host.arena, node, kind, view)? {
            Some(read) => Ok(read),
            None => own_read(host, node, kind, word),
        },
    }
}

fn type_value(host: &mut Host, node: NodeId) -> Result<Value, Stop>
    ensures forest { host.new.arena ≡ host.old.arena }
{
    let kind = kind_at(&host.arena, node)?;
    let text = kind_text(host.alloc, &mut host.heap, &mut host.known.kinds, kind)?;
    Ok(Value::Text(text))
}

/// A field of a node as a value.
pub fn node_field(host: &mut Host, node: NodeId, word: Word) -> Result<Value, Stop>
    ensures forest { host.new.arena ≡ host.old.arena }
{
    let read = read_field(host, node, word)?;
    read_value(host, node, read)
}

/// What a field of a node reads as, as a value.
pub fn read_value(host: &mut Host, node: NodeId, read: Read) -> Result<Value, Stop>
    ensures forest { host.new.arena ≡ host.old.arena }
{
    match read {
        Read::Undefined => Ok(Value::Undefined),
        Read::Null => Ok(Value::Null),
        Read::Truth(truth) => Ok(Value::Truth(truth)),
        Read::Whole(number) => Ok(Value::Whole(number)),
        Read::Text(index) => scalar_value(host, node, index),
        Read::Bigint => bigint_value(host, node),
        Read::Type => type_value(host, node),
        Read::Regex => regex_value(host, node),
        Read::Element => element_value(host, node),
        Read::Comments => comments_value(host, node),
        Read::Node(child) => Ok(Value::Node(child)),
        Read::List(slot) => Ok(Value::NodeList(node, slot)),
    }
}
