//! What the fields of literals, arrows and template elements read as beside their own scalars,
//! after ESTree: `value` as a number, `raw`, `regex`, `bigint`, `expression`.

ghost use Rattle.std.specs.Prelude.{◌≡◌, ◌≤ℤ◌, pos, IfSome};

use crate::door::{first_of, kind_at, node_at, scalar_of};
use crate::host::Host;
use crate::names::View;
use crate::objects::set_view;
use crate::reading::Read;
use crate::scalars::{is_scalar, scalar_value};
use node_arena::{Arena, NodeId};
use script_values::{Stop, Value};
use tree_core::Scalar;
use type_defs::Kind;
use value_methods::MAX_NUMBER;

/// The scalars of a Literal by their numbers.
pub const SORT: u8 = 0;

pub const VALUE: u8 = 1;

pub const FLAGS: u8 = 2;
/// The one scalar of a TemplateElement.
pub const RAW: u8 = 0;
/// The code unit of the letter at the end of a BigInt.
const LETTER_N: u16 = 110;
/// The slot of an arrow's body.
const ARROW_BODY: u8 = 1;
/// The most decimal digits of a script's number.
const MAX_DIGITS: usize = 16;

fn digit(unit: u16) -> Option<i64>
    ensures { IfSome result (λ d. (pos 0 ≤ℤ d) × (d ≤ℤ pos 9)) }
{
    if unit < 48 || unit > 57 {
        return None;
    }
    Some(i64::from(unit - 48))
}

/// The number that decimal digits without a leading zero spell, within the range of a script.
pub fn whole_number(units: &[u16]) -> Option<i64>
    ensures { IfSome result (λ n. n ≤ℤ pos 9007199254740991) }
{
    if units.is_empty() || units.len() > MAX_DIGITS || (units[0] == 48 && units.len() > 1) {
        return None;
    }
    let mut number: i64 = 0;
    for unit in units {
        let digit = digit(*unit)?;
        number = number.saturating_mul(10).saturating_add(digit);
    }
    if number > MAX_NUMBER {
        return None;
    }
    Some(number)
}

// The raw text of a number as a number of the script.
fn number_read(arena: &Arena, node: NodeId) -> Result<Read, Stop> {
    let Scalar::Text(raw) = scalar_of(arena, node, VALUE)? else {
        return Ok(Read::Undefined);
    };
    match whole_number(raw.get()) {
        None => Ok(Read::Undefined),
        Some(number) => Ok(Read::Whole(number)),
    }
}

// Where the value of a literal is a text, what reads it; else undefined.
fn text_read(arena: &Arena, node: NodeId, read: Read) -> Result<Read, Stop> {
    match scalar_of(arena, node, VALUE)? {
        Scalar::Text(_) => Ok(read),
        Scalar::Truth(_) | Scalar::Null => Ok(Read::Undefined),
    }
}

// A view of a literal that only literals of this sort have.
fn sorted_read(arena: &Arena, node: NodeId, sort: &str, read: Read) -> Result<Option<Read>, Stop> {
    if !is_scalar(arena, node, SORT, sort) {
        return Ok(None);
    }
    Ok(Some(read))
}

fn literal_view(arena: &Arena, node: NodeId, view: View) -> Result<Option<Read>, Stop> {
    match view {
        View::Value => sorted_read(arena, node, "number", number_read(arena, node)?),
        View::Raw => {
            let raw = text_read(arena, node, Read::Text(VALUE))?;
            sorted_read(arena, node, "number", raw)
        }
        View::Regex => sorted_read(arena, node, "regexp", Read::Regex),
        View::Bigint => {
            let digits = text_read(arena, node, Read::Bigint)?;
            sorted_read(arena, node, "bigint", digits)
        }
        _ => Ok(None),
    }
}

// Whether the body of an arrow is an expression.
fn has_expression(arena: &Arena, arrow: NodeId) -> Result<bool, Stop> {
    let Some(place) = first_of(arena, arrow, ARROW_BODY)? else {
        return Ok(false);
    };
    match node_at(arena, place)? {
        None => Ok(false),
        Some(body) => Ok(kind_at(arena, body)? != Kind::BlockStatement),
    }
}

/// What a view of a node of the kind reads as; none where the node has no such view.
pub fn node_view(
    arena: &Arena,
    node: NodeId,
    kind: Kind,
    view: View,
) -> Result<Option<Read>, Stop> {
    if kind == Kind::Literal {
        return literal_view(arena, node, view);
    }
    if kind == Kind::ArrowFunctionExpression && view == View::Expression {
        return Ok(Some(Read::Truth(has_expression(arena, node)?)));
    }
    if kind == Kind::TemplateElement && view == View::Value {
        return Ok(Some(Read::Element));
    }
    Ok(None)
}

/// The text of a BigInt without the `n` at its end.
pub fn bigint_value(host: &mut Host, node: NodeId) -> Result<Value, Stop>
    ensures forest { host.new.arena ≡ host.old.arena }
{
    let Value::Text(raw) = scalar_value(host, node, VALUE)? else {
        return Ok(Value::Undefined);
    };
    let end = host.heap.length(raw)?.saturating_sub(1);
    if host.heap.unit_at(raw, end)? == Some(LETTER_N) {
        return Ok(Value::Text(host.heap.slice(raw, 0, end)?));
    }
    Ok(Value::Text(raw))
}

/// A regular expression's pattern and flags, as an object.
pub fn regex_value(host: &mut Host, node: NodeId) -> Result<Value, Stop>
    ensures forest { host.new.arena ≡ host.old.arena }
{
    let pattern = scalar_value(host, node, VALUE)?;
    let flags = scalar_value(host, node, FLAGS)?;
    let object = host.heap.object()?;
    set_view(&mut host.heap, object, View::Pattern, pattern)?;
    set_view(&mut host.heap, object, View::Flags, flags)?;
    Ok(Value::Object(object))
}

/// The text of a template element, as an object.
pub fn element_value(host: &mut Host, node: NodeId) -> Result<Value, Stop>
    ensures forest { host.new.arena ≡ host.old.arena }
{
    let raw = scalar_value(host, node, RAW)?;
    let object = host.heap.object()?;
    set_view(&mut host.heap, object, View::Raw, raw)?;
    Ok(Value::Object(object))
}
