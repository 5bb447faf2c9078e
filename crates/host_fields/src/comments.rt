//! Comments of nodes: read as objects, and set from a list of such objects.

ghost use Rattle.std.specs.Prelude.{◌≡◌, ◌≤◌, length, true, OnOk};

use crate::door::known_node;
use crate::host::{Host, push};
use crate::names::{View, view_word};
use crate::objects::{comment_object, copied_text, view_field};
use node_arena::{Arena, NodeId};
use script_values::{Fault, Heap, ListId, ObjectId, Stop, TextId, Value};
use sqlite_items::Items;
use std::alloc::Global;
use tree_core::{Comment, Comments, Units};

// A comment's text, which is written into the heap once where it is remembered.
fn comment_text(
    heap: &mut Heap,
    known: &Option<ListId>,
    number: usize,
    comment: &Comment,
) -> Result<TextId, Stop> {
    if let Some(texts) = known {
        let texts = heap.items(*texts)?;
        if number < texts.len() {
            if let Value::Text(text) = texts[number] {
                return Ok(text);
            }
        }
    }
    heap.text(comment.text.get())
}

/// What is made of the comments of a node: an object for each, and their texts.
#[derive(Drop)]
struct Made {
    objects: Vec<Value>,
    texts: Vec<Value>,
}

// Adds the objects of comments that all stand on one side.
fn add_comments(
    heap: &mut Heap,
    known: &Option<ListId>,
    comments: &[Comment],
    leading: bool,
    trailing: bool,
    made: &mut Made,
) -> Result<(), Stop> {
    for comment in comments {
        let text = comment_text(heap, known, made.texts.len(), comment)?;
        let object = comment_object(heap, comment.block, text, leading, trailing)?;
        push(&mut made.objects, object)?;
        push(&mut made.texts, Value::Text(text))?;
    }
    Ok(())
}

/// Whether a node has comments.
pub fn has_comments(arena: &Arena, node: NodeId) -> Result<bool, Stop> {
    let node = known_node(arena, node)?;
    let none = arena.lead(node).is_empty() && arena.trail(node).is_empty();
    Ok(!(none && arena.inner(node).is_empty()))
}

/// The comments of a node, those before it first, then those after it, then those inside; null
/// where it has none. Each read makes a new list of new objects; their texts are shared.
pub fn comments_value(host: &mut Host, node: NodeId) -> Result<Value, Stop>
    ensures forest { host.new.arena ≡ host.old.arena }
{
    let node = known_node(&host.arena, node)?;
    let known = host.known.comments.get(&node.number()).copied();
    let mut made = Made {
        objects: Vec::new(host.alloc),
        texts: Vec::new(host.alloc),
    };
    let lead = host.arena.lead(node).as_slice();
    add_comments(&mut host.heap, &known, lead, true, false, &mut made)?;
    let trail = host.arena.trail(node).as_slice();
    add_comments(&mut host.heap, &known, trail, false, true, &mut made)?;
    let inner = host.arena.inner(node).as_slice();
    add_comments(&mut host.heap, &known, inner, false, false, &mut made)?;
    if made.objects.is_empty() {
        return Ok(Value::Null);
    }
    if known.is_none() {
        let texts = host.heap.list(&made.texts)?;
        host.known.comments.insert(node.number(), texts)?;
    }
    Ok(Value::List(host.heap.list(&made.objects)?))
}

/// Where comments stand beside their node.
#[derive(Drop)]
struct Sides {
    lead: Comments,
    trail: Comments,
    inner: Comments,
}

const NO_COMMENT: Stop = Stop::Fault(Fault::BuilderType);

fn is_named(heap: &mut Heap, text: TextId, view: View) -> Result<bool, Stop> {
    let name = heap.word_text(view_word(view))?;
    heap.same_text(text, name)
}

// Whether the type of a comment object names block comments; a fault where it names neither sort.
fn is_block(heap: &mut Heap, object: ObjectId) -> Result<bool, Stop> {
    let Value::Text(name) = view_field(heap, object, View::Type)? else {
        return Err(NO_COMMENT);
    };
    if is_named(heap, name, View::BlockType)? {
        return Ok(true);
    }
    if is_named(heap, name, View::LineType)? {
        return Ok(false);
    }
    Err(NO_COMMENT)
}

fn truth_of(heap: &Heap, object: ObjectId, view: View) -> Result<bool, Stop> {
    match view_field(heap, object, view)? {
        Value::Truth(truth) => Ok(truth),
        _ => Err(NO_COMMENT),
    }
}

// The text of a comment object.
fn text_of(alloc: Global, heap: &mut Heap, object: ObjectId) -> Result<Units, Stop> {
    match view_field(heap, object, View::Value)? {
        Value::Text(text) => copied_text(alloc, heap, text),
        _ => Err(NO_COMMENT),
    }
}

/// A comment as an object says it, on its side.
fn add_comment(alloc: Global, heap: &mut Heap, item: Value, sides: &mut Sides) -> Result<(), Stop> {
    let Value::Object(object) = item else {
        return Err(NO_COMMENT);
    };
    let block = is_block(heap, object)?;
    let text = text_of(alloc, heap, object)?;
    let leading = truth_of(heap, object, View::Leading)?;
    let trailing = truth_of(heap, object, View::Trailing)?;
    let comment = Comment { block, text };
    if leading {
        sides.lead.push(comment)?;
    } else if trailing {
        sides.trail.push(comment)?;
    } else {
        sides.inner.push(comment)?;
    }
    Ok(())
}

// The comments that a list of whole comment objects says.
fn sides_of(alloc: Global, heap: &mut Heap, list: ListId) -> Result<Sides, Stop> {
    let mut sides = Sides {
        lead: Items::new(alloc),
        trail: Items::new(alloc),
        inner: Items::new(alloc),
    };
    for index in 0..heap.items(list)?.len() {
        let items = heap.items(list)?;
        if index >= items.len() {
            return Err(Stop::NoMemory);
        }
        let item = items[index];
        add_comment(alloc, heap, item, &mut sides)?;
    }
    Ok(sides)
}

fn no_sides(alloc: Global) -> Sides {
    Sides {
        lead: Items::new(alloc),
        trail: Items::new(alloc),
        inner: Items::new(alloc),
    }
}

/// Sets the comments of a node. Null and an empty list take all away; anything but null or a list
/// of whole comment objects is BuilderType, and then nothing changed.
pub fn set_comments(host: &mut Host, node: NodeId, to: Value) -> Result<(), Stop>
    ensures nodes { length host.old.arena.forest.nodes ≤ length host.new.arena.forest.nodes }
    ensures places { length host.old.arena.forest.places ≤ length host.new.arena.forest.places }
    ensures changed { OnOk result (host.new.changed ≡ true) }
{
    let sides = match to {
        Value::Null => no_sides(host.alloc),
        Value::List(list) => sides_of(host.alloc, &mut host.heap, list)?,
        _ => return Err(NO_COMMENT),
    };
    let node = known_node(&host.arena, node)?;
    let Sides { lead, trail, inner } = sides;
    host.arena.set_comments(node, lead, trail, inner);
    host.known.comments.swap_remove(&node.number());
    host.changed = true;
    Ok(())
}
