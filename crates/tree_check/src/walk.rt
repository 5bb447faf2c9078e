//! The walk over a tree in preorder, with a frame for each level.

use crate::cursor::{Cursor, Step};
use crate::fault::CheckFault;
use crate::judging::broken_rule;
use crate::position::{Fronts, Position, below, fronts_of, outermost};
use crate::rule::{MAX_DEPTH, Rule};
use crate::slot_table::SlotTable;
use sqlite_items::Items;
use std::alloc::{AllocError, Global};
use tree_core::{Address, Tree};
use tree_forms::{Variant, form};

// A node that is passed, whose children are walked.
#[derive(Clone, Copy)]
struct Frame<'a> {
    cursor: Cursor<'a>,
    position: Position<'a>,
    variant: Variant,
    fronts: Fronts,
}

// A node that breaks a rule.
#[derive(Drop)]
struct BadNode {
    address: Address,
    rule: Rule,
}

// What comes of a node: the rule that it breaks, or the frame for its children.
#[derive(Clone, Copy)]
enum Passed<'a> {
    Broken(Rule),
    Whole(Frame<'a>),
}

fn cursor_address(alloc: Global, path: &[Cursor<'_>]) -> Result<Address, AllocError> {
    let mut steps = Items::new(alloc);
    for cursor in path {
        steps.push(cursor.number())?;
    }
    Ok(Address::new(steps))
}

// The address of the first node that stands too deep.
fn deep_node(alloc: Global, tree: &Tree) -> Result<Option<Address>, AllocError> {
    let mut path = Vec::new(alloc);
    path.push(Cursor::new(tree))?;
    for _turn in 0..usize::MAX {
        let Some(mut cursor) = path.pop() else {
            return Ok(None);
        };
        match cursor.step() {
            Step::Done => {}
            Step::Passed => path.push(cursor)?,
            Step::Child(node) => {
                path.push(cursor)?;
                if path.len() >= MAX_DEPTH {
                    return Ok(Some(cursor_address(alloc, &path)?));
                }
                path.push(Cursor::new(node))?;
            }
        }
    }
    Err(AllocError)
}

// Judges the node at the position.
fn pass<'a>(
    alloc: Global,
    table: &mut SlotTable,
    node: &'a Tree,
    position: Position<'a>,
) -> Result<Passed<'a>, AllocError> {
    let variant = form(node, position.place);
    if let Some(variant) = variant {
        table.learn(node.kind, variant, node.slots.len());
    }
    if let Some(rule) = broken_rule(alloc, table, node, variant, &position)? {
        return Ok(Passed::Broken(rule));
    }
    match variant {
        Some(variant) => Ok(Passed::Whole(Frame {
            cursor: Cursor::new(node),
            position,
            variant,
            fronts: fronts_of(node),
        })),
        None => Ok(Passed::Broken(Rule::Scalar)),
    }
}

fn frame_address(alloc: Global, path: &[Frame<'_>]) -> Result<Address, AllocError> {
    let mut steps = Items::new(alloc);
    for frame in path {
        steps.push(frame.cursor.number())?;
    }
    Ok(Address::new(steps))
}

// Judges the child that the last frame of the path passed, and goes on with its children.
fn pass_child<'a>(
    alloc: Global,
    table: &mut SlotTable,
    path: &mut Vec<Frame<'a>>,
    at: usize,
    node: &'a Tree,
) -> Result<Option<Rule>, AllocError> {
    let Some(frame) = path.get(at) else {
        return Err(AllocError);
    };
    let cursor = frame.cursor;
    let taken = table.at(cursor.node.kind, frame.variant, cursor.slot);
    let position = below(&frame.position, taken, frame.variant, frame.fronts, &cursor);
    match pass(alloc, table, node, position)? {
        Passed::Broken(rule) => Ok(Some(rule)),
        Passed::Whole(below) => {
            if !node.slots.is_empty() {
                path.push(below)?;
            }
            Ok(None)
        }
    }
}

// Takes a step of the last frame's cursor.
fn step<'a>(path: &mut Vec<Frame<'a>>, at: usize) -> Step<'a> {
    let Some(frame) = path.get(at) else {
        return Step::Done;
    };
    let mut cursor = frame.cursor;
    let step = cursor.step();
    if at < path.len() {
        path[at].cursor = cursor;
    }
    step
}

// The first bad node below the first node. A node that stands too deep is none yet.
fn bad_below(
    alloc: Global,
    table: &mut SlotTable,
    first: Frame<'_>,
) -> Result<Option<BadNode>, AllocError> {
    let mut path = Vec::new(alloc);
    path.push(first)?;
    for _turn in 0..usize::MAX {
        let Some(at) = path.len().checked_sub(1) else {
            return Ok(None);
        };
        match step(&mut path, at) {
            Step::Done => {
                path.pop();
            }
            Step::Passed => {}
            Step::Child(node) => {
                if let Some(rule) = deep_or_bad(alloc, table, &mut path, at, node)? {
                    let address = frame_address(alloc, &path)?;
                    return Ok(Some(BadNode { address, rule }));
                }
            }
        }
    }
    Err(AllocError)
}

fn deep_or_bad<'a>(
    alloc: Global,
    table: &mut SlotTable,
    path: &mut Vec<Frame<'a>>,
    at: usize,
    node: &'a Tree,
) -> Result<Option<Rule>, AllocError> {
    if at >= MAX_DEPTH - 1 {
        return Ok(Some(Rule::Depth));
    }
    pass_child(alloc, table, path, at, node)
}

// The first bad node in preorder, where those that stand too deep are told when they are met.
fn bad_node(alloc: Global, tree: &Tree) -> Result<Option<BadNode>, AllocError> {
    let mut table = SlotTable::new(alloc)?;
    match pass(alloc, &mut table, tree, outermost())? {
        Passed::Broken(rule) => {
            let address = Address::new(Items::new(alloc));
            Ok(Some(BadNode { address, rule }))
        }
        Passed::Whole(first) => bad_below(alloc, &mut table, first),
    }
}

/// Whether the tree, which is in shape, keeps all rules: whether some text spells it. If it does
/// not, the first node in preorder that breaks one, and the first rule that this node breaks; a node
/// that stands too deep comes before all others.
pub fn check(alloc: Global, tree: &Tree) -> Result<(), CheckFault> {
    let Some(BadNode { address, rule }) = bad_node(alloc, tree)? else {
        return Ok(());
    };
    match deep_node(alloc, tree)? {
        Some(address) => Err(CheckFault::BadNode {
            address,
            rule: Rule::Depth,
        }),
        None => Err(CheckFault::BadNode { address, rule }),
    }
}
