//! Where the comments of a tree stand.
//!
//! The gaps of a node lie before, between and behind its children that are there. A gap at an end
//! of the node is bare where the form has no word outside the child there. Comments in a bare gap
//! stand in parentheses with the child where these may stand around it; else they belong to the gap
//! of the parent on that side, and so on upwards.

ghost use Rattle.std.specs.Prelude.{◌≡◌, ◌≤◌, ◌<◌, ◌+◌, ◌++◌, [], ◌∷◌, drop, length, map, min, IfOk, OnOk, if◌then◌else◌};
ghost use Rattle.tree_core.specs.View.{syntax};
ghost use Rattle.tree_forms.specs.Edges.{left_end};
ghost use Rattle.comment_places.specs.Children.{kid_view, next};
ghost use Rattle.tree_forms.specs.Reading as reading;
ghost use Rattle.comment_places.specs.Seats as spec;

use crate::children::{Child, children, is_template, is_template_form};
use js_forms::{Category, Form, Place, pieces};
use sqlite_items::Items;
use std::alloc::{AllocError, Global};
use tree_core::{Address, Comment, Steps32, Tree, Units, height};
use tree_forms::{
    ALONE, Variant, begins_bare, child, ends_bare, form, is_expression, links, links_below,
    spells_at_most, takes_groups,
};
use type_defs::Kind;

/// A comment with its place: a gap of the node at the address, counted from 0.
#[derive(Debug, Drop)]
pub struct Seat {
    pub address: Address,
    pub gap: u32,
    pub comment: Comment,
}

/// Comments with their places, in the order of the text.
pub type Seats = Items<Seat>;

/// A gap of the node to which so many steps of the path lead.
#[derive(Clone, Copy, Debug, PartialEq, Eq)]
struct Gap {
    depth: usize,
    gap: u32,
}

/// The gaps to which comments before and behind a node belong.
#[derive(Clone, Copy, Debug, PartialEq, Eq)]
struct Sides {
    before: Gap,
    behind: Gap,
}

/// Where a child stands among its parent's: the gap before it, and whether it is the last.
#[derive(Clone, Copy, Debug, PartialEq, Eq)]
struct Turn {
    gap: u32,
    last: bool,
}

// Whether parentheses may stand around the child, which has so many links of a chain.
fn groups(child: Child<'_>, links: u32) -> bool
    requires { links ≡ (left_end (kid_view child).tree).links }
    ensures { result ≡ spec.groups (kid_view child.entry) }
{
    takes_groups(child.category) && (is_expression(child.node.kind) && links == 0)
}

fn begins(variant: Option<Variant>) -> bool
    ensures { result ≡ spec.begins variant }
{
    match variant {
        Some(variant) => begins_bare(variant),
        None => false,
    }
}

fn ends(variant: Option<Variant>, slot: usize) -> bool
    ensures { result ≡ spec.ends variant slot }
{
    match variant {
        Some(variant) => ends_bare(variant, slot),
        None => false,
    }
}

// Whether the comments before the child belong to the gap before the node.
fn rises(variant: Option<Variant>, turn: Turn, child: Child<'_>, links: u32) -> bool
    requires { links ≡ (left_end (kid_view child).tree).links }
    ensures { result ≡ spec.rises variant turn (kid_view child.entry) }
{
    turn.gap == 0 && (begins(variant) && !groups(child, links))
}

// Whether the comments behind the child belong to the gap behind the node.
fn falls(variant: Option<Variant>, turn: Turn, child: Child<'_>, links: u32) -> bool
    requires { links ≡ (left_end (kid_view child).tree).links }
    ensures { result ≡ spec.falls variant turn (kid_view child.entry) }
{
    turn.last && (ends(variant, child.slot_number) && !groups(child, links))
}

// The gap before the child of the node at the end of the path.
fn before(
    variant: Option<Variant>,
    depth: usize,
    sides: Sides,
    turn: Turn,
    child: Child<'_>,
    links: u32,
) -> Gap
    requires { links ≡ (left_end (kid_view child).tree).links }
    ensures gap { result ≡ (if spec.rises variant turn (kid_view child.entry) then sides.before else record { depth = depth; gap = turn.gap }) }
    ensures within { sides.before.depth ≤ depth → result.depth ≤ depth }
{
    if rises(variant, turn, child, links) {
        return sides.before;
    }
    let gap = turn.gap;
    Gap { depth, gap }
}

// The gap behind it.
fn behind(
    variant: Option<Variant>,
    depth: usize,
    sides: Sides,
    turn: Turn,
    child: Child<'_>,
    links: u32,
) -> Gap
    requires { links ≡ (left_end (kid_view child).tree).links }
    ensures gap { result ≡ (if spec.falls variant turn (kid_view child.entry) then sides.behind else record { depth = depth; gap = next turn.gap }) }
    ensures within { sides.behind.depth ≤ depth → result.depth ≤ depth }
{
    if falls(variant, turn, child, links) {
        return sides.behind;
    }
    let gap = turn.gap.saturating_add(1);
    Gap { depth, gap }
}

// The gaps beside the child of the node to which the path leads.
fn around(
    variant: Option<Variant>,
    path: &[u32],
    sides: Sides,
    turn: Turn,
    child: Child<'_>,
    links: u32,
) -> Sides
    requires links { links ≡ (left_end (kid_view child).tree).links }
    requires before { sides.before.depth ≤ length path.now }
    requires behind { sides.behind.depth ≤ length path.now }
    ensures view { spec.sides_view path.now result ≡ spec.around variant path.now (spec.sides_view path.now sides) turn (kid_view child.entry) }
    ensures before { result.before.depth ≤ length path.now }
    ensures behind { result.behind.depth ≤ length path.now }
{
    let depth = path.len();
    Sides {
        before: before(variant, depth, sides, turn, child, links),
        behind: behind(variant, depth, sides, turn, child, links),
    }
}

fn is_program(tree: &Tree) -> bool
    ensures { result ≡ spec.is_program (syntax tree.now) }
{
    matches!(tree.kind, Kind::Program)
}

// Whether comments may stand before the child: not before the first characters of a template.
fn has_leads(variant: Option<Variant>, turn: Turn, tree: &Tree) -> bool
    ensures { result ≡ spec.has_leads variant turn (syntax tree.now) }
{
    !(is_template(variant) && turn.gap == 0) && !is_program(tree)
}

// Whether comments may stand behind the child: not behind the last characters of a template.
fn has_trails(variant: Option<Variant>, turn: Turn, tree: &Tree) -> bool
    ensures { result ≡ spec.has_trails variant turn (syntax tree.now) }
{
    !(is_template(variant) && turn.last) && !is_program(tree)
}

// Whether nothing stands in the first place of the slot.
fn lacks(tree: &Tree, slot: usize) -> bool
    ensures { result ≡ spec.lacks (reading.child slot (syntax tree.now)) }
{
    match child(tree, slot) {
        Some(_) => false,
        None => true,
    }
}

// Whether what stands in the second slot is one token.
fn has_short_value(tree: &Tree) -> bool
    ensures { result ≡ spec.is_short (reading.child 1 (syntax tree.now)) }
{
    match child(tree, 1) {
        Some(value) => !matches!(value.kind, Kind::AssignmentPattern),
        None => true,
    }
}

// Whether of one name for two children the other is one token, or a template has no expressions.
fn is_single(form: Form, tree: &Tree) -> bool
    ensures { result ≡ spec.is_single_form form (syntax tree.now) }
{
    if is_template_form(form) {
        return lacks(tree, 1);
    }
    has_short_value(tree)
}

// Whether the node is spelled by one token or by none, so that no comment stands inside.
fn is_token(variant: Variant, tree: &Tree) -> bool
    ensures { result ≡ spec.is_token variant (syntax tree.now) }
{
    let single = is_single(variant.form, tree);
    spells_at_most(
        single,
        variant.form,
        pieces(variant.form, variant.spelling),
        1,
    )
}

fn has_inner(variant: Option<Variant>, tree: &Tree) -> bool
    ensures { result ≡ spec.has_inner variant (syntax tree.now) }
{
    match variant {
        Some(variant) => !is_token(variant, tree),
        None => true,
    }
}

fn copy_comment(alloc: Global, comment: &Comment) -> Result<Comment, AllocError>
    ensures { IfOk result (λ copied. copied ≡ comment.now) }
{
    Ok(Comment {
        block: comment.block,
        text: comment.text.copied(alloc)?,
    })
}

fn seated(alloc: Global, path: &[u32], gap: Gap, comment: &Comment) -> Result<Seat, AllocError>
    requires { gap.depth ≤ length path.now }
    ensures { IfOk result (λ seat. seat ≡ spec.seat (spec.gap_view path.now gap) comment.now) }
{
    Ok(Seat {
        address: Address::new(Steps32::from_slice(alloc, &path[..gap.depth])?),
        gap: gap.gap,
        comment: copy_comment(alloc, comment)?,
    })
}

fn add_comments(
    alloc: Global,
    found: &mut Seats,
    comments: &[Comment],
    path: &[u32],
    gap: Gap,
) -> Result<(), AllocError>
    requires { gap.depth ≤ length path.now }
    ensures { OnOk result (found.new ≡ found.old ++ spec.seats_at (spec.gap_view path.now gap) comments.now) }
{
    for comment in comments {
        found.push(seated(alloc, path, gap, comment)?)?;
    }
    Ok(())
}

// The same, where comments may stand there.
fn add_where(
    alloc: Global,
    found: &mut Seats,
    stand: bool,
    comments: &[Comment],
    path: &[u32],
    gap: Gap,
) -> Result<(), AllocError>
    requires { gap.depth ≤ length path.now }
    ensures { OnOk result (found.new ≡ found.old ++ (if stand then spec.seats_at (spec.gap_view path.now gap) comments.now else [])) }
{
    if stand {
        add_comments(alloc, found, comments, path, gap)?;
    }
    Ok(())
}

fn place_of(category: Category) -> Place
    ensures { result.category ≡ category }
{
    Place { category, ..ALONE }
}

// The number of links of the child that stands first, or of another.
fn links_at(tree: &Tree, links_here: u32, child: Child<'_>) -> u32
    requires here { links_here ≡ (left_end (syntax tree.now)).links }
    requires first { spec.StandsFirst (syntax tree.now) (kid_view child) }
    ensures { result ≡ (left_end (kid_view child.entry).tree).links }
{
    if child.slot_number == 0 && child.number == 0 {
        return links_below(tree, links_here, child.node);
    }
    links(child.node)
}

// Whether no child is behind that of this number.
fn is_last(children: &[Child<'_>], at: usize) -> bool
    requires { at < length children.now }
    ensures { result ≡ spec.is_nothing (map kid_view (drop (at + 1) children.now)) }
{
    match sqlite_items::at(children, at + 1) {
        Some(_) => false,
        None => true,
    }
}

// The comments inside the tree, in its last gap.
fn add_inner(
    alloc: Global,
    found: &mut Seats,
    variant: Option<Variant>,
    path: &[u32],
    end: Gap,
    tree: &Tree,
) -> Result<(), AllocError>
    requires { end.depth ≤ length path.now }
    ensures { OnOk result (found.new ≡ found.old ++ spec.inside variant (syntax tree.now) (spec.gap_view path.now end)) }
{
    if has_inner(variant, tree) {
        add_comments(alloc, found, tree.notes.inner(), path, end)?;
    }
    Ok(())
}

// The comments of a tree, whose place has the category, to this depth. The path leads to the tree,
// and is the same again at the end.
#[cycle(seats)]
#[inline(never)]
fn add_tree(
    alloc: Global,
    found: &mut Seats,
    path: &mut Vec<u32>,
    depth: u32,
    category: Category,
    links_here: u32,
    sides: Sides,
    tree: &Tree,
) -> Result<(), AllocError>
    requires links { links_here ≡ (left_end (syntax tree.now)).links }
    requires before { sides.before.depth ≤ length path.old.items }
    requires behind { sides.behind.depth ≤ length path.old.items }
    ensures told { OnOk result (found.new ≡ found.old ++ spec.seats_in depth category path.old.items (spec.sides_view path.old.items sides) (syntax tree.now)) }
    ensures kept { OnOk result (path.new.items ≡ path.old.items) }
{
    if depth == 0 {
        return Ok(());
    }
    let variant = form(tree, place_of(category));
    let children = children(alloc, variant, tree)?;
    let depth_here = path.len();
    let mut end = Gap {
        depth: depth_here,
        gap: 0,
    };
    let mut gap = 0u32;
    for at in 0..children.len() {
        let child = children[at];
        let last = is_last(&children, at);
        let turn = Turn { gap, last };
        let links = links_at(tree, links_here, child);
        let beside = around(variant, path.as_slice(), sides, turn, child, links);
        add_child(
            alloc,
            found,
            path,
            depth - 1,
            variant,
            links,
            beside,
            turn,
            child,
        )?;
        end = beside.behind;
        gap = gap.saturating_add(1);
    }
    add_inner(alloc, found, variant, path.as_slice(), end, tree)?;
    Ok(())
}

#[cycle(seats)]
#[inline(never)]
fn add_child(
    alloc: Global,
    found: &mut Seats,
    path: &mut Vec<u32>,
    depth: u32,
    variant: Option<Variant>,
    links: u32,
    beside: Sides,
    turn: Turn,
    child: Child<'_>,
) -> Result<(), AllocError>
    requires links { links ≡ (left_end (kid_view child).tree).links }
    requires before { beside.before.depth ≤ length path.old.items }
    requires behind { beside.behind.depth ≤ length path.old.items }
    ensures told { OnOk result (found.new ≡ found.old ++ spec.of_kid (spec.seats_in depth) variant path.old.items (spec.sides_view path.old.items beside) turn (kid_view child.entry)) }
    ensures kept { OnOk result (path.new.items ≡ path.old.items) }
{
    let tree = child.node;
    let leads = has_leads(variant, turn, tree);
    add_where(
        alloc,
        found,
        leads,
        tree.notes.lead(),
        path.as_slice(),
        beside.before,
    )?;
    let here = path.len();
    path.push(child.number)?;
    add_tree(
        alloc,
        found,
        path,
        depth,
        child.category,
        links,
        beside,
        tree,
    )?;
    path.truncate(here);
    let trails = has_trails(variant, turn, tree);
    add_where(
        alloc,
        found,
        trails,
        tree.notes.trail(),
        path.as_slice(),
        beside.behind,
    )?;
    Ok(())
}

/// The comments of the tree in the order of the text, each with its place. Those before and behind
/// the tree itself have none, nor have those that no text holds: at Program, at a mirror, before
/// the first or behind the last characters of a template, inside a node of one token. Where a
/// comment would belong to a node above the tree, its place is the tree's own gap on that side. It
/// takes time by the nodes, and by the comments and the lengths of their addresses.
pub fn seats(alloc: Global, tree: &Tree) -> Result<Seats, AllocError>
    ensures { IfOk result (λ found. found ≡ spec.seats (syntax tree.now)) }
{
    let variant = form(tree, ALONE);
    let gap = gap_count(children(alloc, variant, tree)?.len());
    let sides = Sides {
        before: Gap { depth: 0, gap: 0 },
        behind: Gap { depth: 0, gap },
    };
    let mut found = Items::new(alloc);
    let mut path = Vec::new(alloc);
    add_tree(
        alloc,
        &mut found,
        &mut path,
        height(tree),
        ALONE.category,
        links(tree),
        sides,
        tree,
    )?;
    Ok(found)
}

// The number of the last gap.
fn gap_count(children: usize) -> u32
    ensures { result ≡ min children 4294967295 }
{
    children.min(4294967295) as u32
}
