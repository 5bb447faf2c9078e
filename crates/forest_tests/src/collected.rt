//! Patterns of one node, and what is found and changed in a small program.

ghost use Rattle.std.specs.Prelude.{◌≡◌, ◌<◌, length, All, IfSome};

use ast_paths::{PathFault, replace};
use collections::{
    FieldPattern, Paths, Pattern, at, closest, filter, find, insert_after, insert_before, matches,
    reached, remove, replace_with,
};
use node_arena::{Arena, NodeId, Steps};
use sqlite_items::Items;
use std::alloc::{AllocError, Global};
use std::marker::Brand;
use std::sync::ledger::{Blank, Ledger};
use std::test::Fail;
use tree_core::{Scalar, Units};
use type_defs::{Group, Kind, NodeType, is_list, scalar_count};

const NAMES: NodeType = NodeType::Kind(Kind::Identifier);

const STATEMENTS: NodeType = NodeType::Group(Group::Statement);

fn units(alloc: Global, text: &str) -> Result<Units, AllocError> {
    let mut units = Vec::new(alloc);
    for byte in text.bytes() {
        units.push(u16::from(byte))?;
    }
    Ok(Units::new(units))
}

// A new node of the kind, whose first scalar is the text if it has one.
fn made(alloc: Global, arena: &mut Arena, kind: Kind, text: &str) -> Option<NodeId>
    ensures { IfSome result (λ j. j < length arena.new.forest.nodes) }
{
    let text = units(alloc, text).ok()?;
    let node = arena.make(kind).ok()?;
    if scalar_count(arena.kind(node)) > 0 {
        arena.set_scalar(node, 0, Scalar::Text(text));
    }
    Some(node)
}

// A list of one pattern: the field is what the pattern says.
fn field(alloc: Global, name: &str, pattern: Pattern) -> Option<Pattern> {
    let name = units(alloc, name).ok()?;
    let mut fields = Items::new(alloc);
    fields.push(FieldPattern { name, pattern }).ok()?;
    Some(Pattern::Fields(fields))
}

// The field is this text.
fn text_field(alloc: Global, name: &str, text: &str) -> Option<Pattern> {
    field(alloc, name, Pattern::Text(units(alloc, text).ok()?))
}

// A new node in the first place of a slot of a node.
fn grow(
    alloc: Global,
    arena: &mut Arena,
    owner: NodeId,
    slot: u8,
    kind: Kind,
    text: &str,
) -> Option<NodeId> {
    let node = made(alloc, arena, kind, text)?;
    if owner.number() >= arena.nodes() {
        return None;
    }
    let place = arena.slot_first(owner, slot)?;
    replace(alloc, arena, place, &[node]).ok()?;
    Some(node)
}

// A statement `target = left operator right` in the first place of the program.
fn grow_statement(
    alloc: Global,
    arena: &mut Arena,
    program: NodeId,
    texts: [&str; 4],
) -> Option<NodeId> {
    let statement = grow(alloc, arena, program, 0, Kind::ExpressionStatement, "")?;
    let assignment = grow(alloc, arena, statement, 0, Kind::AssignmentExpression, "=")?;
    grow(alloc, arena, assignment, 0, Kind::Identifier, texts[0])?;
    let binary = grow(
        alloc,
        arena,
        assignment,
        1,
        Kind::BinaryExpression,
        texts[2],
    )?;
    grow(alloc, arena, binary, 0, Kind::Identifier, texts[1])?;
    grow(alloc, arena, binary, 1, Kind::Identifier, texts[3])?;
    Some(statement)
}

// A new first place in the program's list, counting steps.
fn add_place<L: Ledger>(arena: &mut Arena, program: NodeId, blank: Blank) -> Option<()>
    requires name { blank.name ≡ L.name }
    requires parts { blank.parts ≡ L.parts }
    requires some { 0 < blank.parts }
{
    let mut steps = Steps::<L>::new(blank);
    if program.number() >= arena.nodes() || !is_list(arena.kind(program), 0) {
        return None;
    }
    arena.insert_first(program, 0, None, &mut steps).ok()?;
    Some(())
}

// A new first place in the program's list.
fn new_place(arena: &mut Arena, program: NodeId) -> Option<()> {
    add_place::<Brand>(arena, program, Blank::new(1))
}

// The program `x = a * b; y = c + d;`, whose second statement was made first.
fn program(alloc: Global, arena: &mut Arena) -> Option<()> {
    let program = made(alloc, arena, Kind::Program, "script")?;
    let root = arena.root();
    replace(alloc, arena, root, &[program]).ok()?;
    new_place(arena, program)?;
    grow_statement(alloc, arena, program, ["y", "c", "+", "d"])?;
    new_place(arena, program)?;
    grow_statement(alloc, arena, program, ["x", "a", "*", "b"])?;
    Some(())
}

// The places of the type that match.
fn found(alloc: Global, arena: &Arena, of: NodeType, pattern: &Pattern) -> Option<Paths>
    ensures { IfSome result (λ v. All (λ p. p < length arena.now.forest.places) v) }
{
    let root = Paths::from_slice(alloc, &[arena.root()]).ok()?;
    find(alloc, arena, &root, of, pattern).ok()
}

// Whether the names of the places' nodes are these letters.
fn reads(alloc: Global, arena: &Arena, paths: &Paths, letters: &str) -> Option<bool> {
    let list = paths.as_slice();
    let wanted = letters.as_bytes();
    if list.len() != wanted.len() {
        return Some(false);
    }
    for at in 0..list.len() {
        if list[at].number() >= arena.places() {
            return None;
        }
        let node = arena.node_at(list[at])?;
        let letter = Units::new(vec![in alloc; u16::from(wanted[at])].ok()?);
        if !matches(arena, node, &field(alloc, "name", Pattern::Text(letter))?) {
            return Some(false);
        }
    }
    Some(true)
}

// Whether the names of the whole program are these letters.
fn names(alloc: Global, arena: &Arena, letters: &str) -> Option<bool> {
    let all = found(alloc, arena, NAMES, &Pattern::Any)?;
    reads(alloc, arena, &all, letters)
}

// Anything, or a node of this name.
fn named(alloc: Global, name: &str) -> Option<Pattern> {
    if name.is_empty() {
        return Some(Pattern::Any);
    }
    text_field(alloc, "name", name)
}

// Whether `find` and `filter` by a name give these letters of the names.
fn finds(alloc: Global, arena: &Arena, name: &str, letters: &str) -> Option<bool> {
    let pattern = named(alloc, name)?;
    let one = found(alloc, arena, NAMES, &pattern)?;
    let all = found(alloc, arena, NAMES, &Pattern::Any)?;
    let kept = filter(alloc, arena, &all, &pattern).ok()?;
    Some(reads(alloc, arena, &one, letters)? && reads(alloc, arena, &kept, letters)?)
}

// Whether `at` gives these letters of the names.
fn stands_at(alloc: Global, arena: &Arena, index: i64, letters: &str) -> Option<bool> {
    let all = found(alloc, arena, NAMES, &Pattern::Any)?;
    reads(alloc, arena, &at(alloc, &all, index).ok()?, letters)
}

// How many nearest ancestors of the type all names have.
fn above(alloc: Global, arena: &Arena, of: NodeType) -> Option<usize> {
    let all = found(alloc, arena, NAMES, &Pattern::Any)?;
    Some(closest(alloc, arena, &all, of, &Pattern::Any).ok()?.len())
}

// How many nodes are visited below a statement to tell whether the left operand has this name.
fn visited(alloc: Global, arena: &Arena, name: &str) -> Option<u64> {
    let left = field(alloc, "left", text_field(alloc, "name", name)?)?;
    let pattern = field(alloc, "expression", field(alloc, "right", left)?)?;
    let statements = found(alloc, arena, STATEMENTS, &Pattern::Any)?;
    let first = statements.as_slice().first().copied()?;
    if first.number() >= arena.places() {
        return None;
    }
    Some(reached(arena, arena.node_at(first)?, &pattern))
}

#[test]
fn finds_in_the_order_of_the_source(rt: HostRuntime) -> Result<(), Fail> {
    let alloc = rt.alloc();
    let mut arena = Arena::new(alloc)?;
    assert!(rt; program(alloc, &mut arena).is_some());
    for (name, letters) in [("", "xabycd"), ("a", "a"), ("q", "")] {
        assert!(rt;
            finds(alloc, &arena, name, letters) == Some(true),
            "named {name}"
        );
    }
    for (index, letters) in [(0, "x"), (2, "b"), (6, ""), (-1, "d"), (-6, "x"), (-7, "")] {
        assert!(rt;
            stands_at(alloc, &arena, index, letters) == Some(true),
            "at {index}"
        );
    }
    assert!(rt; above(alloc, &arena, NodeType::Kind(Kind::BinaryExpression)) == Some(2));
    assert!(rt; above(alloc, &arena, STATEMENTS) == Some(2));
    assert!(rt; visited(alloc, &arena, "a") == Some(3));
    assert!(rt; visited(alloc, &arena, "q") == Some(3));
    Ok(())
}

// What is changed at paths.
#[derive(Clone, Copy, Debug, PartialEq, Eq)]
enum Change {
    Replace,
    Before,
    After,
    Remove,
}

// The node that a change takes: a name, or a statement of a name.
fn changing(alloc: Global, arena: &mut Arena, change: Change, letter: &str) -> Option<NodeId> {
    if change == Change::Replace {
        return made(alloc, arena, Kind::Identifier, letter);
    }
    let statement = made(alloc, arena, Kind::ExpressionStatement, "")?;
    grow(alloc, arena, statement, 0, Kind::Identifier, letter)?;
    Some(statement)
}

fn change_at(
    alloc: Global,
    arena: &mut Arena,
    change: Change,
    paths: &Paths,
    node: NodeId,
) -> Result<(), PathFault>
    requires { All (λ p. p < length arena.old.forest.places) paths.now }
{
    match change {
        Change::Replace => replace_with(alloc, arena, paths, &[node]),
        Change::Before => insert_before(alloc, arena, paths, &[node]),
        Change::After => insert_after(alloc, arena, paths, &[node]),
        Change::Remove => remove(arena, paths),
    }
}

// Makes the change at the places of the kind with this name, by a node of the letter.
fn changed(
    alloc: Global,
    arena: &mut Arena,
    change: Change,
    kind: Kind,
    name: &str,
    letter: &str,
) -> Option<Result<(), PathFault>> {
    let node = changing(alloc, arena, change, letter)?;
    let paths = found(alloc, arena, NodeType::Kind(kind), &named(alloc, name)?)?;
    Some(change_at(alloc, arena, change, &paths, node))
}

// Makes the change at the first statement and then at the root place.
fn changed_at_the_root(
    alloc: Global,
    arena: &mut Arena,
    change: Change,
    letter: &str,
) -> Option<Result<(), PathFault>> {
    let node = changing(alloc, arena, change, letter)?;
    let statements = found(alloc, arena, STATEMENTS, &Pattern::Any)?;
    let first = statements.as_slice().first().copied()?;
    if first.number() >= arena.places() {
        return None;
    }
    let paths = Paths::from_slice(alloc, &[first, arena.root()]).ok()?;
    Some(change_at(alloc, arena, change, &paths, node))
}

#[test]
fn changes_in_the_order_of_the_paths(rt: HostRuntime) -> Result<(), Fail> {
    let alloc = rt.alloc();
    let mut arena = Arena::new(alloc)?;
    assert!(rt; program(alloc, &mut arena).is_some());
    let steps = [
        (Change::Replace, Kind::Identifier, "a", "q", "xqbycd"),
        (Change::Replace, Kind::Identifier, "", "z", "zzzzzz"),
        (
            Change::Before,
            Kind::ExpressionStatement,
            "",
            "e",
            "ezzzezzz",
        ),
        (
            Change::After,
            Kind::ExpressionStatement,
            "",
            "f",
            "efzzzfefzzzf",
        ),
        (Change::Remove, Kind::Identifier, "e", "", "fzzzffzzzf"),
    ];
    for (change, kind, name, letter, letters) in steps {
        assert!(rt; changed(alloc, &mut arena, change, kind, name, letter) == Some(Ok(())));
        assert!(rt; names(alloc, &arena, letters) == Some(true), "{letters}");
    }
    // At the root place nothing is inserted; what was done before stays.
    for (change, letters) in [
        (Change::Before, "gfzzzffzzzf"),
        (Change::After, "ggfzzzffzzzf"),
    ] {
        let refused = changed_at_the_root(alloc, &mut arena, change, "g");
        assert!(rt; refused == Some(Err(PathFault::NotInList)));
        assert!(rt; names(alloc, &arena, letters) == Some(true), "{letters}");
    }
    Ok(())
}

#[test]
fn fields_of_a_name(rt: HostRuntime) -> Result<(), Fail> {
    let alloc = rt.alloc();
    let mut arena = Arena::new(alloc)?;
    let node = made(alloc, &mut arena, Kind::Identifier, "a").expect(&rt, "a name");
    for (name, text, wanted) in [
        ("name", "a", true),
        ("name", "b", false),
        ("type", "Identifier", true),
    ] {
        let pattern = text_field(alloc, name, text).expect(&rt, "a pattern");
        assert!(rt; matches(&arena, node, &pattern) == wanted, "{name} {text}");
    }
    Ok(())
}

#[test]
fn the_root_has_nothing_above_it(rt: HostRuntime) -> Result<(), Fail> {
    let arena = Arena::new(rt.alloc())?;
    let root = Paths::from_slice(rt.alloc(), &[arena.root()])?;
    assert_eq!(rt;
        closest(rt.alloc(), &arena, &root, NAMES, &Pattern::Any)?.len(),
        0
    );
    Ok(())
}
