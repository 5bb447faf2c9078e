//! Leaves made by hand, each with a text, a stretch and whether that spells it.

use cm_text::Source;
use leaf_spellings::is_spelled;
use sqlite_items::Items;
use std::alloc::{AllocError, Global};
use std::test::Fail;
use tree_core::{Place, Scalar, Scalars, Slot, Span, Tree, Units};
use type_defs::Kind;

#[derive(Clone, Copy)]
enum Value {
    Text(&'static str),
    Truth(bool),
    Null,
}

/// A text, where the stretch begins and ends, a kind, scalars, and whether they are spelled.
type Case = (&'static str, u32, u32, Kind, &'static [Value], bool);

const NAMES: [Case; 11] = [
    ("a ab", 2, 4, Kind::Identifier, &[Value::Text("ab")], true),
    ("a ab", 1, 4, Kind::Identifier, &[Value::Text("ab")], false),
    ("abc", 0, 2, Kind::Identifier, &[Value::Text("ab")], false),
    ("ab", 0, 2, Kind::Identifier, &[Value::Text("ac")], false),
    ("ab", 0, 2, Kind::Identifier, &[], false),
    (
        "\\u{61}b",
        0,
        7,
        Kind::Identifier,
        &[Value::Text("ab")],
        true,
    ),
    (
        "\u{E9}if",
        0,
        4,
        Kind::Identifier,
        &[Value::Text("\u{E9}if")],
        true,
    ),
    ("if", 0, 2, Kind::Identifier, &[Value::Text("if")], true),
    ("ab", 0, 2, Kind::ClassBody, &[Value::Text("ab")], false),
    (
        "#ab",
        0,
        3,
        Kind::PrivateIdentifier,
        &[Value::Text("ab")],
        true,
    ),
    (
        "ab",
        0,
        2,
        Kind::PrivateIdentifier,
        &[Value::Text("ab")],
        false,
    ),
];

const STRING: Value = Value::Text("string");

const NUMBER: Value = Value::Text("number");

const BIG_INT: Value = Value::Text("bigint");

const TRUTH: Value = Value::Text("boolean");

const NONE: Value = Value::Text("null");

const PATTERN: Value = Value::Text("regexp");

const LITERALS: [Case; 17] = [
    (
        "'a'",
        0,
        3,
        Kind::Literal,
        &[STRING, Value::Text("a"), Value::Null],
        true,
    ),
    (
        "'a'",
        0,
        3,
        Kind::Literal,
        &[STRING, Value::Text("'a'"), Value::Null],
        false,
    ),
    (
        "'\\x41\\\n\u{E9}'",
        0,
        10,
        Kind::Literal,
        &[STRING, Value::Text("A\u{E9}"), Value::Null],
        true,
    ),
    (
        "0x1f",
        0,
        4,
        Kind::Literal,
        &[NUMBER, Value::Text("0x1f"), Value::Null],
        true,
    ),
    (
        "0x1f",
        0,
        4,
        Kind::Literal,
        &[NUMBER, Value::Text("31"), Value::Null],
        false,
    ),
    (
        "10",
        0,
        2,
        Kind::Literal,
        &[BIG_INT, Value::Text("10"), Value::Null],
        false,
    ),
    (
        "10n",
        0,
        3,
        Kind::Literal,
        &[BIG_INT, Value::Text("10n"), Value::Null],
        true,
    ),
    (
        "10n",
        0,
        3,
        Kind::Literal,
        &[NUMBER, Value::Text("10n"), Value::Null],
        false,
    ),
    (
        "/[/]/gu",
        0,
        7,
        Kind::Literal,
        &[PATTERN, Value::Text("[/]"), Value::Text("gu")],
        true,
    ),
    (
        "/=/",
        0,
        3,
        Kind::Literal,
        &[PATTERN, Value::Text("="), Value::Text("")],
        true,
    ),
    (
        "/a/g",
        0,
        4,
        Kind::Literal,
        &[PATTERN, Value::Text("a"), Value::Text("")],
        false,
    ),
    (
        "/a/g",
        0,
        4,
        Kind::Literal,
        &[PATTERN, Value::Text("a/"), Value::Text("g")],
        false,
    ),
    (
        "true",
        0,
        4,
        Kind::Literal,
        &[TRUTH, Value::Truth(true), Value::Null],
        true,
    ),
    (
        "true",
        0,
        4,
        Kind::Literal,
        &[TRUTH, Value::Truth(false), Value::Null],
        false,
    ),
    (
        "false",
        0,
        5,
        Kind::Literal,
        &[TRUTH, Value::Truth(false), Value::Null],
        true,
    ),
    (
        "null",
        0,
        4,
        Kind::Literal,
        &[NONE, Value::Null, Value::Null],
        true,
    ),
    (
        "nulls",
        0,
        5,
        Kind::Literal,
        &[NONE, Value::Null, Value::Null],
        false,
    ),
];

const WORDS: [Case; 7] = [
    ("this", 0, 4, Kind::ThisExpression, &[], true),
    ("that", 0, 4, Kind::ThisExpression, &[], false),
    ("super", 0, 5, Kind::Super, &[], true),
    (
        "new . target",
        0,
        12,
        Kind::MetaProperty,
        &[Value::Text("new.target")],
        true,
    ),
    (
        "new.target",
        0,
        10,
        Kind::MetaProperty,
        &[Value::Text("import.meta")],
        false,
    ),
    (
        "import.meta",
        0,
        11,
        Kind::MetaProperty,
        &[Value::Text("import.meta")],
        true,
    ),
    (
        "import.meta",
        0,
        7,
        Kind::MetaProperty,
        &[Value::Text("import.meta")],
        false,
    ),
];

const STATEMENTS: [Case; 15] = [
    (";", 0, 1, Kind::EmptyStatement, &[], true),
    (",", 0, 1, Kind::EmptyStatement, &[], false),
    ("debugger", 0, 8, Kind::DebuggerStatement, &[], true),
    ("debugger;", 0, 9, Kind::DebuggerStatement, &[], true),
    ("debugger ;", 0, 8, Kind::DebuggerStatement, &[], false),
    ("debugger x", 0, 8, Kind::DebuggerStatement, &[], false),
    ("debugger\n+x", 0, 8, Kind::DebuggerStatement, &[], true),
    (
        "{'\\n'}",
        1,
        5,
        Kind::Directive,
        &[Value::Text("\\n")],
        true,
    ),
    ("'a' ;", 0, 5, Kind::Directive, &[Value::Text("a")], true),
    ("'a'\nb", 0, 3, Kind::Directive, &[Value::Text("a")], true),
    ("'a'\n+b", 0, 3, Kind::Directive, &[Value::Text("a")], false),
    ("'a' b", 0, 3, Kind::Directive, &[Value::Text("a")], false),
    ("'a'", 0, 3, Kind::Directive, &[Value::Text("b")], false),
    ("'a'\n++b", 0, 3, Kind::Directive, &[Value::Text("a")], true),
    ("a", 0, 1, Kind::Directive, &[Value::Text("a")], false),
];

const CHARACTERS: [Case; 5] = [
    (
        "`a\\n\r\nb`",
        1,
        7,
        Kind::TemplateElement,
        &[Value::Text("a\\n\nb")],
        true,
    ),
    ("``", 1, 1, Kind::TemplateElement, &[Value::Text("")], true),
    (
        "`a`",
        0,
        3,
        Kind::TemplateElement,
        &[Value::Text("a")],
        false,
    ),
    (
        "`ab`",
        1,
        3,
        Kind::TemplateElement,
        &[Value::Text("ac")],
        false,
    ),
    ("`ab`", 1, 3, Kind::TemplateElement, &[], false),
];

fn source_of(alloc: Global, text: &str) -> Result<Source, Fail> {
    Ok(Source::new(Vec::from_slice(alloc, text.as_bytes())?)?)
}

fn units_of(alloc: Global, text: &str) -> Result<Units, AllocError> {
    let mut units = Vec::new(alloc);
    for unit in text.encode_utf16() {
        units.push(unit)?;
    }
    Ok(Units::new(units))
}

fn leaf(alloc: Global, kind: Kind, values: &[Value]) -> Result<Tree, AllocError> {
    let mut scalars = Scalars::new();
    for value in values {
        let scalar = match value {
            Value::Text(text) => Scalar::Text(units_of(alloc, text)?),
            Value::Truth(truth) => Scalar::Truth(*truth),
            Value::Null => Scalar::Null,
        };
        scalars = scalars.with(alloc, scalar)?;
    }
    Ok(Tree::new(kind, scalars, Items::new(alloc)))
}

// Whether the case comes out as wanted.
fn comes_out(alloc: Global, case: &Case) -> Result<bool, Fail> {
    let (text, start, end, kind, values, wanted) = *case;
    let source = source_of(alloc, text)?;
    if start > end || end as usize > source.bytes().len() {
        return Ok(false);
    }
    let tree = leaf(alloc, kind, values)?;
    Ok(is_spelled(alloc, &source, Span { start, end }, &tree)? == wanted)
}

#[test]
fn tells_names(rt: HostRuntime) -> Result<(), Fail> {
    for case in NAMES.iter() {
        assert!(rt; comes_out(rt.alloc(), case)?, "for {}", case.0);
    }
    Ok(())
}

#[test]
fn tells_literals(rt: HostRuntime) -> Result<(), Fail> {
    for case in LITERALS.iter() {
        assert!(rt; comes_out(rt.alloc(), case)?, "for {}", case.0);
    }
    Ok(())
}

#[test]
fn tells_words(rt: HostRuntime) -> Result<(), Fail> {
    for case in WORDS.iter() {
        assert!(rt; comes_out(rt.alloc(), case)?, "for {}", case.0);
    }
    Ok(())
}

#[test]
fn tells_statements(rt: HostRuntime) -> Result<(), Fail> {
    for case in STATEMENTS.iter() {
        assert!(rt; comes_out(rt.alloc(), case)?, "for {}", case.0);
    }
    Ok(())
}

#[test]
fn tells_characters(rt: HostRuntime) -> Result<(), Fail> {
    for case in CHARACTERS.iter() {
        assert!(rt; comes_out(rt.alloc(), case)?, "for {}", case.0);
    }
    Ok(())
}

#[test]
fn leaves_the_rest(rt: HostRuntime) -> Result<(), Fail> {
    let alloc = rt.alloc();
    let source = source_of(alloc, "'\\uD83D'")?;
    let mut half = leaf(alloc, Kind::Literal, &[])?;
    let units = Units::new(vec![in alloc; 0xD83D]?);
    half.scalars = Scalars::one(Scalar::Text(units_of(alloc, "string")?))
        .with(alloc, Scalar::Text(units))?
        .with(alloc, Scalar::Null)?;
    assert!(rt; source.bytes().len() == 8);
    assert!(rt; is_spelled(alloc, &source, Span { start: 0, end: 8 }, &half)?);
    let mut slots = Items::new(alloc);
    slots.push(Slot::single(Place::filled(alloc, half)?))?;
    let tree = Tree::new(Kind::ClassBody, Scalars::new(), slots);
    assert!(rt; is_spelled(alloc, &source, Span { start: 0, end: 0 }, &tree)?);
    Ok(())
}
