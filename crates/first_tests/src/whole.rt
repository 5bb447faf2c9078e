//! Renames: of sources of the first grammar, and of trees made by hand where the new name is a word.

use cm_text::Source;
use first_grammar::parse;
use source_rename::{RenameError, rename};
use sqlite_items::Items;
use std::alloc::{AllocError, Global};
use std::test::Fail;
use tree_core::{Parsed, Place, Scalar, Scalars, Slot, Span, Tree, Units};
use type_defs::Kind;

/// A source, the old name, the new one, and the new text.
const RENAMES: [(&str, &str, &str, &str); 4] = [
    ("foo(a, b);", "a", "b", "foo(b, b);"),
    ("a.a = f(a);", "a", "get", "get.get = f(get);"),
    ("  ab .a=\n a ;a;", "a", "from", "  ab .from=\n from ;from;"),
    ("x = y;", "z", "async", "x = y;"),
];

/// A source, the kind of a node that begins with the name `a`, where that stands, the new name, and
/// the new text.
const WORDS: [(&str, Kind, u32, &str, &str); 6] = [
    (
        "for (a of x);",
        Kind::ForOfStatement,
        5,
        "async",
        "for ((async) of x);",
    ),
    (
        "for ((a) of x);",
        Kind::ForOfStatement,
        6,
        "async",
        "for ((async) of x);",
    ),
    (
        "for (a of x);",
        Kind::ForInStatement,
        5,
        "async",
        "for (async of x);",
    ),
    (
        "a // c\n b() {}",
        Kind::PropertyDefinition,
        0,
        "get",
        "get; // c\n b() {}",
    ),
    (
        "a\n *b() {}",
        Kind::PropertyDefinition,
        0,
        "set",
        "set\n *b() {}",
    ),
    (
        "a\n *b() {}",
        Kind::PropertyDefinition,
        0,
        "static",
        "static;\n *b() {}",
    ),
];

fn source_of(alloc: Global, text: &str) -> Result<Source, Fail> {
    Ok(Source::new(Vec::from_slice(alloc, text.as_bytes())?)?)
}

// The name `a`, as the node of this number.
fn named(alloc: Global, number: u32) -> Result<Place, AllocError> {
    let text = Scalars::one(Scalar::Text(Units::new(vec![in alloc; 97]?)));
    let mut name = Tree::new(Kind::Identifier, text, Items::new(alloc));
    name.from = Some(number);
    Place::filled(alloc, name)
}

// A node of the kind, of number 0, over the name `a`, of number 1.
fn over_name(alloc: Global, kind: Kind, scalars: Scalars) -> Result<Tree, AllocError> {
    let mut slots = Items::new(alloc);
    slots.push(Slot::single(named(alloc, 1)?))?;
    let mut tree = Tree::new(kind, scalars, slots);
    tree.from = Some(0);
    Ok(tree)
}

fn parsed(alloc: Global, tree: Tree, spans: &[Span]) -> Result<Parsed, AllocError> {
    Ok(Parsed {
        tree,
        spans: Items::from_slice(alloc, spans)?,
        comments: Items::new(alloc),
    })
}

#[test]
fn renames(rt: HostRuntime) -> Result<(), Fail> {
    let alloc = rt.alloc();
    for (text, old, new, wanted) in RENAMES.iter() {
        let source = source_of(alloc, text)?;
        assert!(rt; source.bytes().len() <= 2_097_152);
        if let Ok(tree) = parse(alloc, source.bytes()) {
            let out = rename(alloc, &source, &tree, old.as_bytes(), new.as_bytes())?;
            assert!(rt; out.as_slice() == wanted.as_bytes(), "for {wanted}");
        }
    }
    for (text, kind, start, new, wanted) in WORDS.iter() {
        let source = source_of(alloc, text)?;
        let no = Scalars::one(Scalar::Truth(false)).with(alloc, Scalar::Truth(false))?;
        let tree = over_name(alloc, *kind, no)?;
        let (start, end) = (*start, start.saturating_add(1));
        let spans = [Span { start: 0, end }, Span { start, end }];
        let tree = parsed(alloc, tree, &spans)?;
        let out = rename(alloc, &source, &tree, b"a".as_slice(), new.as_bytes())?;
        assert!(rt; out.as_slice() == wanted.as_bytes(), "for {wanted}");
    }
    Ok(())
}

// A list of an export of no names, of number 1, and the name `a`, of number 2.
fn export_and_name(alloc: Global) -> Result<Tree, AllocError> {
    let nothing = || Place {
        name: None,
        node: None,
    };
    let mut slots = Items::new(alloc);
    slots.push(Slot::single(nothing()))?;
    slots.push(Slot::list(Items::new(alloc)))?;
    slots.push(Slot::single(nothing()))?;
    let mut export = Tree::new(Kind::ExportNamedDeclaration, Scalars::new(), slots);
    export.from = Some(1);
    let mut items = Items::new(alloc);
    items.push(Place::filled(alloc, export)?)?;
    items.push(named(alloc, 2)?)?;
    let mut slots = Items::new(alloc);
    slots.push(Slot::list(items))?;
    Ok(Tree::new(Kind::Program, Scalars::new(), slots))
}

#[test]
fn ends_an_export(rt: HostRuntime) -> Result<(), Fail> {
    let alloc = rt.alloc();
    let source = source_of(alloc, "export {} // c\na")?;
    let spans = [
        Span { start: 0, end: 16 },
        Span { start: 0, end: 9 },
        Span { start: 15, end: 16 },
    ];
    let tree = parsed(alloc, export_and_name(alloc)?, &spans)?;
    let out = rename(alloc, &source, &tree, b"a".as_slice(), b"from".as_slice())?;
    assert!(rt; out.as_slice() == b"export {}; // c\nfrom".as_slice());
    Ok(())
}

#[test]
fn refuses_a_constructor(rt: HostRuntime) -> Result<(), Fail> {
    let alloc = rt.alloc();
    let source = source_of(alloc, "a() {}")?;
    let method = Units::new(vec![in alloc; 109, 101, 116, 104, 111, 100]?);
    let scalars = Scalars::one(Scalar::Text(method))
        .with(alloc, Scalar::Truth(false))?
        .with(alloc, Scalar::Truth(false))?;
    let tree = over_name(alloc, Kind::MethodDefinition, scalars)?;
    let tree = parsed(alloc, tree, &[Span { start: 0, end: 6 }])?;
    let result = rename(
        alloc,
        &source,
        &tree,
        b"a".as_slice(),
        b"constructor".as_slice(),
    );
    let is_refused = match &result {
        Err(RenameError::BadMethod(address)) => address.steps().is_empty(),
        _ => false,
    };
    assert!(rt; is_refused);
    Ok(())
}
