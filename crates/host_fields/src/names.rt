//! The names that the host knows: views, which read otherwise than by the table of kinds, and the
//! methods of each sort of value. A script's words begin with them, in this order.

use crate::method::{CollectionMethod, ItemsMethod, Method, PathMethod, ScopeMethod, has_method};
use script_values::{Value, Word};
use std::alloc::{AllocError, Global};
use tree_core::Units;
use value_methods::{ListMethod, TextMethod};

/// A name that reads otherwise than by the table of kinds, or that the host sets as a key or a
/// text.
#[derive(Clone, Copy, Debug, PartialEq, Eq)]
pub enum View {
    Length,
    Type,
    Comments,
    Value,
    Raw,
    Regex,
    Bigint,
    Expression,
    Node,
    Parent,
    Scope,
    IsGlobal,
    Path,
    Match,
    CommentLine,
    CommentBlock,
    Leading,
    Trailing,
    Pattern,
    Flags,
    LineType,
    BlockType,
}

/// The views by their names, in the order of the enum.
pub const VIEWS: &[(&str, View)] = &[
    ("length", View::Length),
    ("type", View::Type),
    ("comments", View::Comments),
    ("value", View::Value),
    ("raw", View::Raw),
    ("regex", View::Regex),
    ("bigint", View::Bigint),
    ("expression", View::Expression),
    ("node", View::Node),
    ("parent", View::Parent),
    ("scope", View::Scope),
    ("isGlobal", View::IsGlobal),
    ("path", View::Path),
    ("match", View::Match),
    ("commentLine", View::CommentLine),
    ("commentBlock", View::CommentBlock),
    ("leading", View::Leading),
    ("trailing", View::Trailing),
    ("pattern", View::Pattern),
    ("flags", View::Flags),
    ("CommentLine", View::LineType),
    ("CommentBlock", View::BlockType),
];

/// A name with the methods that it calls, of which a value has at most one.
pub type MethodRow = (&'static str, &'static [Method]);

/// The methods by their names. A method is a row, or one more in the row of its name, and a function.
pub const METHODS: &[MethodRow] = &[
    (
        "find",
        &[
            Method::Collection(CollectionMethod::Find),
            Method::Items(ItemsMethod::Find),
        ],
    ),
    (
        "filter",
        &[
            Method::Collection(CollectionMethod::Filter),
            Method::Items(ItemsMethod::Filter),
        ],
    ),
    (
        "forEach",
        &[
            Method::Collection(CollectionMethod::ForEach),
            Method::Items(ItemsMethod::ForEach),
        ],
    ),
    (
        "map",
        &[
            Method::Collection(CollectionMethod::Map),
            Method::Items(ItemsMethod::Map),
        ],
    ),
    (
        "some",
        &[
            Method::Collection(CollectionMethod::Some),
            Method::Items(ItemsMethod::Some),
        ],
    ),
    (
        "every",
        &[
            Method::Collection(CollectionMethod::Every),
            Method::Items(ItemsMethod::Every),
        ],
    ),
    ("size", &[Method::Collection(CollectionMethod::Size)]),
    ("at", &[Method::Collection(CollectionMethod::At)]),
    (
        "get",
        &[
            Method::Collection(CollectionMethod::Get),
            Method::Path(PathMethod::Get),
        ],
    ),
    ("paths", &[Method::Collection(CollectionMethod::Paths)]),
    ("nodes", &[Method::Collection(CollectionMethod::Nodes)]),
    ("closest", &[Method::Collection(CollectionMethod::Closest)]),
    (
        "closestScope",
        &[Method::Collection(CollectionMethod::ClosestScope)],
    ),
    (
        "replaceWith",
        &[Method::Collection(CollectionMethod::ReplaceWith)],
    ),
    (
        "insertBefore",
        &[
            Method::Collection(CollectionMethod::InsertBefore),
            Method::Path(PathMethod::InsertBefore),
        ],
    ),
    (
        "insertAfter",
        &[
            Method::Collection(CollectionMethod::InsertAfter),
            Method::Path(PathMethod::InsertAfter),
        ],
    ),
    ("remove", &[Method::Collection(CollectionMethod::Remove)]),
    (
        "isOfType",
        &[Method::Collection(CollectionMethod::IsOfType)],
    ),
    (
        "toSource",
        &[Method::Collection(CollectionMethod::ToSource)],
    ),
    (
        "replace",
        &[
            Method::Path(PathMethod::Replace),
            Method::Text(TextMethod::Replace),
        ],
    ),
    ("prune", &[Method::Path(PathMethod::Prune)]),
    ("lookup", &[Method::Scope(ScopeMethod::Lookup)]),
    ("declares", &[Method::Scope(ScopeMethod::Declares)]),
    ("getBindings", &[Method::Scope(ScopeMethod::GetBindings)]),
    ("check", &[Method::Check]),
    ("charAt", &[Method::Text(TextMethod::CharAt)]),
    (
        "indexOf",
        &[
            Method::Text(TextMethod::IndexOf),
            Method::List(ListMethod::IndexOf),
        ],
    ),
    (
        "includes",
        &[
            Method::Text(TextMethod::Includes),
            Method::List(ListMethod::Includes),
        ],
    ),
    ("startsWith", &[Method::Text(TextMethod::StartsWith)]),
    ("endsWith", &[Method::Text(TextMethod::EndsWith)]),
    (
        "slice",
        &[
            Method::Text(TextMethod::Slice),
            Method::List(ListMethod::Slice),
        ],
    ),
    ("split", &[Method::Text(TextMethod::Split)]),
    ("trim", &[Method::Text(TextMethod::Trim)]),
    (
        "concat",
        &[
            Method::Text(TextMethod::Concat),
            Method::List(ListMethod::Concat),
        ],
    ),
    ("push", &[Method::List(ListMethod::Push)]),
    ("pop", &[Method::List(ListMethod::Pop)]),
    ("shift", &[Method::List(ListMethod::Shift)]),
    ("unshift", &[Method::List(ListMethod::Unshift)]),
    ("join", &[Method::List(ListMethod::Join)]),
    ("reverse", &[Method::List(ListMethod::Reverse)]),
    ("reduce", &[Method::Items(ItemsMethod::Reduce)]),
];

fn view_rows() -> &'static [(&'static str, View)] {
    VIEWS
}

fn method_rows() -> &'static [MethodRow] {
    METHODS
}

fn add_names(alloc: Global, names: &mut Vec<Units>) -> Result<(), AllocError> {
    for row in view_rows() {
        names.push(Units::of_bytes(alloc, row.0.as_bytes())?)?;
    }
    Ok(())
}

fn add_methods(alloc: Global, names: &mut Vec<Units>) -> Result<(), AllocError> {
    for row in method_rows() {
        names.push(Units::of_bytes(alloc, row.0.as_bytes())?)?;
    }
    Ok(())
}

/// The names that the host knows, in the order of their words. They differ from each other, and a
/// heap that a host is made with has them as its first words.
pub fn known_names(alloc: Global) -> Result<Vec<Units>, AllocError> {
    let mut names = Vec::new(alloc);
    add_names(alloc, &mut names)?;
    add_methods(alloc, &mut names)?;
    Ok(names)
}

/// The view whose name is the word.
pub fn view_at(word: Word) -> Option<View> {
    let place = word.number() as usize;
    let rows = view_rows();
    if place < rows.len() {
        return Some(rows[place].1);
    }
    None
}

/// The word that is the view's name.
pub fn view_word(view: View) -> Word {
    Word::numbered(view as u32)
}

// The first of these methods that the value has.
fn first_of(methods: &[Method], value: &Value) -> Option<Method> {
    for method in methods {
        if has_method(value, *method) {
            return Some(*method);
        }
    }
    None
}

/// The method of a value that the word calls.
pub fn method_at(value: &Value, word: Word) -> Option<Method> {
    let number = word.number() as usize;
    let views = view_rows().len();
    if number < views {
        return None;
    }
    let rows = method_rows();
    let place = number - views;
    if place >= rows.len() {
        return None;
    }
    first_of(rows[place].1, value)
}
