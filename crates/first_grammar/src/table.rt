//! The table of forms: how each kind is spelled. Everything else interprets it.

ghost use Rattle.std.specs.Prelude.{◌≡◌, IfOk};
ghost use Rattle.first_grammar.specs.Table as spec;

use std::alloc::{AllocError, Global};
use tree_core::{Scalar, Scalars, Units};
use type_defs::Kind as NodeKind;

/// The kinds of ESTree in the first grammar. A name is two rows: as an expression it is no
/// reserved word, after a dot it may be any.
#[derive(Clone, Copy, Debug, PartialEq, Eq)]
pub enum Kind {
    Identifier,
    PropertyName,
    Member,
    Call,
    Assignment,
    Program,
    ExpressionStatement,
}

/// The tokens of the first grammar, and one for all that begins none.
#[derive(Clone, Copy, Debug, PartialEq, Eq)]
pub enum Word {
    End,
    Name,
    Reserved,
    OpenParen,
    CloseParen,
    Comma,
    Dot,
    Assign,
    Semicolon,
    Other,
}

/// What a place takes.
#[derive(Clone, Copy, Debug, PartialEq, Eq)]
pub enum Category {
    Program,
    Statement,
    Expression,
    Target,
    Property,
}

/// A part of a form.
#[derive(Clone, Copy)]
pub enum Part {
    /// This token.
    Token(Word),
    /// A name that is no reserved word; its text is a scalar.
    Name,
    /// Any name; its text is a scalar.
    AnyName,
    /// A tree of this category and at least this level.
    Child(Category, u8),
    /// Trees with commas between them, up to this token.
    List(Category, u8, Word),
    /// Trees in a row, up to this token.
    Body(Category, Word),
}

#[tactic(auto, unfolding(crate::specs::Table::same_word))]
pub fn same_word(a: Word, b: Word) -> bool
    ensures { result ≡ spec.same_word a b }
{
    a == b
}

/// The kind of ESTree in a tree.
pub fn node_kind(kind: Kind) -> NodeKind
    ensures { result ≡ spec.node_kind kind }
{
    match kind {
        Kind::Identifier | Kind::PropertyName => NodeKind::Identifier,
        Kind::Member => NodeKind::MemberExpression,
        Kind::Call => NodeKind::CallExpression,
        Kind::Assignment => NodeKind::AssignmentExpression,
        Kind::Program => NodeKind::Program,
        Kind::ExpressionStatement => NodeKind::ExpressionStatement,
    }
}

/// The scalars that each node of the kind has before those that it spells: `computed` and
/// `optional` of a member, `optional` of a call, the operator, the interpreter of a program.
pub fn fixed(alloc: Global, kind: Kind) -> Result<Scalars, AllocError>
    ensures { IfOk result (λ scalars. scalars ≡ spec.fixed kind) }
{
    match kind {
        Kind::Member => Scalars::one(Scalar::Truth(false)).with(alloc, Scalar::Truth(false)),
        Kind::Call => Ok(Scalars::one(Scalar::Truth(false))),
        Kind::Assignment => {
            let operator = Units::of_bytes(alloc, b"=")?;
            Ok(Scalars::one(Scalar::Text(operator)))
        }
        Kind::Program => Ok(Scalars::one(Scalar::Null)),
        _ => Ok(Scalars::new()),
    }
}

/// How tightly the form binds: a place that wants a higher level does not take it.
pub fn level(kind: Kind) -> u8
    ensures { result ≡ spec.level kind }
{
    match kind {
        Kind::Identifier | Kind::PropertyName => 19,
        Kind::Member | Kind::Call => 17,
        Kind::Assignment => 1,
        Kind::Program | Kind::ExpressionStatement => 1,
    }
}

pub fn belongs(kind: Kind, category: Category) -> bool
    ensures { result ≡ spec.belongs kind category }
{
    match category {
        Category::Program => matches!(kind, Kind::Program),
        Category::Statement => matches!(kind, Kind::ExpressionStatement),
        Category::Expression => matches!(
            kind,
            Kind::Identifier | Kind::Member | Kind::Call | Kind::Assignment
        ),
        Category::Target => matches!(kind, Kind::Identifier | Kind::Member),
        Category::Property => matches!(kind, Kind::PropertyName),
    }
}

/// Whether a node of the kind is a whole text, with the blanks at its ends.
pub fn is_whole(kind: Kind) -> bool
    ensures { result ≡ spec.is_whole kind }
{
    matches!(kind, Kind::Program)
}

/// The form's parts, without the first child and token where it begins with these.
pub fn tail(kind: Kind) -> &'static [Part]
    ensures { result.now ≡ spec.tail kind }
{
    match kind {
        Kind::Identifier => &[Part::Name],
        Kind::PropertyName => &[Part::AnyName],
        Kind::Member => &[Part::Child(Category::Property, 1)],
        Kind::Call => &[
            Part::List(Category::Expression, 1, Word::CloseParen),
            Part::Token(Word::CloseParen),
        ],
        Kind::Assignment => &[Part::Child(Category::Expression, 1)],
        Kind::Program => &[
            Part::Body(Category::Statement, Word::End),
            Part::Token(Word::End),
        ],
        Kind::ExpressionStatement => &[
            Part::Child(Category::Expression, 1),
            Part::Token(Word::Semicolon),
        ],
    }
}

/// The kind whose form goes on from its first child with this token.
pub fn led_by(word: Word) -> Option<Kind>
    ensures { result ≡ spec.led_by word }
{
    match word {
        Word::OpenParen => Some(Kind::Call),
        Word::Dot => Some(Kind::Member),
        Word::Assign => Some(Kind::Assignment),
        _ => None,
    }
}

/// What the first child of a form is, where the form begins with one.
pub fn left(kind: Kind) -> (Category, u8)
    ensures { result ≡ spec.left kind }
{
    match kind {
        Kind::Assignment => (Category::Target, 17),
        _ => (Category::Expression, 17),
    }
}

/// The kind of the form that begins with this token, at a place of this category.
pub fn begun_by(category: Category, word: Word) -> Option<Kind>
    ensures { result ≡ spec.begun_by category word }
{
    match category {
        Category::Program => Some(Kind::Program),
        Category::Statement => match word {
            Word::Name => Some(Kind::ExpressionStatement),
            _ => None,
        },
        Category::Property => match word {
            Word::Name => Some(Kind::PropertyName),
            Word::Reserved => Some(Kind::PropertyName),
            _ => None,
        },
        _ => match word {
            Word::Name => Some(Kind::Identifier),
            _ => None,
        },
    }
}
