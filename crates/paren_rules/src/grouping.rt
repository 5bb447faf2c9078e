//! Grouping parentheses (ECMA-262, clauses 13.2 to 13.16, 14.5, 14.7 and 16.2.3).

ghost use Rattle.std.specs.Prelude.{◌≡◌};
ghost use Rattle.std.specs.Option.{option_copied, option_map};
ghost use Rattle.tree_core.specs.View.{syntax};
ghost use Rattle.paren_rules.specs.Grouping as spec;

use js_forms::{ASSIGNMENT, CALL, Category, Context, Form, Left, Place, first_child};
use tree_core::Tree;
use tree_forms::{child, is_expression, takes_groups};
use type_defs::Kind;

/// What the child's first token would be the first of.
#[derive(Clone, Copy, Debug, PartialEq, Eq)]
pub enum Start {
    /// None of these.
    Inside,
    /// An expression statement: no function, class or object stands there.
    Statement,
    /// What is exported by default: no function or class.
    Default,
    /// An arrow's body: no object.
    ArrowBody,
}

/// A place for a child, with what surrounds it.
#[derive(Clone, Copy, Debug, PartialEq, Eq)]
pub struct Spot {
    /// The form of the node that has the place.
    pub owner: Option<Form>,
    pub place: Place,
    pub context: Context,
    pub start: Start,
}

/// Whether the expression may stand in parentheses at the place; `optional` says that it is a link
/// of a chain with an optional link at or below it.
pub fn may_group(place: Place, tree: &Tree, optional: bool) -> bool
    ensures { result ≡ spec.may_group place (syntax tree.now) optional }
{
    takes_groups(place.category) && (is_expression(tree.kind) && !optional)
}

fn is_nullish(tree: &Tree) -> bool
    ensures { result ≡ spec.is_nullish (syntax tree.now) }
{
    matches!(tree.kind, Kind::LogicalExpression) && tree.scalars.is_text_at(0, "??")
}

fn is_super(kind: Kind) -> bool
    ensures { result ≡ spec.is_super kind }
{
    matches!(kind, Kind::Super)
}

fn is_too_loose_for(left: Left, tree: &Tree, level: u8) -> bool
    ensures { result ≡ spec.too_loose_for left (syntax tree.now) level }
{
    match left {
        Left::Level(least) => level < least,
        Left::Coalescing(least) => level < least && !is_nullish(tree),
        Left::Other(least) => level < least || is_nullish(tree),
        Left::Object => level < CALL && !is_super(tree.kind),
        Left::Simple => false,
    }
}

// The same of the first child of the form.
fn is_first_too_loose(owner: Option<Form>, tree: &Tree, level: u8) -> bool
    ensures { result ≡ spec.first_too_loose owner (syntax tree.now) level }
{
    match owner {
        None => false,
        Some(Form::Chain) => level < CALL,
        Some(form) => is_too_loose_for(first_child(form), tree, level),
    }
}

/// Whether the level of the expression, as it is spelled, is too low for the place, which a node of
/// this form has.
pub fn binds_too_loosely(owner: Option<Form>, place: Place, tree: &Tree, level: u8) -> bool
    ensures { result ≡ spec.binds_too_loosely owner place (syntax tree.now) level }
{
    match place.category {
        Category::Operand => is_first_too_loose(owner, tree, level),
        Category::Argument | Category::Element | Category::Cover | Category::ArrowBody => {
            level < place.least.max(ASSIGNMENT)
        }
        Category::Expression | Category::Callee | Category::ForInit => level < place.least,
        _ => false,
    }
}

fn is_function_or_class(kind: Kind) -> bool
    ensures { result ≡ spec.is_function_or_class kind }
{
    matches!(kind, Kind::FunctionExpression | Kind::ClassExpression)
}

fn is_object_pattern(tree: Option<&Tree>) -> bool
    ensures { result ≡ spec.is_object_pattern (option_map syntax (option_copied tree.entry)) }
{
    match tree {
        Some(tree) => matches!(tree.kind, Kind::ObjectPattern),
        None => false,
    }
}

fn begins_with_brace(tree: &Tree) -> bool
    ensures { result ≡ spec.begins_with_brace (syntax tree.now) }
{
    matches!(tree.kind, Kind::ObjectExpression)
        || (matches!(tree.kind, Kind::AssignmentExpression) && is_object_pattern(child(tree, 0)))
}

// Whether no such expression may stand bare where its first token is the first of that.
fn starts_badly(start: Start, tree: &Tree) -> bool
    ensures { result ≡ spec.starts_badly start (syntax tree.now) }
{
    match start {
        Start::Inside => false,
        Start::Statement => is_function_or_class(tree.kind) || begins_with_brace(tree),
        Start::Default => is_function_or_class(tree.kind),
        Start::ArrowBody => begins_with_brace(tree),
    }
}

fn is_in(tree: &Tree) -> bool
    ensures { result ≡ spec.is_in (syntax tree.now) }
{
    matches!(tree.kind, Kind::BinaryExpression) && tree.scalars.is_text_at(0, "in")
}

fn is_for_of(owner: Option<Form>) -> bool
    ensures { result ≡ spec.is_for_of owner }
{
    matches!(owner, Some(Form::ForOf))
}

// The bare name `async` before `of`, where the loop awaits nothing.
fn is_async_of(spot: Spot, tree: &Tree) -> bool
    ensures { result ≡ spec.is_async_of spot (syntax tree.now) }
{
    is_for_of(spot.owner)
        && (matches!(spot.place.category, Category::ForLeft)
            && (matches!(tree.kind, Kind::Identifier) && tree.scalars.is_text_at(0, "async")))
}

fn is_statement(owner: Option<Form>) -> bool
    ensures { result ≡ spec.is_statement owner }
{
    matches!(owner, Some(Form::ExpressionStatement))
}

// A string that would be a directive.
fn is_directive(spot: Spot, tree: &Tree) -> bool
    ensures { result ≡ spec.is_directive spot (syntax tree.now) }
{
    spot.context.directives
        && (is_statement(spot.owner)
            && (matches!(tree.kind, Kind::Literal) && tree.scalars.is_text_at(0, "string")))
}

/// Whether the expression must stand in parentheses at the place, where it may, for another reason
/// than comments. `level` is that of its spelling.
pub fn needs_parens(spot: Spot, tree: &Tree, level: u8) -> bool
    ensures { result ≡ spec.needs_parens spot (syntax tree.now) level }
{
    binds_too_loosely(spot.owner, spot.place, tree, level)
        || (starts_badly(spot.start, tree)
            || ((spot.context.no_in && is_in(tree))
                || (is_async_of(spot, tree) || is_directive(spot, tree))))
}
