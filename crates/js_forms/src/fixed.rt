//! The scalars that a form determines, with which its pieces begin. Those that a text spells come
//! behind them.

ghost use Rattle.std.specs.Prelude.{◌≡◌, ◌++◌, ◌∷◌, [], IfOk};
ghost use Rattle.tree_core.specs.declared.scalars.Scalar.TheVariants as scalar;
ghost use Rattle.js_forms.specs.Fixed as spec;
ghost use Rattle.js_forms.specs.Forms as forms;

use crate::form::{Access, Form, Key, Link, Sort, Standing, Variable};
use crate::own::{access_of, key_of, link_of, sort_of, standing_of, variable_of};
use crate::piece::{Fixed, Piece};
use crate::table::first_pieces;
use std::alloc::{AllocError, Global};
use tree_core::{Scalar, Scalars, Units};
use type_defs::scalar_count;

/// Whether the key is computed.
pub fn is_computed(key: Key) -> bool
    ensures { result ≡ forms.is_computed key }
{
    match key {
        Key::Plain => false,
        Key::Computed => true,
    }
}

/// Whether the member is static.
pub fn is_static(standing: Standing) -> bool
    ensures { result ≡ forms.is_static standing }
{
    match standing {
        Standing::Instance => false,
        Standing::Static => true,
    }
}

/// Whether the link is `?.`.
pub fn is_optional(link: Link) -> bool
    ensures { result ≡ forms.is_optional link }
{
    match link {
        Link::Plain => false,
        Link::Optional => true,
    }
}

/// `kind` of a method (ESTree, MethodDefinition).
#[tactic(auto, unfolding(crate::specs::Fixed::access_name))]
pub fn access_name(access: Access) -> &'static str
    ensures { result.now ≡ spec.access_name access }
{
    match access {
        Access::Method => "method",
        Access::Get => "get",
        Access::Set => "set",
        Access::Constructor => "constructor",
    }
}

/// `kind` of a declaration of variables (ESTree, VariableDeclaration).
#[tactic(auto, unfolding(crate::specs::Fixed::variable_name))]
pub fn variable_name(variable: Variable) -> &'static str
    ensures { result.now ≡ spec.variable_name variable }
{
    match variable {
        Variable::Var => "var",
        Variable::Let => "let",
        Variable::Const => "const",
    }
}

/// The first scalar of a literal: the name of its sort.
#[tactic(auto, unfolding(crate::specs::Fixed::sort_name))]
pub fn sort_name(sort: Sort) -> &'static str
    ensures { result.now ≡ spec.sort_name sort }
{
    match sort {
        Sort::Quoted => "string",
        Sort::Number => "number",
        Sort::BigInt => "bigint",
        Sort::True | Sort::False => "boolean",
        Sort::Null => "null",
        Sort::Regex => "regexp",
    }
}

fn with_text(alloc: Global, found: Scalars, text: &str) -> Result<Scalars, AllocError>
    ensures { IfOk result (λ all. all ≡ found ++ spec.text text.now) }
{
    let units = Units::of_bytes(alloc, text.as_bytes())?;
    found.with(alloc, Scalar::Text(units))
}

fn with_truth(alloc: Global, found: Scalars, truth: bool) -> Result<Scalars, AllocError>
    ensures { IfOk result (λ all. all ≡ found ++ spec.truth truth) }
{
    found.with(alloc, Scalar::Truth(truth))
}

/// `kind` of a property, for what a method is to its object.
pub fn property_kind(access: Access) -> &'static str
    ensures { result.now ≡ spec.property_kind access }
{
    match access {
        Access::Get | Access::Set => access_name(access),
        Access::Method | Access::Constructor => "init",
    }
}

/// Whether a property is a method.
pub fn is_method(form: Form) -> bool
    ensures { result ≡ spec.is_method form }
{
    match form {
        Form::PropertyMethod(access, _, _) => match access {
            Access::Method | Access::Constructor => true,
            Access::Get | Access::Set => false,
        },
        _ => false,
    }
}

fn with_operator(alloc: Global, found: Scalars, form: Form) -> Result<Scalars, AllocError>
    ensures { IfOk result (λ all. all ≡ found ++ spec.fixed form Fixed.Operator) }
{
    match form.operator() {
        Some(operator) => with_text(alloc, found, operator.spelling()),
        None => Ok(found),
    }
}

fn with_word_value(alloc: Global, found: Scalars, sort: Sort) -> Result<Scalars, AllocError>
    ensures { IfOk result (λ all. all ≡ found ++ spec.word_value sort) }
{
    match sort {
        Sort::True => with_truth(alloc, found, true),
        Sort::False => with_truth(alloc, found, false),
        Sort::Null => found.with(alloc, Scalar::Null),
        _ => Ok(found),
    }
}

fn with_word_flags(alloc: Global, found: Scalars, sort: Sort) -> Result<Scalars, AllocError>
    ensures { IfOk result (λ all. all ≡ found ++ spec.word_flags sort) }
{
    match sort {
        Sort::True | Sort::False | Sort::Null => found.with(alloc, Scalar::Null),
        _ => Ok(found),
    }
}

// The scalars, and this one of the form behind them.
fn with_fixed(
    alloc: Global,
    found: Scalars,
    form: Form,
    fixed: Fixed,
) -> Result<Scalars, AllocError>
    ensures { IfOk result (λ all. all ≡ found ++ spec.fixed form fixed) }
{
    match fixed {
        Fixed::True => with_truth(alloc, found, true),
        Fixed::False => with_truth(alloc, found, false),
        Fixed::Operator => with_operator(alloc, found, form),
        Fixed::Async => with_truth(alloc, found, form.flow().is_async()),
        Fixed::Generator => with_truth(alloc, found, form.flow().is_generator()),
        Fixed::Static => with_truth(alloc, found, is_static(standing_of(form))),
        Fixed::Computed => with_truth(alloc, found, is_computed(key_of(form))),
        Fixed::Optional => with_truth(alloc, found, is_optional(link_of(form))),
        Fixed::MethodKind => with_text(alloc, found, access_name(access_of(form))),
        Fixed::PropertyKind => with_text(alloc, found, property_kind(access_of(form))),
        Fixed::IsMethod => with_truth(alloc, found, is_method(form)),
        Fixed::DeclarationKind => with_text(alloc, found, variable_name(variable_of(form))),
        Fixed::LiteralKind => with_text(alloc, found, sort_name(sort_of(form))),
        Fixed::WordValue => with_word_value(alloc, found, sort_of(form)),
        Fixed::WordFlags => with_word_flags(alloc, found, sort_of(form)),
        Fixed::NewTarget => with_text(alloc, found, "new.target"),
        Fixed::ImportMeta => with_text(alloc, found, "import.meta"),
    }
}

/// The scalars that the form determines, in the order of the kind's fields.
pub fn scalars(alloc: Global, form: Form) -> Result<Scalars, AllocError>
    ensures { IfOk result (λ all. all ≡ spec.scalars form) }
{
    leading(alloc, form, first_pieces(form))
}

// The scalars with which the pieces begin.
fn leading(alloc: Global, form: Form, pieces: &[Piece]) -> Result<Scalars, AllocError>
    ensures { IfOk result (λ all. all ≡ spec.leading form pieces.now) }
{
    let mut found = Scalars::with_room(alloc, scalar_count(form.kind()))?;
    for piece in pieces {
        match *piece {
            Piece::Scalar(fixed) => found = with_fixed(alloc, found, form, fixed)?,
            _ => return Ok(found),
        }
    }
    Ok(found)
}
