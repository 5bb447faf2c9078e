//! Scalars that the form does not determine.

ghost use Rattle.std.specs.Prelude.{◌≡◌, slice_get};
ghost use Rattle.std.specs.Option.{option_copied};
ghost use Rattle.tree_check.specs.Texts as spec;

use js_forms::{Form, Sort};
use tree_core::{Scalar, Scalars, Tree, Units};

/// The text of the scalar of this number, where it is one.
pub fn text_at(scalars: &Scalars, number: usize) -> Option<&Units>
    ensures { option_copied result ≡ spec.text_in (slice_get scalars.now number) }
{
    match scalars.get(number) {
        Some(Scalar::Text(text)) => Some(text),
        _ => None,
    }
}

fn is_text(scalars: &Scalars, number: usize) -> bool
    ensures { result ≡ spec.is_text scalars.now number }
{
    match text_at(scalars, number) {
        Some(_) => true,
        None => false,
    }
}

// Whether the value and the flags are those of such a literal.
fn has_value(sort: Sort, scalars: &Scalars) -> bool
    ensures { result ≡ spec.has_value sort scalars.now }
{
    match sort {
        Sort::Quoted | Sort::Number | Sort::BigInt => is_text(scalars, 1) && scalars.is_null_at(2),
        Sort::Regex => is_text(scalars, 1) && is_text(scalars, 2),
        // the form determines them
        Sort::True | Sort::False | Sort::Null => true,
    }
}

fn has_texts(form: Form, scalars: &Scalars) -> bool
    ensures { result ≡ spec.has_texts form scalars.now }
{
    match form {
        Form::Name | Form::AnyName | Form::PrivateName | Form::TemplateElement | Form::Directive =>
            is_text(scalars, 0),
        Form::Literal(sort) => has_value(sort, scalars),
        Form::Program => is_text(scalars, 0) || scalars.is_null_at(0),
        _ => true,
    }
}

/// Whether the scalars of a node in this form are those that the form has.
pub fn has_scalars(node: &Tree, form: Form) -> bool
    ensures { result ≡ spec.has_texts form node.now.scalars }
{
    has_texts(form, &node.scalars)
}
