//! Whether a node has the scalars that a form determines.

ghost use Rattle.std.specs.Prelude.{◌≡◌};
ghost use Rattle.js_forms.specs.Fixed as fixed;
ghost use Rattle.js_forms.specs.Table.{first_pieces};
ghost use Rattle.tree_forms.specs.Reading as spec;

use js_forms::{
    Fixed, Form, Piece, Sort, access_name, access_of, first_pieces, is_computed, is_method,
    is_optional, is_static, key_of, link_of, property_kind, sort_name, sort_of, standing_of,
    variable_name, variable_of,
};
use tree_core::Scalars;

fn has_word_value(found: &Scalars, at: usize, sort: Sort) -> bool
    ensures { result ≡ spec.are_at at (fixed.word_value sort) found.now }
{
    match sort {
        Sort::True => found.is_truth_at(at, true),
        Sort::False => found.is_truth_at(at, false),
        Sort::Null => found.is_null_at(at),
        _ => true,
    }
}

fn has_word_flags(found: &Scalars, at: usize, sort: Sort) -> bool
    ensures { result ≡ spec.are_at at (fixed.word_flags sort) found.now }
{
    match sort {
        Sort::True | Sort::False | Sort::Null => found.is_null_at(at),
        _ => true,
    }
}

fn has_operator(found: &Scalars, at: usize, form: Form) -> bool
    ensures { result ≡ spec.are_at at (fixed.fixed form Fixed.Operator) found.now }
{
    match form.operator() {
        Some(operator) => found.is_text_at(at, operator.spelling()),
        None => true,
    }
}

// Whether the scalar of this number is what the form determines.
fn has_fixed(found: &Scalars, at: usize, form: Form, one: Fixed) -> bool
    ensures { result ≡ spec.are_at at (fixed.fixed form one) found.now }
{
    match one {
        Fixed::True => found.is_truth_at(at, true),
        Fixed::False => found.is_truth_at(at, false),
        Fixed::Operator => has_operator(found, at, form),
        Fixed::Async => found.is_truth_at(at, form.flow().is_async()),
        Fixed::Generator => found.is_truth_at(at, form.flow().is_generator()),
        Fixed::Static => found.is_truth_at(at, is_static(standing_of(form))),
        Fixed::Computed => found.is_truth_at(at, is_computed(key_of(form))),
        Fixed::Optional => found.is_truth_at(at, is_optional(link_of(form))),
        Fixed::MethodKind => found.is_text_at(at, access_name(access_of(form))),
        Fixed::PropertyKind => found.is_text_at(at, property_kind(access_of(form))),
        Fixed::IsMethod => found.is_truth_at(at, is_method(form)),
        Fixed::DeclarationKind => found.is_text_at(at, variable_name(variable_of(form))),
        Fixed::LiteralKind => found.is_text_at(at, sort_name(sort_of(form))),
        Fixed::WordValue => has_word_value(found, at, sort_of(form)),
        Fixed::WordFlags => has_word_flags(found, at, sort_of(form)),
        Fixed::NewTarget => found.is_text_at(at, "new.target"),
        Fixed::ImportMeta => found.is_text_at(at, "import.meta"),
    }
}

fn begins(form: Form, pieces: &[Piece], found: &Scalars) -> bool
    ensures { result ≡ spec.begins form pieces.now 0 found.now }
{
    for at in 0..pieces.len() {
        match pieces[at] {
            Piece::Scalar(fixed) => {
                if !has_fixed(found, at, form, fixed) {
                    return false;
                }
            }
            _ => return true,
        }
    }
    true
}

/// Whether these scalars begin with those that the form determines.
pub fn has_scalars(form: Form, found: &Scalars) -> bool
    ensures { result ≡ spec.begins form (first_pieces form) 0 found.now }
{
    begins(form, first_pieces(form), found)
}
