//! Methods, accessors and constructors (ECMA-262, clauses 15.4 and 15.7).

ghost use Rattle.std.specs.Prelude.{◌≡◌, map};
ghost use Rattle.std.specs.Option.{option_copied, option_map};
ghost use Rattle.tree_core.specs.View.{syntax, place_view, places_of};
ghost use Rattle.tree_forms.specs.Reading.{child};
ghost use Rattle.tree_check.specs.Forms as spec;
ghost use Rattle.tree_check.specs.Parts as parts;

use crate::cursor::places_at;
use crate::kinds::is_rest;
use js_forms::{Access, Flow, Form, Key, Standing};
use tree_core::{Place, Tree};
use tree_forms::child;
use type_defs::Kind;

fn is_parameter(place: &Place) -> bool
    ensures { result ≡ parts.is_parameter (place_view place.now) }
{
    match &place.node {
        Some(node) => !is_rest(node.kind),
        None => false,
    }
}

// One parameter, which is no rest element.
#[tactic(auto, using(crate::proofs::Lists::one_parameter, crate::proofs::Lists::not_one))]
fn has_one_parameter(places: &[Place]) -> bool
    ensures { result ≡ parts.has_one_parameter (places_of (map place_view places.now)) }
{
    if places.len() != 1 {
        return false;
    }
    is_parameter(&places[0])
}

#[tactic(auto, using(crate::proofs::Lists::empty_is))]
fn is_empty(places: &[Place]) -> bool
    ensures { result ≡ parts.is_empty (places_of (map place_view places.now)) }
{
    places.is_empty()
}

fn is_plain(function: &Tree) -> bool
    ensures { result ≡ parts.is_plain (syntax function.now) }
{
    !function.scalars.is_truth_at(0, true) && !function.scalars.is_truth_at(1, true)
}

// Whether the function, which has no name, is one of such a member.
fn is_function_of(access: Access, function: &Tree) -> bool
    ensures { result ≡ parts.is_function_of access (syntax function.now) }
{
    let parameters = places_at(function, 1);
    match access {
        Access::Get => is_plain(function) && is_empty(parameters),
        Access::Set => is_plain(function) && has_one_parameter(parameters),
        Access::Method | Access::Constructor => true,
    }
}

fn is_value_of(access: Access, value: Option<&Tree>) -> bool
    ensures { result ≡ parts.is_value_of access (option_map syntax (option_copied value.entry)) }
{
    match value {
        Some(function) => child(function, 0).is_none() && is_function_of(access, function),
        None => false,
    }
}

fn is_constructor_name(key: &Tree) -> bool
    ensures { result ≡ parts.is_constructor_name (syntax key.now) }
{
    match key.kind {
        Kind::Identifier => key.scalars.is_text_at(0, "constructor"),
        Kind::Literal => {
            key.scalars.is_text_at(0, "string") && key.scalars.is_text_at(1, "constructor")
        }
        _ => false,
    }
}

fn is_key_constructor(method: &Tree) -> bool
    ensures { result ≡ parts.names_constructor (child 0 (syntax method.now)) }
{
    match child(method, 0) {
        Some(key) => is_constructor_name(key),
        None => false,
    }
}

// Whether a class's method of this name makes its instances.
fn makes_instances(standing: Standing, key: Key, method: &Tree) -> bool
    ensures { result ≡ parts.makes_instances standing key (syntax method.now) }
{
    match (standing, key) {
        (Standing::Instance, Key::Plain) => is_key_constructor(method),
        _ => false,
    }
}

fn has_right_kind(access: Access, standing: Standing, key: Key, method: &Tree) -> bool
    ensures { result ≡ parts.has_right_kind access standing key (syntax method.now) }
{
    match access {
        Access::Get | Access::Set => true,
        Access::Method => !makes_instances(standing, key, method),
        Access::Constructor => makes_instances(standing, key, method),
    }
}

/// Whether the node, if it is a method or an accessor, has the function and the kind of one.
pub fn is_method_whole(node: &Tree, form: Form) -> bool
    ensures { result ≡ parts.is_method_whole form (syntax node.now) }
{
    match form {
        Form::PropertyMethod(access, _, _) => is_value_of(access, child(node, 1)),
        Form::Method(access, standing, _, key) => {
            is_value_of(access, child(node, 1)) && has_right_kind(access, standing, key, node)
        }
        _ => true,
    }
}

fn runs_async(flow: Flow) -> bool
    ensures { result ≡ spec.runs_async flow }
{
    matches!(flow, Flow::Async)
}

fn is_key_plain(key: Key) -> bool
    ensures { result ≡ spec.is_key_plain key }
{
    matches!(key, Key::Plain)
}

/// Whether the form is that of a method whose key stands right behind `async`: no line may end
/// between them.
pub fn has_async_key(form: Form) -> bool
    ensures { result ≡ spec.has_async_key form }
{
    match form {
        Form::PropertyMethod(Access::Method, flow, key) => runs_async(flow) && is_key_plain(key),
        Form::Method(Access::Method | Access::Constructor, Standing::Instance, flow, key) => {
            runs_async(flow) && is_key_plain(key)
        }
        _ => false,
    }
}
