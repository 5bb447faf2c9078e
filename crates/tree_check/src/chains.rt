//! Optional chains (ECMA-262, clause 13.3.9).

ghost use Rattle.std.specs.Prelude.{◌≡◌};
ghost use Rattle.std.specs.Option.{option_copied, option_map};
ghost use Rattle.tree_core.specs.View.{syntax};
ghost use Rattle.tree_check.specs.Parts as spec;

use crate::categories::belongs_to_super;
use crate::rule::MAX_DEPTH;
use js_forms::{Form, Link};
use tree_core::Tree;
use tree_forms::child;
use type_defs::Kind;

// Whether it is a member or a call with `?.`.
fn is_optional_link(node: &Tree) -> bool
    ensures { result ≡ spec.is_optional_link (syntax node.now) }
{
    match node.kind {
        Kind::MemberExpression => node.scalars.is_truth_at(1, true),
        Kind::CallExpression => node.scalars.is_truth_at(0, true),
        _ => false,
    }
}

// What a link goes on with, `None` of what is no link.
fn link_below(node: &Tree) -> Option<&Tree>
    ensures { option_map syntax (option_copied result) ≡ spec.link_below (syntax node.now) }
{
    match node.kind {
        Kind::MemberExpression | Kind::CallExpression => child(node, 0),
        _ => None,
    }
}

// Whether an optional link is there, or below that by first children of links.
fn has_optional_link(first: Option<&Tree>) -> bool
    ensures { result ≡ spec.has_optional_link MAX_DEPTH (option_map syntax (option_copied first.entry)) }
{
    let mut here = first;
    for _turn in 0..MAX_DEPTH {
        let Some(node) = here else {
            return false;
        };
        if is_optional_link(node) {
            return true;
        }
        here = link_below(node);
    }
    false
}

/// Whether the node, if it is a chain, has an optional link, and if it is such a link, is in a chain
/// and does not belong to `super`. `on_spine` says whether it is in one.
pub fn is_chain_whole(node: &Tree, form: Form, on_spine: bool) -> bool
    ensures { result ≡ spec.is_chain_whole form on_spine (syntax node.now) }
{
    match form {
        Form::Chain => has_optional_link(child(node, 0)),
        Form::Dot(Link::Optional) | Form::Index(Link::Optional) | Form::Call(Link::Optional) => {
            on_spine && !belongs_to_super(node)
        }
        _ => true,
    }
}
