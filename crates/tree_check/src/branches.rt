//! Branches of statements: `else` (ECMA-262, clause 14.6) and `default` (14.12).

ghost use Rattle.std.specs.Prelude.{◌≡◌};
ghost use Rattle.std.specs.Option.{option_copied, option_map};
ghost use Rattle.tree_core.specs.View.{syntax};
ghost use Rattle.tree_check.specs.Parts as spec;

use crate::position::Position;
use crate::rule::MAX_DEPTH;
use js_forms::Form;
use tree_core::Tree;
use tree_forms::child;
use type_defs::Kind;

// The statement with which the statement ends, `None` where it ends in none. An `if` without
// alternate is no such statement: it is told before.
fn last_statement(node: &Tree) -> Option<&Tree>
    ensures { option_map syntax (option_copied result) ≡ spec.last_statement (syntax node.now) }
{
    match node.kind {
        Kind::IfStatement => child(node, 2),
        Kind::WithStatement | Kind::LabeledStatement | Kind::WhileStatement => child(node, 1),
        Kind::ForInStatement | Kind::ForOfStatement => child(node, 2),
        Kind::ForStatement => child(node, 3),
        _ => None,
    }
}

fn is_open_if(node: &Tree) -> bool
    ensures { result ≡ spec.is_open_if (syntax node.now) }
{
    match node.kind {
        Kind::IfStatement => child(node, 2).is_none(),
        _ => false,
    }
}

// Whether the statement is an `if` without alternate, or ends in one, going down by bodies and
// alternates.
fn ends_in_open_if(first: Option<&Tree>) -> bool
    ensures { result ≡ spec.ends_in_open_if MAX_DEPTH (option_map syntax (option_copied first.entry)) }
{
    let mut here = first;
    for _turn in 0..MAX_DEPTH {
        let Some(node) = here else {
            return false;
        };
        if is_open_if(node) {
            return true;
        }
        here = last_statement(node);
    }
    false
}

/// Whether the `else` of the node, if it has one, belongs to it.
pub fn has_own_else(node: &Tree, form: Form) -> bool
    ensures { result ≡ spec.has_own_else form (syntax node.now) }
{
    match form {
        Form::If => child(node, 2).is_none() || !ends_in_open_if(child(node, 1)),
        _ => true,
    }
}

/// Whether the node, if it is a case without test, is the first such of its switch.
pub fn is_default_once(form: Form, position: &Position<'_>) -> bool {
    match form {
        Form::DefaultCase => match &position.parent {
            Some(parent) => parent.index <= parent.fronts.tested,
            None => true,
        },
        _ => true,
    }
}
