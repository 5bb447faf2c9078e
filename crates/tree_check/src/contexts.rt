//! What stands only in some surroundings: `await`, `yield` and private names.

ghost use Rattle.std.specs.Prelude.{◌≡◌};
ghost use Rattle.tree_check.specs.Forms as spec;

use js_forms::{Context, Form};

/// Whether `await` or `yield` is an operator there, if a node of the form needs that (ECMA-262,
/// clauses 15.5 and 15.8).
pub fn has_operator_context(form: Form, context: Context) -> bool
    ensures { result ≡ spec.has_operator_context form context }
{
    match form {
        Form::Await | Form::ForAwait => context.takes_await(),
        Form::Yield | Form::YieldValue | Form::YieldStar => context.takes_yield(),
        _ => true,
    }
}

/// Whether it is in a class body there, if the form is that of a private name.
pub fn is_private_in_class(form: Form, context: Context) -> bool
    ensures { result ≡ spec.is_private_in_class form context }
{
    match form {
        Form::PrivateName => context.in_class,
        _ => true,
    }
}
