//! Which operators and numbers the subset has.

ghost use Rattle.std.specs.Prelude.{◌≡◌};
ghost use Rattle.script_check.specs.Subset.{is_digits, has_no_lead, is_whole_decimal};

use crate::fields::is_text;
use tree_core::Tree;

const UNARY: &[&str] = &["!", "-", "typeof"];

const BINARY: &[&str] = &[
    "+", "-", "*", "%", "===", "!==", "==", "!=", "<", "<=", ">", ">=",
];

const ASSIGNMENT: &[&str] = &["=", "+=", "-="];

// Whether the operator of the tree, its first scalar, is one of the words.
fn is_among(tree: &Tree, operators: &[&str]) -> bool {
    for operator in operators {
        if is_text(tree, 0, operator) {
            return true;
        }
    }
    false
}

/// Whether a script has the operator of this unary expression.
pub fn has_unary(tree: &Tree) -> bool {
    is_among(tree, UNARY)
}

/// Whether a script has the operator of this binary expression.
pub fn has_binary(tree: &Tree) -> bool {
    is_among(tree, BINARY)
}

/// Whether a script has the operator of this assignment.
pub fn has_assignment(tree: &Tree) -> bool {
    is_among(tree, ASSIGNMENT)
}

fn digits_only(raw: &[u16]) -> bool
    ensures { result ≡ is_digits raw.now }
{
    for unit in raw {
        if *unit < 48 || *unit > 57 {
            return false;
        }
    }
    true
}

fn lacks_lead(raw: &[u16]) -> bool
    ensures { result ≡ has_no_lead raw.now }
{
    match raw {
        [] => false,
        [_] => true,
        [first, ..] => *first != 48,
    }
}

/// Whether a number is spelled by decimal digits alone, without a leading zero (ECMA-262, clause
/// 12.9.3, DecimalIntegerLiteral).
pub fn is_whole(raw: &[u16]) -> bool
    ensures { result ≡ is_whole_decimal raw.now }
{
    lacks_lead(raw) && digits_only(raw)
}
