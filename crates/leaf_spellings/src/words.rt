//! Words: `this`, `super`, and the two that stand before a dot and a name (ECMA-262, clauses 13.2.2
//! and 13.3).

ghost use Rattle.std.specs.Prelude.{◌≡◌, ◌≤◌, ◌∷◌, [], length, true, None};
ghost use Rattle.js_forms.specs.Contexts.{outermost};
ghost use Rattle.js_forms.specs.declared.form.Form.{Form};
ghost use Rattle.spelling_rules.specs.Spells.{Anything, Fills};
ghost use Rattle.spelling_rules.specs.Tokens as tokens;
ghost use Rattle.type_defs.specs.declared.kind.Kind.TheVariants as kind;
ghost use Rattle.leaf_spellings.specs.Begun.{Begins, dotted};
ghost use Rattle.leaf_spellings.specs.Leaves.{Leaf};

use crate::scalars::is_one_text;
use cm_text::Source;
use js_forms::MetaWord;
use js_lexer::next;
use js_tokens::{Goal, Punctuator, Token, TokenKind, Word};
use tree_core::{Scalars, Span};

/// Whether the stretch is `this`.
#[tactic(auto, using(crate::proofs::WordLeaves::a_this))]
pub fn is_this(source: &Source, span: Span, token: Token, scalars: &Scalars) -> bool
    requires { Begins source.now span token }
    ensures { result ≡ true → Leaf source.now span.start span.end kind.ThisExpression scalars.now }
{
    if scalars.len() != 0 || token.end != span.end {
        return false;
    }
    token.kind.is_word(Word::This)
}

/// Whether the stretch is `super`.
#[tactic(auto, using(crate::proofs::WordLeaves::a_super))]
pub fn is_super(source: &Source, span: Span, token: Token, scalars: &Scalars) -> bool
    requires { Begins source.now span token }
    ensures { result ≡ true → Leaf source.now span.start span.end kind.Super scalars.now }
{
    if scalars.len() != 0 || token.end != span.end {
        return false;
    }
    token.kind.is_word(Word::Super)
}

// Whether the token is this name, spelled without an escape.
fn is_spelled_so(source: &Source, token: Token, name: &str) -> bool
    requires ordered { token.start ≤ token.end }
    requires within { token.end ≤ length source.now }
    ensures { result ≡ true → tokens.spelled name.now source.now token ≡ true }
{
    match token.kind {
        TokenKind::Name(_) => {
            &source.bytes()[token.start as usize..token.end as usize] == name.as_bytes()
        }
        _ => false,
    }
}

// Whether a dot and this word of a form go from the offset up to the end.
#[tactic(auto, using(crate::proofs::WordLeaves::dot_and_name))]
fn is_dot_and_name(source: &Source, at: u32, word: MetaWord, end: u32) -> bool
    requires { at ≤ length source.now }
    ensures { result ≡ true → (form : Form) → Fills Anything source.now form outermost 0 (dotted word) at end [] [] None 0 }
{
    let Ok(dot) = next(source, at, Goal::Div) else {
        return false;
    };
    let Ok(found) = next(source, dot.end, Goal::Div) else {
        return false;
    };
    dot.kind.is_punctuator(Punctuator::Dot)
        && is_spelled_so(source, found, word.spelling())
        && found.end == end
}

/// Whether the stretch is `new.target` or `import.meta`, and which of them the scalar says.
#[tactic(auto, using(crate::proofs::WordLeaves::new_target, crate::proofs::WordLeaves::import_meta))]
pub fn is_meta_property(source: &Source, span: Span, token: Token, scalars: &Scalars) -> bool
    requires { Begins source.now span token }
    ensures { result ≡ true → Leaf source.now span.start span.end kind.MetaProperty scalars.now }
{
    if token.kind.is_word(Word::New) {
        return is_one_text(scalars, "new.target")
            && is_dot_and_name(source, token.end, MetaWord::Target, span.end);
    }
    token.kind.is_word(Word::Import)
        && is_one_text(scalars, "import.meta")
        && is_dot_and_name(source, token.end, MetaWord::Meta, span.end)
}
