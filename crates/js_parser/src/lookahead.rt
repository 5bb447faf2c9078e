//! Looking ahead: which form comes next.

ghost use Rattle.std.specs.Prelude.{◌≡◌};
ghost use Rattle.js_parser.specs.Lookahead as spec;

use crate::expected::Expected;
use asi_rules::may_end;
use js_forms::{Category, Context, Flow, Form, Operator, Sort, unary};
use js_lexer::Cursor;
use js_tokens::{Goal, Punctuator, TemplatePart, Token, TokenKind, Word};

/// The token behind the next one; none where that is malformed.
pub fn peek(cursor: &Cursor<'_>) -> Option<Token> {
    let token = cursor.token();
    match cursor.token_behind(token.end, Goal::Div) {
        Ok(token) => Some(token),
        Err(_) => None,
    }
}

pub fn peek_kind(cursor: &Cursor<'_>) -> TokenKind {
    match peek(cursor) {
        Some(token) => token.kind,
        None => TokenKind::End,
    }
}

/// Whether the token behind the next one is this, on the same line.
pub fn peek_is_punctuator(cursor: &Cursor<'_>, mark: Punctuator) -> bool {
    match peek(cursor) {
        Some(token) => !token.broken_before && token.kind.is_punctuator(mark),
        None => false,
    }
}

/// Whether the token may be a name that is no reserved word.
pub fn is_name(kind: TokenKind) -> bool
    ensures { result ≡ spec.is_name kind }
{
    match kind {
        TokenKind::Name(word) => !word.is_reserved(),
        _ => false,
    }
}

pub fn begins_template(kind: TokenKind) -> bool
    ensures { result ≡ spec.begins_template kind }
{
    match kind {
        TokenKind::Template(part) => match part {
            TemplatePart::Whole | TemplatePart::Head => true,
            TemplatePart::Middle | TemplatePart::Tail => false,
        },
        _ => false,
    }
}

/// Whether `async` comes next, and `function` behind it on the same line.
pub fn begins_async_function(cursor: &Cursor<'_>) -> bool {
    if !cursor.sees_word(Word::Async) {
        return false;
    }
    match peek(cursor) {
        Some(token) => !token.broken_before && token.kind.is_word(Word::Function),
        None => false,
    }
}

/// Whether a function or a class comes next, as `export default` declares one.
pub fn begins_default_declaration(cursor: &Cursor<'_>) -> bool {
    cursor.sees_word(Word::Function)
        || cursor.sees_word(Word::Class)
        || begins_async_function(cursor)
}

// The sort of the token behind this one, which stands in the text.
fn kind_behind(cursor: &Cursor<'_>, token: Token) -> TokenKind {
    if token.end as usize > cursor.source().bytes().len() {
        return TokenKind::End;
    }
    match cursor.token_behind(token.end, Goal::Div) {
        Ok(found) => found.kind,
        Err(_) => TokenKind::End,
    }
}

/// How the function runs that comes next.
pub fn function_flow(cursor: &Cursor<'_>) -> Flow {
    let Some(token) = peek(cursor) else {
        return Flow::Plain;
    };
    if cursor.sees_word(Word::Function) {
        return Flow::new(false, token.kind.is_punctuator(Punctuator::Star));
    }
    let third = kind_behind(cursor, token);
    Flow::new(true, third.is_punctuator(Punctuator::Star))
}

/// Whether the statement ends before the next token, its `;` left aside.
pub fn ends_statement(cursor: &Cursor<'_>) -> bool
    ensures { result ≡ spec.ends_statement cursor.now }
{
    may_end(cursor.line_end_before(), cursor.kind())
}

/// The literal that the token is.
pub fn literal(kind: TokenKind) -> Option<Sort> {
    match kind {
        TokenKind::Quoted => Some(Sort::Quoted),
        TokenKind::Number => Some(Sort::Number),
        TokenKind::BigInt => Some(Sort::BigInt),
        TokenKind::Regex => Some(Sort::Regex),
        TokenKind::Name(word) => match word {
            Word::True => Some(Sort::True),
            Word::False => Some(Sort::False),
            Word::Null => Some(Sort::Null),
            _ => None,
        },
        _ => None,
    }
}

/// The form of a tree whose category and next token tell it.
pub fn simple_form(cursor: &Cursor<'_>, expected: Expected) -> Option<Form> {
    match expected.category {
        Category::Block => Some(Form::Block),
        Category::FunctionBody => Some(Form::FunctionBody),
        Category::ClassBody => Some(Form::ClassBody),
        Category::Case => {
            if cursor.sees_word(Word::Default) {
                return Some(Form::DefaultCase);
            }
            Some(Form::Case)
        }
        Category::Catch => Some(Form::Catch),
        Category::Method(flow) => Some(Form::MethodValue(flow)),
        Category::Getter => Some(Form::GetterValue),
        Category::Setter => Some(Form::SetterValue),
        Category::Name => Some(Form::Name),
        Category::Source => match cursor.kind() {
            TokenKind::Quoted => Some(Form::Literal(Sort::Quoted)),
            _ => None,
        },
        _ => key_form(cursor, expected),
    }
}

// The form of a name or a key.
fn key_form(cursor: &Cursor<'_>, expected: Expected) -> Option<Form> {
    let (literals, private) = match expected.category {
        Category::Member => (false, expected.context.in_class),
        Category::ObjectKey => (true, false),
        Category::ClassKey => (true, true),
        _ => (false, false),
    };
    match cursor.kind() {
        TokenKind::Name(_) => Some(Form::AnyName),
        TokenKind::Private => {
            if private {
                return Some(Form::PrivateName);
            }
            None
        }
        TokenKind::Quoted | TokenKind::Number | TokenKind::BigInt => {
            if literals {
                return Some(Form::Literal(literal(cursor.kind())?));
            }
            None
        }
        _ => None,
    }
}

/// The form of the operand that begins with the next token, where it has no form of its own kind
/// of reading.
pub fn operand_form(cursor: &Cursor<'_>, context: Context) -> Option<Form> {
    let kind = cursor.kind();
    if let Some(sort) = literal(kind) {
        return Some(Form::Literal(sort));
    }
    match kind {
        TokenKind::Punctuator(mark) => match mark {
            Punctuator::OpenBracket => Some(Form::Array),
            Punctuator::OpenBrace => Some(Form::Object),
            Punctuator::PlusPlus | Punctuator::MinusMinus => {
                Some(Form::Prefix(Operator::Mark(mark)))
            }
            _ => Some(Form::Unary(unary(kind)?)),
        },
        TokenKind::Name(word) => word_form(cursor, word, context),
        _ => None,
    }
}

// The one form before a `.`, the other before all else.
fn before_dot(cursor: &Cursor<'_>, dotted: Form, other: Form) -> Form {
    if peek_kind(cursor).is_punctuator(Punctuator::Dot) {
        return dotted;
    }
    other
}

fn word_form(cursor: &Cursor<'_>, word: Word, context: Context) -> Option<Form> {
    match word {
        Word::This => Some(Form::This),
        Word::Function => Some(Form::Function(function_flow(cursor))),
        Word::Class => Some(Form::Class),
        Word::Super => Some(Form::Super),
        Word::New => Some(before_dot(cursor, Form::NewTarget, Form::New)),
        Word::Import => Some(before_dot(cursor, Form::ImportMeta, Form::ImportCall)),
        Word::Await => {
            if context.takes_await() {
                return Some(Form::Await);
            }
            None
        }
        Word::Yield => {
            if context.takes_yield() {
                return Some(yield_form(cursor));
            }
            None
        }
        _ => {
            if begins_async_function(cursor) {
                return Some(Form::Function(function_flow(cursor)));
            }
            if word.is_reserved() {
                return Some(Form::Unary(unary(cursor.kind())?));
            }
            Some(Form::Name)
        }
    }
}

// Which `yield` comes: nothing, a value or `*` behind it.
fn yield_form(cursor: &Cursor<'_>) -> Form {
    let Some(token) = peek(cursor) else {
        return Form::YieldValue;
    };
    if token.broken_before {
        return Form::Yield;
    }
    match token.kind {
        TokenKind::End => Form::Yield,
        TokenKind::Name(word) => match word {
            Word::In => Form::Yield,
            _ => Form::YieldValue,
        },
        TokenKind::Punctuator(mark) => match mark {
            Punctuator::Star => Form::YieldStar,
            Punctuator::CloseParen
            | Punctuator::CloseBracket
            | Punctuator::CloseBrace
            | Punctuator::Comma
            | Punctuator::Colon
            | Punctuator::Semicolon => Form::Yield,
            _ => Form::YieldValue,
        },
        _ => Form::YieldValue,
    }
}
