//! The operands of expressions: what begins with a token of its own.

ghost use Rattle.std.specs.Prelude.{◌≡◌};
ghost use Rattle.js_parser.specs.Callable.{Callable};
ghost use Rattle.js_parser.specs.Lookahead as spec;

use crate::expected::Expected;
use crate::grammar::Grammar;
use crate::lookahead::{begins_template, is_name, operand_form, peek, peek_is_punctuator};
use crate::nodes::{Children, ReadNode, Summary};
use crate::pattern::refused_pattern;
use crate::programs::MAX_LEVELS;
use crate::reader::Reader;
use js_forms::{
    ASSIGNMENT, CALL, CHAIN, Category, Context, Flow, Form, MEMBER, Operator, RELATIONAL, Spelling,
    level,
};
use js_lexer::{Cursor, Refusal};
use js_tokens::{Goal, Punctuator, TokenKind, Word};
use pattern_cover::to_pattern;
use std::alloc::Global;

/// Whether it is an expression with `??`, in no parentheses.
pub fn is_coalescing(node: &ReadNode) -> bool {
    !node.grouped
        && matches!(
            node.form,
            Form::Logical(Operator::Mark(Punctuator::Nullish))
        )
}

// Whether `=>` comes next on the same line, so that what stands before it are parameters.
fn begins_arrow(cursor: &Cursor<'_>) -> bool
    ensures { result ≡ spec.begins_arrow cursor.now }
{
    cursor.sees_mark(Punctuator::Arrow) && !cursor.line_end_before()
}

// Whether `async` comes next, and a name behind it on the same line.
fn begins_async_arrow(cursor: &Cursor<'_>) -> bool {
    if !cursor.sees_word(Word::Async) {
        return false;
    }
    match peek(cursor) {
        Some(token) => !token.broken_before && is_name(token.kind),
        None => false,
    }
}

// Whether `async` comes next, and `(` behind it on the same line.
fn begins_async_call(cursor: &Cursor<'_>) -> bool {
    cursor.sees_word(Word::Async) && peek_is_punctuator(cursor, Punctuator::OpenParen)
}

// Whether a private name comes next, and `in` behind it.
fn begins_private_test(cursor: &Cursor<'_>, expected: Expected) -> bool {
    if expected.least > RELATIONAL || expected.context.no_in || !expected.context.in_class {
        return false;
    }
    match cursor.kind() {
        TokenKind::Private => match peek(cursor) {
            Some(token) => token.kind.is_word(Word::In),
            None => false,
        },
        _ => false,
    }
}

fn begins_regex(kind: TokenKind) -> bool
    ensures { result ≡ spec.begins_regex kind }
{
    kind.is_punctuator(Punctuator::Slash) || kind.is_punctuator(Punctuator::SlashAssign)
}

impl<F: Fn(Global, &mut Reader<'_>, u32, Expected) -> Result<ReadNode, Refusal>> Grammar<F> {
    pub fn operand(&self, reader: &mut Reader<'_>, expected: Expected) -> Result<ReadNode, Refusal>
        requires { Callable self.now.depth (F.pre self.now.node) }
    {
        if reader.cursor.sees_mark(Punctuator::OpenParen) {
            return self.group(reader, expected);
        }
        if expected.least <= ASSIGNMENT && begins_async_arrow(&reader.cursor) {
            return self.async_arrow(reader, expected.context);
        }
        if expected.least <= CALL && begins_async_call(&reader.cursor) {
            return self.async_call(reader, expected);
        }
        let start = reader.cursor.start();
        let first = self.plain_operand(reader, expected)?;
        if expected.least <= ASSIGNMENT && first.is_name() && begins_arrow(&reader.cursor) {
            return self.lone_arrow(reader, expected.context, start, Flow::Plain, first);
        }
        Ok(first)
    }

    fn plain_operand(
        &self,
        reader: &mut Reader<'_>,
        expected: Expected,
    ) -> Result<ReadNode, Refusal>
        requires { Callable self.now.depth (F.pre self.now.node) }
    {
        if begins_template(reader.cursor.kind()) {
            return self.template(reader, expected.context, false);
        }
        if begins_private_test(&reader.cursor, expected) {
            return self.private_test(reader, expected.context);
        }
        if begins_regex(reader.cursor.kind()) {
            reader.cursor.rescan(Goal::RegExp);
        }
        let Some(form) = operand_form(&reader.cursor, expected.context) else {
            return Err(reader.cursor.refuse());
        };
        if expected.least > level(form) {
            return Err(reader.cursor.refuse());
        }
        match form {
            Form::New => self.new_object(reader, expected.context),
            _ => self.begun(reader, form, expected.context),
        }
    }

    // `new`, whose level tells whether its arguments are spelled.
    fn new_object(&self, reader: &mut Reader<'_>, context: Context) -> Result<ReadNode, Refusal>
        requires { Callable self.now.depth (F.pre self.now.node) }
    {
        let start = reader.cursor.start();
        reader.cursor.take();
        let callee = self.node(reader, Expected::new(Category::Callee, MEMBER, context))?;
        let (spelling, level) = if reader.cursor.sees_mark(Punctuator::OpenParen) {
            (Spelling::Usual, MEMBER)
        } else {
            (Spelling::WithoutArguments, CHAIN)
        };
        let whole = self.filled_as(reader, Form::New, spelling, start, context, callee)?;
        Ok(ReadNode { level, ..whole })
    }

    // `#name in` and an expression.
    fn private_test(&self, reader: &mut Reader<'_>, context: Context) -> Result<ReadNode, Refusal>
        requires { Callable self.now.depth (F.pre self.now.node) }
    {
        let start = reader.cursor.start();
        let name = self.node(reader, Expected::new(Category::ClassKey, 0, context))?;
        let form = Form::Binary(Operator::Word(Word::In));
        self.filled(reader, form, start, context, name)
    }

    /// A pattern from the array or object that is read.
    pub fn pattern_of(
        &self,
        reader: &mut Reader<'_>,
        cover: ReadNode,
        binding: bool,
    ) -> Result<ReadNode, Refusal> {
        let ReadNode {
            tree,
            form,
            level,
            grouped,
            summary,
        } = cover;
        let tree = Box::into_inner(tree);
        let tree = match to_pattern(self.alloc, tree, binding, &reader.facts, MAX_LEVELS) {
            Ok(tree) => tree.boxed(self.alloc)?,
            Err(error) => return Err(refused_pattern(&mut reader.cursor, error)),
        };
        let form = match form {
            Form::Array => Form::ArrayPattern,
            Form::Object => Form::ObjectPattern,
            _ => form,
        };
        let summary = Summary {
            must_become_pattern: false,
            ..summary
        };
        Ok(ReadNode {
            tree,
            form,
            level,
            grouped,
            summary,
        })
    }

    /// A list of one child.
    pub fn alone(&self, child: ReadNode) -> Result<Children, Refusal> {
        let mut found = Children::new(self.alloc);
        found.push(child)?;
        Ok(found)
    }
}
