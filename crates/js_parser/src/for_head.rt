//! Loops with `for`: what the head holds is told by the token behind its first part.

ghost use Rattle.js_parser.specs.Callable.{Callable};

use crate::expected::Expected;
use crate::grammar::Grammar;
use crate::lookahead::peek_kind;
use crate::nodes::{Children, Parts, ReadNode};
use crate::reader::Reader;
use crate::spelled::behind_first;
use crate::tokens::{expect_punctuator, expect_word};
use js_forms::{Category, Context, Form, SEQUENCE, Variable, first_pieces};
use js_lexer::{Cursor, Refusal};
use js_tokens::{Punctuator, Word};
use std::alloc::Global;

// The declaration that begins with the next token.
fn variable(cursor: &Cursor<'_>) -> Option<Variable> {
    if cursor.sees_word(Word::Var) {
        return Some(Variable::Var);
    }
    if cursor.sees_word(Word::Let) {
        return Some(Variable::Let);
    }
    if cursor.sees_word(Word::Const) {
        return Some(Variable::Const);
    }
    None
}

// The loop over something whose word comes next.
fn each_form(cursor: &Cursor<'_>, awaits: bool) -> Option<Form> {
    if cursor.sees_word(Word::Of) {
        if awaits {
            return Some(Form::ForAwait);
        }
        return Some(Form::ForOf);
    }
    if cursor.sees_word(Word::In) && !awaits {
        return Some(Form::ForIn);
    }
    None
}

// Whether `async` comes next, and `of` behind it. A plain `for` begins with an arrow there or with
// nothing, and one with `await` with the name (ECMA-262, clause 14.7.5).
fn begins_async_of(cursor: &Cursor<'_>) -> bool {
    cursor.sees_word(Word::Async) && peek_kind(cursor).is_word(Word::Of)
}

impl<F: Fn(Global, &mut Reader<'_>, u32, Expected) -> Result<ReadNode, Refusal>> Grammar<F> {
    pub fn for_statement(
        &self,
        reader: &mut Reader<'_>,
        context: Context,
    ) -> Result<ReadNode, Refusal>
        requires { Callable self.now.depth (F.pre self.now.node) }
    {
        let start = reader.cursor.start();
        expect_word(&mut reader.cursor, Word::For)?;
        let awaits = context.takes_await() && reader.cursor.eat_word(Word::Await);
        expect_punctuator(&mut reader.cursor, Punctuator::OpenParen)?;
        if !awaits && reader.cursor.sees_mark(Punctuator::Semicolon) {
            return self.counting(reader, start, context, None);
        }
        match variable(&reader.cursor) {
            Some(variable) => self.declaring(reader, start, context, awaits, variable),
            None => self.assigning(reader, start, context, awaits),
        }
    }

    // The loop whose head begins with a declaration.
    fn declaring(
        &self,
        reader: &mut Reader<'_>,
        start: u32,
        context: Context,
        awaits: bool,
        variable: Variable,
    ) -> Result<ReadNode, Refusal>
        requires { Callable self.now.depth (F.pre self.now.node) }
    {
        let form = Form::HeadVariables(variable);
        let opening = reader.cursor.start();
        reader.cursor.take();
        let head = context.without_in();
        let naming = reader.cursor.start();
        let id = self.node(
            reader,
            Expected {
                category: Category::Binding,
                least: 0,
                context: head,
            },
        )?;
        if let Some(each) = each_form(&reader.cursor, awaits) {
            let only = self.over_two(reader, Form::Declarator, naming, Some(id), None)?;
            let list = self.alone(only)?;
            let left = self.declaration(reader, form, opening, list)?;
            return self.filled(reader, each, start, context, left);
        }
        if awaits {
            return Err(reader.cursor.refuse());
        }
        let first = self.declarator(reader, form, naming, id, head)?;
        let found = self.alone(first)?;
        let found = self.more_declarators(reader, form, found, head)?;
        let init = self.declaration(reader, form, opening, found)?;
        self.counting(reader, start, context, Some(init))
    }

    fn declaration(
        &self,
        reader: &mut Reader<'_>,
        form: Form,
        start: u32,
        found: Children,
    ) -> Result<ReadNode, Refusal> {
        self.over_list(reader, form, start, found)
    }

    // The loop whose head begins with an expression.
    fn assigning(
        &self,
        reader: &mut Reader<'_>,
        start: u32,
        context: Context,
        awaits: bool,
    ) -> Result<ReadNode, Refusal>
        requires { Callable self.now.depth (F.pre self.now.node) }
    {
        let async_of = begins_async_of(&reader.cursor);
        let category = if awaits && async_of {
            Category::Name
        } else {
            Category::Cover
        };
        let head = Expected {
            category,
            least: SEQUENCE,
            context: context.without_in(),
        };
        let first = self.node(reader, head)?;
        if let Some(each) = each_form(&reader.cursor, awaits) {
            if async_of && !awaits {
                return Err(reader.cursor.refuse());
            }
            let left = self.each_target(reader, first)?;
            return self.filled(reader, each, start, context, left);
        }
        if awaits || first.summary.must_become_pattern {
            return Err(reader.cursor.refuse());
        }
        self.counting(reader, start, context, Some(first))
    }

    // What the loop over something assigns to.
    fn each_target(&self, reader: &mut Reader<'_>, first: ReadNode) -> Result<ReadNode, Refusal> {
        if first.is_cover() {
            return self.pattern_of(reader, first, false);
        }
        if !first.is_simple() {
            return Err(reader.cursor.refuse());
        }
        Ok(first)
    }

    // The loop with a test and an update, from its first `;` on.
    #[inline(never)]
    fn counting(
        &self,
        reader: &mut Reader<'_>,
        start: u32,
        context: Context,
        init: Option<ReadNode>,
    ) -> Result<ReadNode, Refusal>
        requires { Callable self.now.depth (F.pre self.now.node) }
    {
        let mut read = Parts::new(self.alloc, Form::For)?;
        read.push_maybe(init)?;
        let left = behind_first(first_pieces(Form::For));
        self.pieces(reader, left, Form::For, context, &mut read)?;
        self.finish(reader, Form::For, start, read)
    }
}
