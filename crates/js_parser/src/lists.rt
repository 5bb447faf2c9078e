//! The pieces of forms that are lists of children.

ghost use Rattle.js_parser.specs.Callable.{Callable};

use crate::expected::Expected;
use crate::grammar::Grammar;
use crate::nodes::{Children, Parts, ReadNode};
use crate::reader::Reader;
use js_forms::{ASSIGNMENT, Category, Context, Form, Piece, Variable};
use js_lexer::{Cursor, Refusal};
use js_tokens::{Punctuator, TokenKind, Word};
use std::alloc::Global;

fn is_rest(form: Form) -> bool {
    matches!(form, Form::Rest | Form::NameRest)
}

fn is_constant(form: Form) -> bool {
    matches!(
        form,
        Form::Variables(Variable::Const) | Form::HeadVariables(Variable::Const)
    )
}

// What surrounds the item behind one of this form: a directive stands behind directives alone.
fn behind_item(context: Context, form: Form) -> Context {
    context.with_directives(context.directives && matches!(form, Form::Directive))
}

// Whether a row of children ends before the next token, which is none with which a statement begins.
fn ends_row(cursor: &Cursor<'_>, category: Category) -> bool {
    if cursor.sees_mark(Punctuator::CloseBrace) || matches!(cursor.kind(), TokenKind::End) {
        return true;
    }
    category == Category::Item && (cursor.sees_word(Word::Case) || cursor.sees_word(Word::Default))
}

fn ends_list(cursor: &Cursor<'_>) -> bool {
    cursor.sees_mark(Punctuator::CloseParen)
        || cursor.sees_mark(Punctuator::CloseBracket)
        || cursor.sees_mark(Punctuator::CloseBrace)
}

impl<F: Fn(Global, &mut Reader<'_>, u32, Expected) -> Result<ReadNode, Refusal>> Grammar<F> {
    /// Adds the list that the piece spells.
    pub fn several(
        &self,
        reader: &mut Reader<'_>,
        piece: Piece,
        form: Form,
        context: Context,
        read: &mut Parts,
    ) -> Result<(), Refusal>
        requires { Callable self.now.depth (F.pre self.now.node) }
    {
        let children = match piece {
            Piece::Row(place, semicolons) => {
                let expected = Expected::at(place, form.flow(), context);
                self.row(reader, expected, semicolons)?
            }
            Piece::Commas(place, holes, _) => match place.category {
                Category::Declarator => self.declarators(reader, form, context)?,
                _ => {
                    let expected = Expected::at(place, form.flow(), context);
                    self.commas(reader, expected, holes)?
                }
            },
            _ => Children::new(self.alloc),
        };
        Ok(read.push_list(children)?)
    }

    /// Children with commas between them, up to a closing token or behind a rest.
    pub fn commas(
        &self,
        reader: &mut Reader<'_>,
        expected: Expected,
        holes: bool,
    ) -> Result<Children, Refusal>
        requires { Callable self.now.depth (F.pre self.now.node) }
    {
        let mut found = Children::new(self.alloc);
        for _turn in 0..reader.cursor.turns() {
            if ends_list(&reader.cursor) {
                return Ok(found);
            }
            if holes && reader.cursor.eat_mark(Punctuator::Comma) {
                found.push_hole()?;
            } else {
                let item = self.node(reader, expected)?;
                let last = is_rest(item.form);
                found.push(item)?;
                if last || !reader.cursor.eat_mark(Punctuator::Comma) {
                    return Ok(found);
                }
            }
        }
        Err(reader.cursor.refuse())
    }

    // Children in a row, of which those up to the first other may be directives, and one may be the
    // default case.
    fn row(
        &self,
        reader: &mut Reader<'_>,
        mut expected: Expected,
        semicolons: bool,
    ) -> Result<Children, Refusal>
        requires { Callable self.now.depth (F.pre self.now.node) }
    {
        let mut found = Children::new(self.alloc);
        let mut has_default = false;
        for _turn in 0..reader.cursor.turns() {
            if ends_row(&reader.cursor, expected.category) {
                return Ok(found);
            }
            if has_default && reader.cursor.sees_word(Word::Default) {
                return Err(reader.cursor.refuse());
            }
            if !(semicolons && reader.cursor.eat_mark(Punctuator::Semicolon)) {
                let child = self.node(reader, expected)?;
                has_default = has_default || matches!(child.form, Form::DefaultCase);
                expected.context = behind_item(expected.context, child.form);
                found.push(child)?;
            }
        }
        Ok(found)
    }

    fn declarators(
        &self,
        reader: &mut Reader<'_>,
        form: Form,
        context: Context,
    ) -> Result<Children, Refusal>
        requires { Callable self.now.depth (F.pre self.now.node) }
    {
        let start = reader.cursor.start();
        let id = self.node(reader, Expected::new(Category::Binding, 0, context))?;
        let first = self.declarator(reader, form, start, id, context)?;
        let found = self.alone(first)?;
        self.more_declarators(reader, form, found, context)
    }

    /// Goes on with declarators as long as commas come.
    pub fn more_declarators(
        &self,
        reader: &mut Reader<'_>,
        form: Form,
        mut found: Children,
        context: Context,
    ) -> Result<Children, Refusal>
        requires { Callable self.now.depth (F.pre self.now.node) }
    {
        for _turn in 0..reader.cursor.turns() {
            if !reader.cursor.eat_mark(Punctuator::Comma) {
                return Ok(found);
            }
            let start = reader.cursor.start();
            let id = self.node(reader, Expected::new(Category::Binding, 0, context))?;
            let next = self.declarator(reader, form, start, id, context)?;
            found.push(next)?;
        }
        Ok(found)
    }

    /// The declarator that begins with the name or pattern: a pattern or a constant has a value.
    pub fn declarator(
        &self,
        reader: &mut Reader<'_>,
        form: Form,
        start: u32,
        id: ReadNode,
        context: Context,
    ) -> Result<ReadNode, Refusal>
        requires { Callable self.now.depth (F.pre self.now.node) }
    {
        let value = if reader.cursor.eat_mark(Punctuator::Assign) {
            Some(self.node(
                reader,
                Expected::new(Category::Expression, ASSIGNMENT, context),
            )?)
        } else {
            if id.is_pattern() || is_constant(form) {
                return Err(reader.cursor.refuse());
            }
            None
        };
        self.over_two(reader, Form::Declarator, start, Some(id), value)
    }
}
