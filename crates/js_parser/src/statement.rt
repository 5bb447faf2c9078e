//! Statements.

ghost use Rattle.js_parser.specs.Callable.{Callable};

use crate::expected::Expected;
use crate::grammar::Grammar;
use crate::lookahead::{begins_async_function, function_flow, peek_kind};
use crate::nodes::ReadNode;
use crate::reader::Reader;
use crate::tokens::{end_statement, inside};
use js_forms::{Category, Context, Form, SEQUENCE, Sort, Variable};
use js_lexer::{Cursor, Refusal};
use js_tokens::{Punctuator, TokenKind, Word, units};
use std::alloc::Global;

/// What begins with the next token at a statement's place.
#[derive(Clone, Copy, PartialEq, Eq)]
enum Start {
    /// A form that the table tells.
    Form(Form),
    For,
    Expression,
    Import,
    Export,
    /// Nothing from this token on.
    Nothing,
    /// Nothing from the token behind this one on.
    NothingBehind,
}

fn takes_declarations(category: Category) -> bool {
    !matches!(category, Category::Statement)
}

fn declared(expected: Expected, form: Form) -> Start {
    if takes_declarations(expected.category) {
        return Start::Form(form);
    }
    Start::Nothing
}

fn statement_start(cursor: &Cursor<'_>, expected: Expected) -> Start {
    match cursor.kind() {
        TokenKind::Punctuator(mark) => match mark {
            Punctuator::OpenBrace => Start::Form(Form::Block),
            Punctuator::Semicolon => Start::Form(Form::Empty),
            _ => Start::Expression,
        },
        TokenKind::Name(word) => word_start(cursor, expected, word),
        _ => Start::Expression,
    }
}

fn word_start(cursor: &Cursor<'_>, expected: Expected, word: Word) -> Start {
    match word {
        Word::Var => Start::Form(Form::Variables(Variable::Var)),
        Word::Let => declared(expected, Form::Variables(Variable::Let)),
        Word::Const => declared(expected, Form::Variables(Variable::Const)),
        Word::Function => declared(expected, Form::FunctionDeclaration(function_flow(cursor))),
        Word::Class => declared(expected, Form::ClassDeclaration),
        Word::If => Start::Form(Form::If),
        Word::For => Start::For,
        Word::While => Start::Form(Form::While),
        Word::Do => Start::Form(Form::DoWhile),
        Word::Return => Start::Form(Form::Return),
        Word::Break => Start::Form(Form::Break),
        Word::Continue => Start::Form(Form::Continue),
        Word::Throw => Start::Form(Form::Throw),
        Word::Try => Start::Form(Form::Try),
        Word::Switch => Start::Form(Form::Switch),
        Word::With => Start::Form(Form::With),
        Word::Debugger => Start::Form(Form::Debugger),
        Word::Import => import_start(cursor, expected),
        Word::Export => match expected.category {
            Category::ModuleItem => Start::Export,
            _ => Start::Nothing,
        },
        _ => name_start(cursor, expected),
    }
}

fn import_start(cursor: &Cursor<'_>, expected: Expected) -> Start {
    let behind = peek_kind(cursor);
    if behind.is_punctuator(Punctuator::OpenParen) || behind.is_punctuator(Punctuator::Dot) {
        return Start::Expression;
    }
    match expected.category {
        Category::ModuleItem => Start::Import,
        _ => Start::NothingBehind,
    }
}

fn name_start(cursor: &Cursor<'_>, expected: Expected) -> Start {
    if begins_async_function(cursor) {
        if takes_declarations(expected.category) {
            return Start::Form(Form::FunctionDeclaration(function_flow(cursor)));
        }
        return Start::NothingBehind;
    }
    Start::Expression
}

// Whether it is a declaration, as an export takes one.
fn is_declaration(start: Start) -> bool {
    match start {
        Start::Form(form) => matches!(
            form,
            Form::Variables(_) | Form::FunctionDeclaration(_) | Form::ClassDeclaration
        ),
        _ => false,
    }
}

// Whether the expression may be the label of a statement: a name in no parentheses.
fn is_label(node: &ReadNode) -> bool {
    !node.grouped && node.is_name()
}

// Whether the expression is a string in no parentheses.
fn is_string(node: &ReadNode) -> bool {
    !node.grouped && matches!(node.form, Form::Literal(Sort::Quoted))
}

impl<F: Fn(Global, &mut Reader<'_>, u32, Expected) -> Result<ReadNode, Refusal>> Grammar<F> {
    pub fn statement(
        &self,
        reader: &mut Reader<'_>,
        expected: Expected,
    ) -> Result<ReadNode, Refusal>
        requires { Callable self.now.depth (F.pre self.now.node) }
    {
        let start = statement_start(&reader.cursor, expected);
        if expected.category == Category::Declaration && !is_declaration(start) {
            return Err(reader.cursor.refuse());
        }
        let context = expected.context;
        match start {
            Start::Form(form) => self.begun(reader, form, context.free()),
            Start::For => self.for_statement(reader, context.free()),
            Start::Expression => self.expression_statement(reader, context),
            Start::Import => self.import(reader, context),
            Start::Export => self.export(reader, context),
            Start::Nothing => Err(reader.cursor.refuse()),
            Start::NothingBehind => {
                reader.cursor.take();
                Err(reader.cursor.refuse())
            }
        }
    }

    // A statement that is an expression, a directive, or one with a label.
    fn expression_statement(
        &self,
        reader: &mut Reader<'_>,
        context: Context,
    ) -> Result<ReadNode, Refusal>
        requires { Callable self.now.depth (F.pre self.now.node) }
    {
        let start = reader.cursor.start();
        let first = inside(reader.cursor.text());
        let expression = self.node(
            reader,
            Expected::new(Category::Expression, SEQUENCE, context),
        )?;
        if is_label(&expression) && reader.cursor.sees_mark(Punctuator::Colon) {
            return self.filled(reader, Form::Labeled, start, context.free(), expression);
        }
        end_statement(&mut reader.cursor)?;
        if context.directives && is_string(&expression) {
            let text = units(self.alloc, first, false)?;
            return self.over_text(reader, Form::Directive, start, text);
        }
        self.over_one(reader, Form::ExpressionStatement, start, expression)
    }
}
