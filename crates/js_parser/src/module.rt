//! Imports and exports.

ghost use Rattle.js_parser.specs.Callable.{Callable};

use crate::expected::Expected;
use crate::grammar::Grammar;
use crate::lookahead::{begins_default_declaration, function_flow, peek_kind};
use crate::nodes::{Parts, ReadNode};
use crate::reader::Reader;
use crate::spelled::behind_first;
use crate::tokens::{end_statement, expect_punctuator, passes};
use js_forms::{ASSIGNMENT, Category, Context, Form, MetaWord, Spelling, Test, pieces};
use js_lexer::{Cursor, Refusal};
use js_tokens::{Punctuator, TokenKind, Word, is_reserved};
use std::alloc::Global;
use tree_core::{Place, Scalar, Slot};

const AS: Test = Test::Spelled(MetaWord::As);

// Whether the name is a reserved word.
fn is_reserved_name(name: &Place) -> bool {
    match &name.node {
        Some(node) => match node.scalars.get(0) {
            Some(Scalar::Text(units)) => is_reserved(units),
            _ => false,
        },
        None => false,
    }
}

// Whether the first name of the specifier is a reserved word.
fn begins_reserved(specifier: &Place) -> bool {
    match &specifier.node {
        Some(node) => match node.slots.get(0) {
            Some(Slot::Single(name)) => is_reserved_name(name),
            _ => false,
        },
        None => false,
    }
}

// Whether one of the names that are exported is a reserved word.
fn exports_reserved(specifiers: &[Place]) -> bool {
    for specifier in specifiers {
        if begins_reserved(specifier) {
            return true;
        }
    }
    false
}

// The spelling of an import whose default is read: what comes behind it.
fn default_spelling(cursor: &Cursor<'_>) -> Spelling {
    if !cursor.sees_mark(Punctuator::Comma) {
        return Spelling::DefaultAlone;
    }
    if peek_kind(cursor).is_punctuator(Punctuator::OpenBrace) {
        return Spelling::DefaultAndNames;
    }
    Spelling::DefaultAndNamespace
}

impl<F: Fn(Global, &mut Reader<'_>, u32, Expected) -> Result<ReadNode, Refusal>> Grammar<F> {
    pub fn import(&self, reader: &mut Reader<'_>, context: Context) -> Result<ReadNode, Refusal>
        requires { Callable self.now.depth (F.pre self.now.node) }
    {
        let spelling = match peek_kind(&reader.cursor) {
            TokenKind::Quoted => Spelling::Usual,
            TokenKind::Punctuator(Punctuator::OpenBrace) => Spelling::Names,
            TokenKind::Punctuator(Punctuator::Star) => Spelling::Namespace,
            _ => return self.default_import(reader, context),
        };
        self.begun_as(reader, Form::Import, spelling, context)
    }

    // An import that begins with a default.
    fn default_import(&self, reader: &mut Reader<'_>, context: Context) -> Result<ReadNode, Refusal>
        requires { Callable self.now.depth (F.pre self.now.node) }
    {
        let start = reader.cursor.start();
        reader.cursor.take();
        let first = self.node(reader, Expected::new(Category::ImportDefault, 0, context))?;
        let mut read = Parts::new(self.alloc, Form::Import)?;
        read.begin_list(self.alone(first)?)?;
        let left = behind_first(pieces(Form::Import, default_spelling(&reader.cursor)));
        self.pieces(reader, left, Form::Import, context, &mut read)?;
        self.finish(reader, Form::Import, start, read)
    }

    pub fn import_specifier(
        &self,
        reader: &mut Reader<'_>,
        context: Context,
    ) -> Result<ReadNode, Refusal>
        requires { Callable self.now.depth (F.pre self.now.node) }
    {
        let start = reader.cursor.start();
        let imported = self.node(reader, Expected::new(Category::AnyName, 0, context))?;
        if passes(&reader.cursor, AS) {
            return self.filled(reader, Form::ImportSpecifier, start, context, imported);
        }
        let (imported, local) = self.shorthand_pair(reader, start, imported)?;
        let form = Form::ImportShorthand;
        self.over_two(reader, form, start, Some(imported), Some(local))
    }

    pub fn export_specifier(
        &self,
        reader: &mut Reader<'_>,
        context: Context,
    ) -> Result<ReadNode, Refusal>
        requires { Callable self.now.depth (F.pre self.now.node) }
    {
        let start = reader.cursor.start();
        let local = self.node(reader, Expected::new(Category::AnyName, 0, context))?;
        if passes(&reader.cursor, AS) {
            return self.filled(reader, Form::ExportSpecifier, start, context, local);
        }
        let (local, exported) = self.with_mirror(reader, start, local)?;
        let form = Form::ExportShorthand;
        self.over_two(reader, form, start, Some(local), Some(exported))
    }

    pub fn export(&self, reader: &mut Reader<'_>, context: Context) -> Result<ReadNode, Refusal>
        requires { Callable self.now.depth (F.pre self.now.node) }
    {
        match peek_kind(&reader.cursor) {
            TokenKind::Punctuator(Punctuator::Star) => self.begun(reader, Form::ExportAll, context),
            TokenKind::Punctuator(Punctuator::OpenBrace) => self.export_names(reader, context),
            TokenKind::Name(Word::Default) => self.export_default(reader, context),
            _ => self.begun(reader, Form::ExportDeclaration, context),
        }
    }

    // Names in braces. Without a source each is a name that is no reserved word.
    fn export_names(&self, reader: &mut Reader<'_>, context: Context) -> Result<ReadNode, Refusal>
        requires { Callable self.now.depth (F.pre self.now.node) }
    {
        let start = reader.cursor.start();
        reader.cursor.take();
        expect_punctuator(&mut reader.cursor, Punctuator::OpenBrace)?;
        let specifier = Expected::new(Category::ExportSpecifier, 0, context);
        let names = self.commas(reader, specifier, false)?;
        expect_punctuator(&mut reader.cursor, Punctuator::CloseBrace)?;
        let source = if reader.cursor.eat_word(Word::From) {
            Some(self.node(reader, Expected::new(Category::Source, 0, context))?)
        } else {
            if exports_reserved(names.places.as_slice()) {
                return Err(reader.cursor.refuse());
            }
            None
        };
        end_statement(&mut reader.cursor)?;
        self.over_list_between(reader, Form::ExportNames, start, None, names, source)
    }

    fn export_default(&self, reader: &mut Reader<'_>, context: Context) -> Result<ReadNode, Refusal>
        requires { Callable self.now.depth (F.pre self.now.node) }
    {
        let start = reader.cursor.start();
        reader.cursor.take();
        reader.cursor.take();
        if begins_default_declaration(&reader.cursor) {
            let expected = Expected::new(Category::DefaultDeclaration, 0, context);
            let declaration = self.node(reader, expected)?;
            return self.over_one(reader, Form::ExportDefaultDeclaration, start, declaration);
        }
        let value = self.node(
            reader,
            Expected::new(Category::Expression, ASSIGNMENT, context),
        )?;
        end_statement(&mut reader.cursor)?;
        self.over_one(reader, Form::ExportDefault, start, value)
    }

    /// A function or a class that is exported by default, which may lack its name.
    pub fn default_declaration(
        &self,
        reader: &mut Reader<'_>,
        context: Context,
    ) -> Result<ReadNode, Refusal>
        requires { Callable self.now.depth (F.pre self.now.node) }
    {
        let form = if reader.cursor.sees_word(Word::Class) {
            Form::ClassDeclaration
        } else {
            Form::FunctionDeclaration(function_flow(&reader.cursor))
        };
        self.begun_as(reader, form, Spelling::Default, context)
    }
}
