//! The grammar over a reader of nested trees, which is a function value. So each rule is proved
//! alone, and only that function is a recursion.

ghost use Rattle.js_parser.specs.Callable.{Callable};

use crate::expected::Expected;
use crate::nodes::{Parts, ReadNode};
use crate::reader::Reader;
use crate::spelled::{behind_first, chosen};
use crate::tokens::{end_statement, expect, expect_ahead};
use js_forms::{
    Category, Choice, Context, Form, Piece, Place, Spelling, first_pieces, pieces, plain,
};
use js_lexer::Refusal;
use std::alloc::Global;

#[derive(Clone, Copy)]
pub struct Grammar<F> {
    pub alloc: Global,
    /// How deep trees may still nest below the one that is read.
    pub depth: u32,
    pub node: F,
}

impl<F: Fn(Global, &mut Reader<'_>, u32, Expected) -> Result<ReadNode, Refusal>> Grammar<F> {
    pub fn node(&self, reader: &mut Reader<'_>, expected: Expected) -> Result<ReadNode, Refusal>
        requires { Callable self.now.depth (F.pre self.now.node) }
    {
        (self.node)(self.alloc, reader, self.depth, expected)
    }

    /// A child of the form.
    pub fn child(
        &self,
        reader: &mut Reader<'_>,
        place: Place,
        form: Form,
        context: Context,
    ) -> Result<ReadNode, Refusal>
        requires { Callable self.now.depth (F.pre self.now.node) }
    {
        self.node(reader, Expected::at(place, form.flow(), context))
    }

    /// The node of the form that began at the offset, once its pieces are read.
    pub fn finish(
        &self,
        reader: &mut Reader<'_>,
        form: Form,
        start: u32,
        read: Parts,
    ) -> Result<ReadNode, Refusal> {
        if read.summary.levels > self.depth {
            return Err(reader.cursor.too_deep());
        }
        let from = reader.cursor.numbered(start)?;
        Ok(read.into_node(self.alloc, form, from)?)
    }

    // A piece that is a child, or stands for one.
    fn single(
        &self,
        reader: &mut Reader<'_>,
        piece: Piece,
        form: Form,
        context: Context,
        read: &mut Parts,
    ) -> Result<(), Refusal>
        requires { Callable self.now.depth (F.pre self.now.node) }
    {
        match piece {
            Piece::Child(place) => {
                let child = self.child(reader, place, form, context)?;
                Ok(read.push_child(child)?)
            }
            Piece::Into(place) => {
                let child = self.child(reader, place, form, context)?;
                Ok(read.begin_list(self.alone(child)?)?)
            }
            _ => Ok(read.push_absent()?),
        }
    }

    // Adds what the piece spells to what is read of the form. Templates, and names that are spelled once
    // for two children, have rules of their own.
    fn plain_piece(
        &self,
        reader: &mut Reader<'_>,
        piece: Piece,
        form: Form,
        context: Context,
        read: &mut Parts,
    ) -> Result<(), Refusal>
        requires { Callable self.now.depth (F.pre self.now.node) }
    {
        match piece {
            Piece::Nothing
            | Piece::Scalar(_)
            | Piece::Interpreter
            | Piece::Blank(_)
            | Piece::First(_) => Ok(()),
            Piece::Token(test) => expect(&mut reader.cursor, test),
            Piece::Ahead(test) => expect_ahead(&mut reader.cursor, test),
            Piece::Text(lexeme) => self.text(reader, lexeme, read),
            Piece::Child(_) | Piece::Into(_) | Piece::Hole => {
                self.single(reader, piece, form, context, read)
            }
            Piece::NoList(_) | Piece::Row(_, _) | Piece::Commas(_, _, _) => {
                self.several(reader, piece, form, context, read)
            }
            Piece::End(_, _) => end_statement(&mut reader.cursor),
            Piece::Twins(_, _) | Piece::Template(_) | Piece::Choice(_) | Piece::Own(_) => {
                Err(reader.cursor.refuse())
            }
        }
    }

    // The row of the choice that comes next.
    fn choice(
        &self,
        reader: &mut Reader<'_>,
        choice: Choice,
        form: Form,
        context: Context,
        read: &mut Parts,
    ) -> Result<(), Refusal>
        requires { Callable self.now.depth (F.pre self.now.node) }
    {
        for piece in chosen(&reader.cursor, choice) {
            self.plain_piece(reader, *piece, form, context, read)?;
        }
        Ok(())
    }

    /// Adds what the pieces of the form spell to what is read of it.
    pub fn pieces(
        &self,
        reader: &mut Reader<'_>,
        pieces: &[Piece],
        form: Form,
        context: Context,
        read: &mut Parts,
    ) -> Result<(), Refusal>
        requires { Callable self.now.depth (F.pre self.now.node) }
    {
        for piece in pieces {
            match plain(form, *piece) {
                Piece::Choice(choice) => self.choice(reader, choice, form, context, read)?,
                piece => self.plain_piece(reader, piece, form, context, read)?,
            }
        }
        Ok(())
    }

    // The node of the form that began at the offset: its first child, if that is read, and the pieces.
    #[inline(never)]
    fn whole_form(
        &self,
        reader: &mut Reader<'_>,
        pieces: &[Piece],
        form: Form,
        start: u32,
        context: Context,
        first: Option<ReadNode>,
    ) -> Result<ReadNode, Refusal>
        requires { Callable self.now.depth (F.pre self.now.node) }
    {
        let mut read = Parts::begun(self.alloc, form, first)?;
        self.pieces(reader, pieces, form, context, &mut read)?;
        self.finish(reader, form, start, read)
    }

    /// The node of the form in this spelling that began at the offset with this child.
    pub fn filled_as(
        &self,
        reader: &mut Reader<'_>,
        form: Form,
        spelling: Spelling,
        start: u32,
        context: Context,
        first: ReadNode,
    ) -> Result<ReadNode, Refusal>
        requires { Callable self.now.depth (F.pre self.now.node) }
    {
        let left = behind_first(pieces(form, spelling));
        self.whole_form(reader, left, form, start, context, Some(first))
    }

    /// The node of the form that began at the offset with this child.
    pub fn filled(
        &self,
        reader: &mut Reader<'_>,
        form: Form,
        start: u32,
        context: Context,
        first: ReadNode,
    ) -> Result<ReadNode, Refusal>
        requires { Callable self.now.depth (F.pre self.now.node) }
    {
        let left = behind_first(first_pieces(form));
        self.whole_form(reader, left, form, start, context, Some(first))
    }

    /// The node of a form in this spelling that begins with the next token.
    pub fn begun_as(
        &self,
        reader: &mut Reader<'_>,
        form: Form,
        spelling: Spelling,
        context: Context,
    ) -> Result<ReadNode, Refusal>
        requires { Callable self.now.depth (F.pre self.now.node) }
    {
        let start = reader.cursor.start();
        self.whole_form(reader, pieces(form, spelling), form, start, context, None)
    }

    /// The node of a form that begins with the next token.
    pub fn begun(
        &self,
        reader: &mut Reader<'_>,
        form: Form,
        context: Context,
    ) -> Result<ReadNode, Refusal>
        requires { Callable self.now.depth (F.pre self.now.node) }
    {
        let start = reader.cursor.start();
        self.whole_form(reader, first_pieces(form), form, start, context, None)
    }

    /// The tree that is expected at the place.
    pub fn whole(&self, reader: &mut Reader<'_>, expected: Expected) -> Result<ReadNode, Refusal>
        requires { Callable self.now.depth (F.pre self.now.node) }
    {
        match expected.category {
            Category::Item | Category::ModuleItem | Category::Statement | Category::Declaration =>
                self.statement(reader, expected),
            Category::Expression
            | Category::Cover
            | Category::Argument
            | Category::Element
            | Category::Callee
            | Category::ArrowBody
            | Category::Target => self.expression(reader, expected),
            Category::ObjectItem => self.object_item(reader, expected.context),
            Category::ClassItem => self.class_item(reader, expected.context),
            Category::Binding | Category::BindingElement | Category::BindingValue => {
                self.binding(reader, expected)
            }
            Category::BindingProperty => self.binding_property(reader, expected.context),
            Category::ImportSpecifier => self.import_specifier(reader, expected.context),
            Category::ExportSpecifier => self.export_specifier(reader, expected.context),
            Category::ImportDefault => self.begun(reader, Form::ImportDefault, expected.context),
            Category::ImportNamespace => self.begun(
                reader,
                Form::ImportNamespace,
                expected.context,
            ),
            Category::DefaultDeclaration => self.default_declaration(reader, expected.context),
            Category::Template => self.template(reader, expected.context, true),
            _ => self.simple(reader, expected),
        }
    }

    // A tree whose category, with one token, tells its form.
    fn simple(&self, reader: &mut Reader<'_>, expected: Expected) -> Result<ReadNode, Refusal>
        requires { Callable self.now.depth (F.pre self.now.node) }
    {
        match crate::lookahead::simple_form(&reader.cursor, expected) {
            Some(form) => self.begun(reader, form, expected.context),
            None => Err(reader.cursor.refuse()),
        }
    }
}

/// The tree that is expected at the place, with no more than `depth` nodes and parentheses nested in it.
pub fn node(
    alloc: Global,
    reader: &mut Reader<'_>,
    depth: u32,
    expected: Expected,
) -> Result<ReadNode, Refusal> {
    if depth == 0 {
        return Err(reader.cursor.too_deep());
    }
    let depth = depth - 1;
    Grammar { alloc, depth, node }.whole(reader, expected)
}
