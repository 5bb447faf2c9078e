//! The members of objects and classes: words before a key, the key, and what stands behind it.

ghost use Rattle.js_parser.specs.Callable.{Callable};

use crate::expected::Expected;
use crate::grammar::Grammar;
use crate::lookahead::peek;
use crate::nodes::{ReadNode, Summary};
use crate::reader::Reader;
use crate::tokens::expect_punctuator;
use js_forms::{
    ASSIGNMENT, Access, Category, Context, Flow, Form, Key, PRIMARY, Spelling, Standing,
};
use js_lexer::{Cursor, Refusal};
use js_tokens::{Punctuator, Token, TokenKind, Word, is_reserved};
use std::alloc::Global;
use tree_core::{Scalar, Tree, copy};
use type_defs::Kind;

/// The words before a key.
#[derive(Clone, Copy)]
struct Modifiers {
    standing: Standing,
    access: Access,
    flow: Flow,
}

// Whether a key begins with the token.
fn begins_key(kind: TokenKind) -> bool {
    match kind {
        TokenKind::Name(_)
        | TokenKind::Quoted
        | TokenKind::Number
        | TokenKind::BigInt
        | TokenKind::Private => true,
        _ => kind.is_punctuator(Punctuator::OpenBracket),
    }
}

// Whether a member's name ends with the token before this one.
fn ends_member(kind: TokenKind) -> bool {
    match kind {
        TokenKind::Punctuator(mark) => match mark {
            Punctuator::OpenParen
            | Punctuator::Assign
            | Punctuator::Semicolon
            | Punctuator::CloseBrace => true,
            _ => false,
        },
        TokenKind::End => true,
        _ => false,
    }
}

fn takes_static(cursor: &Cursor<'_>) -> bool {
    if !cursor.sees_word(Word::Static) {
        return false;
    }
    match peek(cursor) {
        Some(token) => !ends_member(token.kind),
        None => false,
    }
}

// The token behind the next one, if that is the word.
fn behind(cursor: &Cursor<'_>, word: Word) -> Option<Token> {
    if cursor.sees_word(word) {
        return peek(cursor);
    }
    None
}

fn takes_access(cursor: &Cursor<'_>, word: Word) -> bool {
    match behind(cursor, word) {
        Some(token) => begins_key(token.kind),
        None => false,
    }
}

fn takes_async(cursor: &Cursor<'_>) -> bool {
    match behind(cursor, Word::Async) {
        Some(token) => {
            !token.broken_before
                && (begins_key(token.kind) || token.kind.is_punctuator(Punctuator::Star))
        }
        None => false,
    }
}

// Passes the words before a key.
fn take_modifiers(cursor: &mut Cursor<'_>, in_class: bool) -> Modifiers {
    let standing = if in_class && takes_static(cursor) {
        cursor.take();
        Standing::Static
    } else {
        Standing::Instance
    };
    let access = if takes_access(cursor, Word::Get) {
        cursor.take();
        Access::Get
    } else if takes_access(cursor, Word::Set) {
        cursor.take();
        Access::Set
    } else {
        Access::Method
    };
    let flow = match access {
        Access::Method => flow(cursor),
        _ => Flow::Plain,
    };
    Modifiers {
        standing,
        access,
        flow,
    }
}

fn flow(cursor: &mut Cursor<'_>) -> Flow {
    let is_async = takes_async(cursor);
    if is_async {
        cursor.take();
    }
    let generator = cursor.eat_mark(Punctuator::Star);
    Flow::new(is_async, generator)
}

// Whether the key is the name or the string `constructor`.
fn is_constructor(key: &Tree) -> bool {
    match key.kind {
        Kind::Identifier => key.scalars.is_text_at(0, "constructor"),
        Kind::Literal => key.scalars.is_text_at(0, "string")
            && key.scalars.is_text_at(1, "constructor"),
        _ => false,
    }
}

// Whether it is `#constructor`.
fn is_private_constructor(key: &Tree) -> bool {
    matches!(key.kind, Kind::PrivateIdentifier) && key.scalars.is_text_at(0, "constructor")
}

// Whether it is a name that is no reserved word.
fn is_free_name(key: &ReadNode) -> bool {
    match key.form {
        Form::AnyName => match key.tree.scalars.get(0) {
            Some(Scalar::Text(units)) => !is_reserved(units),
            _ => false,
        },
        _ => false,
    }
}

// The form of a property with this key, but for a shorthand.
fn property_form(cursor: &Cursor<'_>, words: Modifiers, key: Key) -> Option<Form> {
    match words.access {
        Access::Get | Access::Set => return Some(Form::PropertyMethod(
            words.access,
            words.flow,
            key,
        )),
        _ => {}
    }
    let is_method = cursor.sees_mark(Punctuator::OpenParen);
    if is_method || words.flow != Flow::Plain {
        return Some(Form::PropertyMethod(Access::Method, words.flow, key));
    }
    if cursor.sees_mark(Punctuator::Colon) {
        return Some(Form::Property(key));
    }
    None
}

// The form of a member of a class with this key.
fn member_form(cursor: &Cursor<'_>, words: Modifiers, computed: Key, key: &Tree) -> Form {
    match words.access {
        Access::Get | Access::Set => {
            return Form::Method(words.access, words.standing, words.flow, computed);
        }
        _ => {}
    }
    let is_method = cursor.sees_mark(Punctuator::OpenParen);
    if !is_method && words.flow == Flow::Plain {
        return Form::Field(words.standing, computed);
    }
    let constructs = words.standing == Standing::Instance
        && computed == Key::Plain
        && is_constructor(key);
    let access = if constructs {
        Access::Constructor
    } else {
        Access::Method
    };
    Form::Method(access, words.standing, words.flow, computed)
}

// A field has a value where `=` comes.
fn member_spelling(cursor: &Cursor<'_>, form: Form) -> Spelling {
    match form {
        Form::Field(_, _) if cursor.sees_mark(Punctuator::Assign) => Spelling::WithValue,
        _ => Spelling::Usual,
    }
}

impl<F: Fn(Global, &mut Reader<'_>, u32, Expected) -> Result<ReadNode, Refusal>> Grammar<F> {
    /// A key of this category, or one in brackets.
    pub fn key(
        &self,
        reader: &mut Reader<'_>,
        context: Context,
        category: Category,
    ) -> Result<(ReadNode, Key), Refusal>
        requires { Callable self.now.depth (F.pre self.now.node) }
    {
        let context = context.free();
        if !reader.cursor.eat_mark(Punctuator::OpenBracket) {
            let key = self.node(reader, Expected::new(category, 0, context))?;
            return Ok((key, Key::Plain));
        }
        let key = self.node(
            reader,
            Expected::new(Category::Expression, ASSIGNMENT, context),
        )?;
        expect_punctuator(&mut reader.cursor, Punctuator::CloseBracket)?;
        Ok((key, Key::Computed))
    }

    /// A property of an object, or `...` and an expression.
    pub fn object_item(
        &self,
        reader: &mut Reader<'_>,
        context: Context,
    ) -> Result<ReadNode, Refusal>
        requires { Callable self.now.depth (F.pre self.now.node) }
    {
        if reader.cursor.sees_mark(Punctuator::Ellipsis) {
            return self.expression(
                reader,
                Expected::new(Category::Element, ASSIGNMENT, context),
            );
        }
        let start = reader.cursor.start();
        let words = take_modifiers(&mut reader.cursor, false);
        let (key, computed) = self.key(reader, context, Category::ObjectKey)?;
        match property_form(&reader.cursor, words, computed) {
            Some(form) => self.filled(reader, form, start, context, key),
            None => self.shorthand(reader, start, context, key),
        }
    }

    // A shorthand property, perhaps with a default as in a pattern.
    fn shorthand(
        &self,
        reader: &mut Reader<'_>,
        start: u32,
        context: Context,
        key: ReadNode,
    ) -> Result<ReadNode, Refusal>
        requires { Callable self.now.depth (F.pre self.now.node) }
    {
        let (key, name) = self.shorthand_pair(reader, start, key)?;
        let must_become_pattern = reader.cursor.sees_mark(Punctuator::Assign);
        let value = self.with_default(reader, context, start, name)?;
        let form = Form::ShorthandProperty;
        let whole = self.over_two(reader, form, start, Some(key), Some(value))?;
        let summary = Summary {
            must_become_pattern: must_become_pattern || whole.summary.must_become_pattern,
            ..whole.summary
        };
        Ok(ReadNode { summary, ..whole })
    }

    /// The name and a copy of it: a name that is spelled once for two children, which is no reserved
    /// word.
    pub fn shorthand_pair(
        &self,
        reader: &mut Reader<'_>,
        start: u32,
        name: ReadNode,
    ) -> Result<(ReadNode, ReadNode), Refusal> {
        if !is_free_name(&name) {
            return Err(reader.cursor.refuse());
        }
        self.with_mirror(reader, start, name)
    }

    /// The name and a copy of it.
    pub fn with_mirror(
        &self,
        reader: &mut Reader<'_>,
        start: u32,
        name: ReadNode,
    ) -> Result<(ReadNode, ReadNode), Refusal> {
        let mut tree = copy(self.alloc, &name.tree)?;
        tree.from = Some(reader.cursor.numbered(start)?);
        let tree = tree.boxed(self.alloc)?;
        let mirror = ReadNode {
            tree,
            form: Form::Name,
            level: PRIMARY,
            grouped: false,
            summary: name.summary,
        };
        Ok((name, mirror))
    }

    /// A member of a class.
    pub fn class_item(&self, reader: &mut Reader<'_>, context: Context) -> Result<ReadNode, Refusal>
        requires { Callable self.now.depth (F.pre self.now.node) }
    {
        if let Some(token) = behind(&reader.cursor, Word::Static) {
            if token.kind.is_punctuator(Punctuator::OpenBrace) {
                return self.begun(reader, Form::StaticBlock, context);
            }
        }
        let start = reader.cursor.start();
        let words = take_modifiers(&mut reader.cursor, true);
        let (key, computed) = self.key(reader, context, Category::ClassKey)?;
        if computed == Key::Plain && is_private_constructor(&key.tree) {
            return Err(reader.cursor.refuse());
        }
        let form = member_form(&reader.cursor, words, computed, &key.tree);
        let spelling = member_spelling(&reader.cursor, form);
        self.filled_as(reader, form, spelling, start, context, key)
    }
}
