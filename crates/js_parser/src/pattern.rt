//! Patterns that are told to be such by what stands before them: declarations and parameters.

ghost use Rattle.js_parser.specs.Callable.{Callable};

use crate::expected::Expected;
use crate::grammar::Grammar;
use crate::nodes::ReadNode;
use crate::reader::Reader;
use js_forms::{Category, Context, Form};
use js_lexer::{Cursor, Refusal};
use js_tokens::Punctuator;
use pattern_cover::PatternError;
use std::alloc::Global;

/// The refusal of what is no pattern, at the next token.
pub fn refused_pattern(cursor: &mut Cursor<'_>, error: PatternError) -> Refusal {
    match error {
        PatternError::NoMemory => Refusal::NoMemory,
        PatternError::NotPattern => cursor.refuse(),
    }
}

// The form of a name or a pattern that is declared.
fn binding_form(cursor: &Cursor<'_>) -> Form {
    if cursor.sees_mark(Punctuator::OpenBracket) {
        return Form::ArrayPattern;
    }
    if cursor.sees_mark(Punctuator::OpenBrace) {
        return Form::ObjectPattern;
    }
    Form::Name
}

impl<F: Fn(Global, &mut Reader<'_>, u32, Expected) -> Result<ReadNode, Refusal>> Grammar<F> {
    /// A name or a pattern, with a default or behind `...` where the place takes that.
    pub fn binding(&self, reader: &mut Reader<'_>, expected: Expected) -> Result<ReadNode, Refusal>
        requires { Callable self.now.depth (F.pre self.now.node) }
    {
        let start = reader.cursor.start();
        let context = expected.context;
        let takes_rest = expected.category == Category::BindingElement;
        if takes_rest && reader.cursor.sees_mark(Punctuator::Ellipsis) {
            return self.begun(reader, Form::Rest, context);
        }
        let form = binding_form(&reader.cursor);
        let binding = self.begun(reader, form, context)?;
        if expected.category == Category::Binding {
            return Ok(binding);
        }
        self.with_default(reader, context, start, binding)
    }

    /// The name or pattern with the default that may come.
    pub fn with_default(
        &self,
        reader: &mut Reader<'_>,
        context: Context,
        start: u32,
        binding: ReadNode,
    ) -> Result<ReadNode, Refusal>
        requires { Callable self.now.depth (F.pre self.now.node) }
    {
        if !reader.cursor.sees_mark(Punctuator::Assign) {
            return Ok(binding);
        }
        self.filled(reader, Form::Default, start, context, binding)
    }

    /// A property of an object pattern, or `...` and a name.
    pub fn binding_property(
        &self,
        reader: &mut Reader<'_>,
        context: Context,
    ) -> Result<ReadNode, Refusal>
        requires { Callable self.now.depth (F.pre self.now.node) }
    {
        if reader.cursor.sees_mark(Punctuator::Ellipsis) {
            return self.begun(reader, Form::NameRest, context);
        }
        let start = reader.cursor.start();
        let (key, computed) = self.key(reader, context, Category::ObjectKey)?;
        if reader.cursor.sees_mark(Punctuator::Colon) {
            let form = Form::PatternProperty(computed);
            return self.filled(reader, form, start, context, key);
        }
        let (key, name) = self.shorthand_pair(reader, start, key)?;
        let value = self.with_default(reader, context, start, name)?;
        let form = Form::PatternShorthand;
        self.over_two(reader, form, start, Some(key), Some(value))
    }
}
