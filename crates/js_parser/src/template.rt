//! Templates.

ghost use Rattle.js_parser.specs.Callable.{Callable};

use crate::expected::Expected;
use crate::grammar::Grammar;
use crate::nodes::{Children, ReadNode};
use crate::reader::{Quasi, Reader};
use js_forms::{Category, Context, Form, SEQUENCE};
use js_lexer::Refusal;
use js_tokens::{Goal, Punctuator, TemplatePart, TokenKind, cook_template, units};
use std::alloc::Global;

fn is_last(part: TemplatePart) -> bool {
    match part {
        TemplatePart::Whole | TemplatePart::Tail => true,
        TemplatePart::Head | TemplatePart::Middle => false,
    }
}

// The characters of the part, without the marks at its ends.
fn characters(text: &[u8], last: bool) -> &[u8] {
    let behind = if last { 1 } else { 2 };
    if text.len() < behind + 1 {
        return text;
    }
    &text[1..text.len() - behind]
}

impl<F: Fn(Global, &mut Reader<'_>, u32, Expected) -> Result<ReadNode, Refusal>> Grammar<F> {
    /// A template. Behind a tag its escapes may be any.
    pub fn template(
        &self,
        reader: &mut Reader<'_>,
        context: Context,
        tagged: bool,
    ) -> Result<ReadNode, Refusal>
        requires { Callable self.now.depth (F.pre self.now.node) }
    {
        let start = reader.cursor.start();
        let mut quasis = Children::new(self.alloc);
        let mut expressions = Children::new(self.alloc);
        for _turn in 0..reader.cursor.turns() {
            let (quasi, last) = self.quasi(reader, tagged)?;
            quasis.push(quasi)?;
            if last {
                return self.over_lists(reader, Form::Template, start, quasis, expressions);
            }
            let hole = self.node(
                reader,
                Expected::new(Category::Expression, SEQUENCE, context.free()),
            )?;
            expressions.push(hole)?;
            if !reader.cursor.sees_mark(Punctuator::CloseBrace) {
                return Err(reader.cursor.refuse());
            }
            reader.cursor.rescan(Goal::TemplateTail);
        }
        Err(reader.cursor.refuse())
    }

    // The characters up to the next hole or the end, and whether that is the end.
    fn quasi(&self, reader: &mut Reader<'_>, tagged: bool) -> Result<(ReadNode, bool), Refusal> {
        let TokenKind::Template(part) = reader.cursor.kind() else {
            return Err(reader.cursor.refuse());
        };
        let last = is_last(part);
        let raw = characters(reader.cursor.text(), last);
        if !tagged && cook_template(self.alloc, raw)?.is_none() {
            return Err(reader.cursor.refuse());
        }
        let start = reader.cursor.start();
        let text = units(self.alloc, raw, true)?;
        reader.cursor.take();
        let quasi = self.over_text(reader, Form::TemplateElement, start, text)?;
        if let Some(number) = quasi.tree.from {
            reader.quasis.push(Quasi { number, last })?;
        }
        Ok((quasi, last))
    }
}
