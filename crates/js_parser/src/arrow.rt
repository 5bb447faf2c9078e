//! Expressions in parentheses, and arrows. What stands in parentheses is read as expressions, and
//! converted into parameters where `=>` follows.

ghost use Rattle.js_parser.specs.Callable.{Callable};

use crate::expected::Expected;
use crate::grammar::Grammar;
use crate::lookahead::peek_is_punctuator;
use crate::nodes::{Children, Parts, ReadNode, Summary};
use crate::pattern::refused_pattern;
use crate::programs::MAX_LEVELS;
use crate::reader::Reader;
use crate::spelled::behind_first;
use crate::tokens::expect_punctuator;
use js_forms::{
    ASSIGNMENT, Category, Context, Flow, Form, Link, PRIMARY, Place, Scope, first_pieces,
};
use js_lexer::Refusal;
use js_tokens::Punctuator;
use std::alloc::Global;

/// What stands in parentheses, without the closing one.
#[derive(Drop)]
struct Inside {
    first: Option<ReadNode>,
    more: Children,
    /// Whether it holds what no expression in parentheses does: nothing, a comma at its end, or a rest.
    parameters: bool,
}

impl<F: Fn(Global, &mut Reader<'_>, u32, Expected) -> Result<ReadNode, Refusal>> Grammar<F> {
    /// `async` and an arrow with one name as its parameter.
    pub fn async_arrow(
        &self,
        reader: &mut Reader<'_>,
        context: Context,
    ) -> Result<ReadNode, Refusal>
        requires { Callable self.now.depth (F.pre self.now.node) }
    {
        let start = reader.cursor.start();
        reader.cursor.take();
        let name = self.node(reader, Expected::new(Category::Name, 0, context))?;
        self.lone_arrow(reader, context, start, Flow::Async, name)
    }

    /// An arrow with this name as its parameter.
    pub fn lone_arrow(
        &self,
        reader: &mut Reader<'_>,
        context: Context,
        start: u32,
        flow: Flow,
        name: ReadNode,
    ) -> Result<ReadNode, Refusal>
        requires { Callable self.now.depth (F.pre self.now.node) }
    {
        let parameters = self.alone(name)?;
        self.arrow(reader, context, start, flow, parameters)
    }

    // The arrow with these parameters: `=>` and its body.
    #[inline(never)]
    fn arrow(
        &self,
        reader: &mut Reader<'_>,
        context: Context,
        start: u32,
        flow: Flow,
        parameters: Children,
    ) -> Result<ReadNode, Refusal>
        requires { Callable self.now.depth (F.pre self.now.node) }
    {
        let form = Form::Arrow(flow);
        let mut read = Parts::new(self.alloc, form)?;
        read.push_list(parameters)?;
        let left = behind_first(first_pieces(form));
        self.pieces(reader, left, form, context, &mut read)?;
        self.finish(reader, form, start, read)
    }

    /// An expression in parentheses, or an arrow that begins with one.
    pub fn group(&self, reader: &mut Reader<'_>, expected: Expected) -> Result<ReadNode, Refusal>
        requires { Callable self.now.depth (F.pre self.now.node) }
    {
        let start = reader.cursor.start();
        reader.cursor.take();
        let opening = reader.cursor.start();
        let inside = self.inside(reader, expected.context.free())?;
        if !reader.cursor.sees_mark(Punctuator::CloseParen) {
            return Err(reader.cursor.refuse());
        }
        if expected.least <= ASSIGNMENT && peek_is_punctuator(&reader.cursor, Punctuator::Arrow) {
            return self.group_arrow(reader, expected.context, start, inside);
        }
        if inside.parameters {
            if expected.least <= ASSIGNMENT {
                reader.cursor.take();
            }
            return Err(reader.cursor.refuse());
        }
        self.grouped(reader, opening, inside)
    }

    fn group_arrow(
        &self,
        reader: &mut Reader<'_>,
        context: Context,
        start: u32,
        inside: Inside,
    ) -> Result<ReadNode, Refusal>
        requires { Callable self.now.depth (F.pre self.now.node) }
    {
        let covers = self.all_of(inside)?;
        reader.cursor.take();
        let parameters = self.parameters_of(reader, covers)?;
        self.arrow(reader, context, start, Flow::Plain, parameters)
    }

    fn all_of(&self, inside: Inside) -> Result<Children, Refusal> {
        let Inside {
            first,
            more,
            parameters: _,
        } = inside;
        let Some(first) = first else {
            return Ok(more);
        };
        Ok(self.alone(first)?.append(more)?)
    }

    // The parameters that the covers spell.
    fn parameters_of(
        &self,
        reader: &mut Reader<'_>,
        covers: Children,
    ) -> Result<Children, Refusal> {
        if covers.summary.awaits {
            return Err(reader.cursor.refuse());
        }
        let Children { places, summary } = covers;
        match pattern_cover::parameters(self.alloc, places, &reader.facts, MAX_LEVELS) {
            Ok(places) => Ok(Children {
                places,
                summary: Summary {
                    must_become_pattern: false,
                    ..summary
                },
            }),
            Err(error) => Err(refused_pattern(&mut reader.cursor, error)),
        }
    }

    // What stands in parentheses, up to the closing one.
    fn inside(&self, reader: &mut Reader<'_>, context: Context) -> Result<Inside, Refusal>
        requires { Callable self.now.depth (F.pre self.now.node) }
    {
        if reader.cursor.sees_mark(Punctuator::CloseParen) {
            return Ok(Inside {
                first: None,
                more: Children::new(self.alloc),
                parameters: true,
            });
        }
        if reader.cursor.sees_mark(Punctuator::Ellipsis) {
            let rest = self.node(
                reader,
                Expected::new(Category::BindingElement, ASSIGNMENT, context),
            )?;
            return Ok(Inside {
                first: Some(rest),
                more: Children::new(self.alloc),
                parameters: true,
            });
        }
        let first = self.node(reader, Expected::new(Category::Cover, ASSIGNMENT, context))?;
        self.inside_from(reader, context, first)
    }

    fn inside_from(
        &self,
        reader: &mut Reader<'_>,
        context: Context,
        first: ReadNode,
    ) -> Result<Inside, Refusal>
        requires { Callable self.now.depth (F.pre self.now.node) }
    {
        let mut more = Children::new(self.alloc);
        let mut parameters = false;
        for _turn in 0..reader.cursor.turns() {
            if parameters || !reader.cursor.eat_mark(Punctuator::Comma) {
                return Ok(Inside {
                    first: Some(first),
                    more,
                    parameters,
                });
            }
            if reader.cursor.sees_mark(Punctuator::CloseParen) {
                if !peek_is_punctuator(&reader.cursor, Punctuator::Arrow) {
                    return Err(reader.cursor.refuse());
                }
                parameters = true;
            } else if reader.cursor.sees_mark(Punctuator::Ellipsis) {
                let rest = self.node(
                    reader,
                    Expected::new(Category::BindingElement, ASSIGNMENT, context),
                )?;
                more.push(rest)?;
                parameters = true;
            } else {
                let next = self.node(reader, Expected::new(Category::Cover, ASSIGNMENT, context))?;
                more.push(next)?;
            }
        }
        Err(reader.cursor.refuse())
    }

    // The expression in parentheses that begins at the offset, and the closing one.
    fn grouped(
        &self,
        reader: &mut Reader<'_>,
        opening: u32,
        inside: Inside,
    ) -> Result<ReadNode, Refusal> {
        let Inside {
            first,
            more,
            parameters: _,
        } = inside;
        let Some(first) = first else {
            return Err(reader.cursor.refuse());
        };
        let whole = if more.places.is_empty() {
            first
        } else {
            let all = self.all_of(Inside {
                first: Some(first),
                more,
                parameters: false,
            })?;
            self.sequence_of(reader, opening, all)?
        };
        self.closed(reader, whole)
    }

    fn closed(&self, reader: &mut Reader<'_>, whole: ReadNode) -> Result<ReadNode, Refusal> {
        reader.cursor.take();
        if whole.summary.must_become_pattern {
            return Err(reader.cursor.refuse());
        }
        if whole.summary.levels > self.depth {
            return Err(reader.cursor.too_deep());
        }
        reader.facts.add_grouped(&whole.tree)?;
        let summary = whole.summary.enclosed();
        Ok(ReadNode {
            level: PRIMARY,
            grouped: true,
            summary,
            ..whole
        })
    }

    /// A call of the function `async`, or an async arrow.
    pub fn async_call(
        &self,
        reader: &mut Reader<'_>,
        expected: Expected,
    ) -> Result<ReadNode, Refusal>
        requires { Callable self.now.depth (F.pre self.now.node) }
    {
        let start = reader.cursor.start();
        let name = self.node(reader, Expected::new(Category::Name, 0, expected.context))?;
        reader.cursor.take();
        let item = Place {
            category: Category::Element,
            least: ASSIGNMENT,
            scope: Scope::Free,
        };
        let form = Form::Call(Link::Plain);
        let item = Expected::at(item, form.flow(), expected.context);
        let covers = self.commas(reader, item, false)?;
        expect_punctuator(&mut reader.cursor, Punctuator::CloseParen)?;
        let arrow = reader.cursor.sees_mark(Punctuator::Arrow) && !reader.cursor.line_end_before();
        if expected.least <= ASSIGNMENT && arrow {
            let parameters = self.parameters_of(reader, covers)?;
            return self.arrow(reader, expected.context, start, Flow::Async, parameters);
        }
        if covers.summary.must_become_pattern {
            return Err(reader.cursor.refuse());
        }
        self.over_one_and_list(reader, form, start, name, covers)
    }
}
