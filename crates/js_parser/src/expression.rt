//! Expressions: a first operand, and what goes on from it by levels.

ghost use Rattle.js_parser.specs.Callable.{Callable};

use crate::expected::Expected;
use crate::grammar::Grammar;
use crate::lookahead::{begins_template, peek_kind};
use crate::nodes::{Children, ReadNode};
use crate::operand::is_coalescing;
use crate::reader::Reader;
use js_forms::{
    CALL, Category, Context, Form, Infix, Left, Link, MEMBER, Operator, SEQUENCE, first_child,
    level,
};
use js_lexer::{Cursor, Refusal};
use js_tokens::{Punctuator, TokenKind, Word};
use std::alloc::Global;

// The level that the form has over this first child.
fn level_over(form: Form, first: &ReadNode) -> u8 {
    match form {
        Form::Dot(_) | Form::Index(_) | Form::Tagged => {
            if first.level == CALL {
                return CALL;
            }
            MEMBER
        }
        _ => level(form),
    }
}

// Whether the first child is as the form takes it.
fn takes(form: Form, first: &ReadNode) -> bool {
    match first_child(form) {
        Left::Level(least) => least <= first.level && !first.is_super(),
        Left::Coalescing(least) => {
            (least <= first.level || is_coalescing(first)) && !first.is_super()
        }
        Left::Other(least) => { least <= first.level && !is_coalescing(first) && !first.is_super() }
        Left::Object => CALL <= first.level,
        Left::Simple => match form {
            Form::Assignment(Operator::Mark(Punctuator::Assign)) => {
                first.is_simple() || first.is_cover()
            }
            _ => first.is_simple(),
        },
    }
}

// The form of an expression with this operator between its operands.
fn infix_form(operator: Operator, no_in: bool) -> Option<Form> {
    match operator.infix() {
        Infix::Assignment => Some(Form::Assignment(operator)),
        Infix::Logical(_, _, _) => Some(Form::Logical(operator)),
        Infix::Binary(_, _, _) => {
            if no_in && matches!(operator, Operator::Word(Word::In)) {
                return None;
            }
            Some(Form::Binary(operator))
        }
        Infix::None => None,
    }
}

fn punctuator_form(cursor: &Cursor<'_>, mark: Punctuator) -> Option<Form> {
    match mark {
        Punctuator::Dot => Some(Form::Dot(Link::Plain)),
        Punctuator::OpenBracket => Some(Form::Index(Link::Plain)),
        Punctuator::OpenParen => Some(Form::Call(Link::Plain)),
        Punctuator::OptionalDot => Some(Form::Chain),
        Punctuator::Question => Some(Form::Conditional),
        Punctuator::PlusPlus | Punctuator::MinusMinus => {
            if cursor.line_end_before() {
                return None;
            }
            Some(Form::Postfix(Operator::Mark(mark)))
        }
        _ => infix_form(Operator::Mark(mark), false),
    }
}

// The form that goes on from an expression with the next token.
fn led_form(cursor: &Cursor<'_>, context: Context) -> Option<Form> {
    match cursor.kind() {
        TokenKind::Punctuator(mark) => punctuator_form(cursor, mark),
        TokenKind::Name(word) => infix_form(Operator::Word(word), context.no_in),
        kind => {
            if begins_template(kind) {
                return Some(Form::Tagged);
            }
            None
        }
    }
}

// The form that goes on from this expression at the place.
fn next_form(cursor: &Cursor<'_>, expected: Expected, first: &ReadNode) -> Option<Form> {
    let form = led_form(cursor, expected.context)?;
    if expected.least > level_over(form, first) {
        return None;
    }
    if matches!(form, Form::Chain) {
        if CALL <= first.level && !first.is_super() && !first.summary.must_become_pattern {
            return Some(form);
        }
        return None;
    }
    if first.summary.must_become_pattern && !matches!(form, Form::Assignment(_)) {
        return None;
    }
    if takes(form, first) {
        return Some(form);
    }
    None
}

// The form of a chain's next link.
fn link_form(cursor: &Cursor<'_>) -> Option<Form> {
    match cursor.kind() {
        TokenKind::Punctuator(mark) => match mark {
            Punctuator::Dot => Some(Form::Dot(Link::Plain)),
            Punctuator::OpenBracket => Some(Form::Index(Link::Plain)),
            Punctuator::OpenParen => Some(Form::Call(Link::Plain)),
            Punctuator::OptionalDot => Some(optional_form(peek_kind(cursor))),
            _ => None,
        },
        _ => None,
    }
}

fn optional_form(behind: TokenKind) -> Form {
    match behind {
        TokenKind::Punctuator(mark) => match mark {
            Punctuator::OpenBracket => Form::Index(Link::Optional),
            Punctuator::OpenParen => Form::Call(Link::Optional),
            _ => Form::Dot(Link::Optional),
        },
        _ => Form::Dot(Link::Optional),
    }
}

fn takes_covers(category: Category) -> bool {
    matches!(category, Category::Cover | Category::Element)
}

fn takes_spread(category: Category) -> bool {
    matches!(category, Category::Argument | Category::Element)
}

impl<F: Fn(Global, &mut Reader<'_>, u32, Expected) -> Result<ReadNode, Refusal>> Grammar<F> {
    /// An expression, or what else a place for one takes.
    pub fn expression(
        &self,
        reader: &mut Reader<'_>,
        expected: Expected,
    ) -> Result<ReadNode, Refusal>
        requires { Callable self.now.depth (F.pre self.now.node) }
    {
        if takes_spread(expected.category) && reader.cursor.sees_mark(Punctuator::Ellipsis) {
            return self.spread(reader, expected);
        }
        let start = reader.cursor.start();
        let single = self.operation(reader, expected)?;
        let whole = if expected.least == SEQUENCE && reader.cursor.sees_mark(Punctuator::Comma) {
            self.sequence(reader, expected.context, start, single)?
        } else {
            single
        };
        self.accepted(reader, expected, whole)
    }

    // The expression, where the place takes it.
    fn accepted(
        &self,
        reader: &mut Reader<'_>,
        expected: Expected,
        whole: ReadNode,
    ) -> Result<ReadNode, Refusal> {
        if whole.is_super()
            || whole.summary.must_become_pattern && !takes_covers(expected.category)
        {
            return Err(reader.cursor.refuse());
        }
        let fits = match expected.category {
            Category::Target => whole.is_simple(),
            Category::Callee => MEMBER <= whole.level || matches!(whole.form, Form::New),
            _ => expected.least <= whole.level,
        };
        if fits {
            return Ok(whole);
        }
        Err(reader.cursor.refuse())
    }

    // `...` and an expression.
    fn spread(&self, reader: &mut Reader<'_>, expected: Expected) -> Result<ReadNode, Refusal>
        requires { Callable self.now.depth (F.pre self.now.node) }
    {
        let spread = self.begun(reader, Form::Spread, expected.context)?;
        if spread.summary.must_become_pattern && !takes_covers(expected.category) {
            return Err(reader.cursor.refuse());
        }
        if reader.cursor.sees_mark(Punctuator::Comma) {
            reader.facts.add_comma(&spread.tree)?;
        }
        Ok(spread)
    }

    // An operand and what goes on from it.
    fn operation(&self, reader: &mut Reader<'_>, expected: Expected) -> Result<ReadNode, Refusal>
        requires { Callable self.now.depth (F.pre self.now.node) }
    {
        let start = reader.cursor.start();
        let mut tree = self.operand(reader, expected)?;
        for _turn in 0..reader.cursor.turns() {
            match next_form(&reader.cursor, expected, &tree) {
                None => return Ok(tree),
                Some(form) => tree = self.longer(reader, expected, start, tree, form)?,
            }
        }
        Ok(tree)
    }

    // The expression of the form that goes on from the first.
    fn longer(
        &self,
        reader: &mut Reader<'_>,
        expected: Expected,
        start: u32,
        first: ReadNode,
        form: Form,
    ) -> Result<ReadNode, Refusal>
        requires { Callable self.now.depth (F.pre self.now.node) }
    {
        let level = level_over(form, &first);
        let first = match form {
            Form::Chain => return self.chain(reader, expected.context, start, first),
            Form::Assignment(_) => self.assigned(reader, first)?,
            _ => {
                if first.is_super() && matches!(peek_kind(&reader.cursor), TokenKind::Private) {
                    reader.cursor.take();
                    return Err(reader.cursor.refuse());
                }
                first
            }
        };
        let whole = self.led(reader, form, expected.context, start, first)?;
        Ok(ReadNode { level, ..whole })
    }

    // The node of a form that begins with this expression.
    fn led(
        &self,
        reader: &mut Reader<'_>,
        form: Form,
        context: Context,
        start: u32,
        first: ReadNode,
    ) -> Result<ReadNode, Refusal>
        requires { Callable self.now.depth (F.pre self.now.node) }
    {
        self.filled(reader, form, start, context, first)
    }

    // The left side of an assignment: an array or an object becomes a pattern.
    fn assigned(&self, reader: &mut Reader<'_>, first: ReadNode) -> Result<ReadNode, Refusal> {
        if first.is_cover() {
            return self.pattern_of(reader, first, false);
        }
        Ok(first)
    }

    // An optional chain that goes on from this expression.
    fn chain(
        &self,
        reader: &mut Reader<'_>,
        context: Context,
        start: u32,
        first: ReadNode,
    ) -> Result<ReadNode, Refusal>
        requires { Callable self.now.depth (F.pre self.now.node) }
    {
        let links = self.links(reader, context, start, first)?;
        if begins_template(reader.cursor.kind()) {
            return Err(reader.cursor.refuse());
        }
        self.over_one(reader, Form::Chain, start, links)
    }

    fn links(
        &self,
        reader: &mut Reader<'_>,
        context: Context,
        start: u32,
        first: ReadNode,
    ) -> Result<ReadNode, Refusal>
        requires { Callable self.now.depth (F.pre self.now.node) }
    {
        let mut tree = first;
        for _turn in 0..reader.cursor.turns() {
            match link_form(&reader.cursor) {
                None => return Ok(tree),
                Some(form) => tree = self.led(reader, form, context, start, tree)?,
            }
        }
        Ok(tree)
    }

    // The first expression and more behind commas.
    fn sequence(
        &self,
        reader: &mut Reader<'_>,
        context: Context,
        start: u32,
        first: ReadNode,
    ) -> Result<ReadNode, Refusal>
        requires { Callable self.now.depth (F.pre self.now.node) }
    {
        if first.summary.must_become_pattern || first.is_super() {
            return Err(reader.cursor.refuse());
        }
        let mut found = self.alone(first)?;
        for _turn in 0..reader.cursor.turns() {
            if !reader.cursor.eat_mark(Punctuator::Comma) {
                return self.sequence_of(reader, start, found);
            }
            let next = self.node(reader, Expected::new(Category::Expression, 1, context))?;
            found.push(next)?;
        }
        self.sequence_of(reader, start, found)
    }

    /// The sequence of these expressions.
    pub fn sequence_of(
        &self,
        reader: &mut Reader<'_>,
        start: u32,
        found: Children,
    ) -> Result<ReadNode, Refusal> {
        self.over_list(reader, Form::Sequence, start, found)
    }
}
