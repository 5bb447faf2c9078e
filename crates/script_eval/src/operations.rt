//! Operators, conditionals and templates.

ghost use Rattle.std.specs.Prelude.{◌≡◌, ◌+◌, ◌≤◌, IfOk};
ghost use Rattle.script_eval.specs.Weight.{weight_of, work};

use crate::frames::{Frame, Turn};
use crate::leaf::leaf;
use crate::machine::{Machine, is_nothing};
use crate::operators::{apply, apply_unary};
use crate::stack::{UNKNOWN, keep, taken};
use host_fields::Host;
use script_code::{Conditional, Expression, Logical, LogicalOperator, Pair, Template, Unary};
use script_values::{EnvironmentId, Heap, Stop, TextId, Value, Word};
use value_methods::{is_true, spelled};

impl<'a> Machine<'a> {
    /// An operator of two operands, which are leaves more often than not.
    #[inline(always)]
    pub fn binary(&mut self, host: &mut Host, node: &'a Pair) -> Result<Turn<'a>, Stop>
        ensures fuel { self.new.fuel ≤ self.old.fuel }
        ensures falls { IfOk result (λ t. work self.new + weight_of t ≤ work self.old + 2) }
    {
        match leaf(
            &mut self.fuel,
            &mut self.at,
            &host.heap,
            &self.values,
            self.base,
            self.environment,
            self.room,
            &node.left,
        )? {
            Some(left) => self.right(host, node, left),
            None => self.wait_for(Frame::Right(node), &node.left),
        }
    }

    /// The left operand is there.
    #[inline(always)]
    pub fn right(&mut self, host: &mut Host, node: &'a Pair, left: Value) -> Result<Turn<'a>, Stop>
        ensures fuel { self.new.fuel ≤ self.old.fuel }
        ensures falls { IfOk result (λ t. work self.new + weight_of t ≤ work self.old + 2) }
    {
        match leaf(
            &mut self.fuel,
            &mut self.at,
            &host.heap,
            &self.values,
            self.base,
            self.environment,
            self.room,
            &node.right,
        )? {
            Some(right) => {
                self.at = node.at;
                Ok(Turn::Given(apply(&mut host.heap, node.operator, left, right)?))
            }
            None => {
                keep(&mut self.values, left)?;
                self.wait_for(Frame::Apply(node), &node.right)
            }
        }
    }

    /// The right operand is there, and the left one on the values.
    #[inline(always)]
    pub fn apply_right(
        &mut self,
        host: &mut Host,
        node: &'a Pair,
        right: Value,
    ) -> Result<Turn<'a>, Stop>
        ensures fuel { self.new.fuel ≡ self.old.fuel }
        ensures falls { IfOk result (λ t. work self.new + weight_of t ≤ work self.old + 2) }
    {
        self.at = node.at;
        let left = taken(&mut self.values)?;
        Ok(Turn::Given(apply(&mut host.heap, node.operator, left, right)?))
    }

    /// The operand of `!`, `-` or `typeof` is there.
    pub fn unary(
        &mut self,
        host: &mut Host,
        node: &'a Unary,
        operand: Value,
    ) -> Result<Turn<'a>, Stop>
        ensures fuel { self.new.fuel ≡ self.old.fuel }
        ensures falls { IfOk result (λ t. work self.new + weight_of t ≤ work self.old + 2) }
    {
        self.at = node.at;
        Ok(Turn::Given(apply_unary(&host.heap, node.operator, operand)?))
    }

    /// The left operand of `&&`, `||` or `??` is there.
    pub fn logical(
        &mut self,
        host: &mut Host,
        node: &'a Logical,
        left: Value,
    ) -> Result<Turn<'a>, Stop>
        ensures fuel { self.new.fuel ≡ self.old.fuel }
        ensures falls { IfOk result (λ t. work self.new + weight_of t ≤ work self.old + 2) }
    {
        let goes_on = match node.operator {
            LogicalOperator::And => is_true(&host.heap, left)?,
            LogicalOperator::Or => !is_true(&host.heap, left)?,
            LogicalOperator::Coalesce => is_nothing(&left),
        };
        if goes_on {
            Ok(Turn::Expression(&node.right))
        } else {
            Ok(Turn::Given(left))
        }
    }

    /// The test of a conditional is there.
    pub fn conditional(
        &mut self,
        host: &mut Host,
        node: &'a Conditional,
        test: Value,
    ) -> Result<Turn<'a>, Stop>
        ensures fuel { self.new.fuel ≡ self.old.fuel }
        ensures falls { IfOk result (λ t. work self.new + weight_of t ≤ work self.old + 2) }
    {
        if is_true(&host.heap, test)? {
            Ok(Turn::Expression(&node.yes))
        } else {
            Ok(Turn::Expression(&node.no))
        }
    }

    /// Goes on with a template, whose parts before this one are spelled.
    pub fn template(
        &mut self,
        host: &mut Host,
        node: &'a Template,
        from: usize,
    ) -> Result<Turn<'a>, Stop>
        ensures fuel { self.new.fuel ≤ self.old.fuel }
        ensures falls { IfOk result (λ t. work self.new + weight_of t ≤ work self.old + 2) }
    {
        let next = spelled_leaves(
            &mut self.fuel,
            &mut self.at,
            &mut host.heap,
            &mut self.values,
            self.base,
            self.environment,
            self.room,
            node,
            from,
        )?;
        let parts: &'a [Expression] = &node.parts;
        if next >= parts.len() {
            self.at = node.at;
            let text = joined(&mut host.heap, &mut self.values, node.first, &node.words)?;
            return Ok(Turn::Given(Value::Text(text)));
        }
        self.wait_for(Frame::Template(node, next + 1), &parts[next])
    }

    /// A part of a template is there.
    pub fn template_part(
        &mut self,
        host: &mut Host,
        node: &'a Template,
        next: usize,
        part: Value,
    ) -> Result<Turn<'a>, Stop>
        ensures fuel { self.new.fuel ≤ self.old.fuel }
        ensures falls { IfOk result (λ t. work self.new + weight_of t ≤ work self.old + 2) }
    {
        self.at = node.at;
        let text = spelled(&mut host.heap, part)?;
        keep(&mut self.values, Value::Text(text))?;
        self.template(host, node, next)
    }
}

// Puts the spelled values of leaves on the values, from the part `from` on: the first part that is
// no leaf.
fn spelled_leaves(
    fuel: &mut u64,
    at: &mut u32,
    heap: &mut Heap,
    values: &mut Vec<Value>,
    base: usize,
    environment: EnvironmentId,
    room: u32,
    node: &Template,
    from: usize,
) -> Result<usize, Stop>
    ensures { fuel.new ≤ fuel.old }
{
    for i in from..node.parts.len() {
        match leaf(
            fuel,
            at,
            heap,
            values,
            base,
            environment,
            room,
            &node.parts[i],
        )? {
            Some(value) => {
                *at = node.at;
                let text = spelled(heap, value)?;
                keep(values, Value::Text(text))?;
            }
            None => return Ok(i),
        }
    }
    Ok(node.parts.len())
}

// The text of the words of a template with the last values, which are texts, between them.
fn joined(
    heap: &mut Heap,
    values: &mut Vec<Value>,
    first: Word,
    words: &[Word],
) -> Result<TextId, Stop> {
    let mut text = heap.word_text(first)?;
    let count = values.len();
    if words.len() > count {
        return Err(UNKNOWN);
    }
    let start = count - words.len();
    for i in 0..words.len() {
        let place = start.saturating_add(i);
        if place >= values.len() {
            return Err(UNKNOWN);
        }
        let Value::Text(part) = values[place] else {
            return Err(UNKNOWN);
        };
        text = heap.join(text, part)?;
        let word = heap.word_text(words[i])?;
        text = heap.join(text, word)?;
    }
    values.truncate(start);
    Ok(text)
}
