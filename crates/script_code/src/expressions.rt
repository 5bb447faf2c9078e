//! Expressions: which form a node has, and the plain ones.

ghost use Rattle.script_code.specs.Callable.{Callable};

use crate::code::{
    Compound, Conditional, Expression, Form, Logical, Pair, Place, Template, Unary, Update,
};
use crate::literals::{cooked, literal};
use crate::maker::{Maker, Prepared, Role};
use crate::nodes::{filled, is_text, needed, places, text, truth, unchecked};
use crate::operators::{assignment, binary, logical, unary};
use crate::state::State;
use std::alloc::AllocError;
use tree_core::Tree;
use type_defs::Kind;

impl<F: Fn(&mut State<'_>, u32, &Tree, Role) -> Result<Prepared, AllocError>> Maker<F> {
    /// The form of an expression.
    pub fn form(&self, state: &mut State<'_>, tree: &Tree) -> Result<Form, AllocError>
        requires { Callable self.now.levels (F.pre self.now.below) }
    {
        match tree.kind {
            Kind::Literal => literal(state, tree),
            Kind::Identifier => name(state, tree),
            Kind::TemplateLiteral => self.template(state, tree),
            Kind::ArrayExpression => self.array(state, tree),
            Kind::ObjectExpression => self.object(state, tree),
            Kind::FunctionExpression => self.function_expression(state, tree),
            Kind::ArrowFunctionExpression => Ok(Form::Function(self.function(state, tree)?)),
            Kind::UnaryExpression => self.unary(state, tree),
            Kind::BinaryExpression => self.binary(state, tree),
            Kind::LogicalExpression => self.logical(state, tree),
            Kind::ConditionalExpression => self.conditional(state, tree),
            Kind::AssignmentExpression => self.assignment(state, tree),
            Kind::UpdateExpression => self.update(state, tree),
            Kind::MemberExpression => self.member(state, tree),
            Kind::CallExpression => self.call(state, tree),
            Kind::ChainExpression => self.chain(state, tree),
            _ => Err(unchecked()),
        }
    }

    fn template(&self, state: &mut State<'_>, tree: &Tree) -> Result<Form, AllocError>
        requires { Callable self.now.levels (F.pre self.now.below) }
    {
        let at = state.start(tree)?;
        let quasis = places(tree, "quasis")?;
        let Some((front, others)) = quasis.split_first() else {
            return Err(unchecked());
        };
        let first = cooked(state, filled(front)?)?;
        let mut words = Vec::new(state.alloc);
        for quasi in others {
            words.push(cooked(state, filled(quasi)?)?)?;
        }
        let parts = self.expressions(state, tree)?;
        let template = Template {
            at,
            first,
            words,
            parts,
        };
        Ok(Form::Template(Box::new(state.alloc, template)?))
    }

    // The expressions of a template.
    fn expressions(&self, state: &mut State<'_>, tree: &Tree) -> Result<Vec<Expression>, AllocError>
        requires { Callable self.now.levels (F.pre self.now.below) }
    {
        let mut parts = Vec::new(state.alloc);
        for place in places(tree, "expressions")? {
            parts.push(self.expression(state, filled(place)?)?)?;
        }
        Ok(parts)
    }

    fn unary(&self, state: &mut State<'_>, tree: &Tree) -> Result<Form, AllocError>
        requires { Callable self.now.levels (F.pre self.now.below) }
    {
        let at = state.start(tree)?;
        let operator = unary(tree)?;
        let operand = self.expression(state, needed(tree, "argument")?)?;
        let unary = Unary {
            at,
            operator,
            operand,
        };
        Ok(Form::Unary(Box::new(state.alloc, unary)?))
    }

    fn binary(&self, state: &mut State<'_>, tree: &Tree) -> Result<Form, AllocError>
        requires { Callable self.now.levels (F.pre self.now.below) }
    {
        let at = state.start(tree)?;
        let operator = binary(tree)?;
        let left = self.expression(state, needed(tree, "left")?)?;
        let right = self.expression(state, needed(tree, "right")?)?;
        let pair = Pair {
            operator,
            at,
            left,
            right,
        };
        Ok(Form::Binary(Box::new(state.alloc, pair)?))
    }

    fn logical(&self, state: &mut State<'_>, tree: &Tree) -> Result<Form, AllocError>
        requires { Callable self.now.levels (F.pre self.now.below) }
    {
        let operator = logical(tree)?;
        let left = self.expression(state, needed(tree, "left")?)?;
        let right = self.boxed(state, needed(tree, "right")?)?;
        let logical = Logical {
            operator,
            left,
            right,
        };
        Ok(Form::Logical(Box::new(state.alloc, logical)?))
    }

    fn conditional(&self, state: &mut State<'_>, tree: &Tree) -> Result<Form, AllocError>
        requires { Callable self.now.levels (F.pre self.now.below) }
    {
        let test = self.expression(state, needed(tree, "test")?)?;
        let yes = self.boxed(state, needed(tree, "consequent")?)?;
        let no = self.boxed(state, needed(tree, "alternate")?)?;
        let conditional = Conditional { test, yes, no };
        Ok(Form::Conditional(Box::new(state.alloc, conditional)?))
    }

    // The name that is assigned is no evaluation (ECMA-262, clause 13.15).
    fn assignment(&self, state: &mut State<'_>, tree: &Tree) -> Result<Form, AllocError>
        requires { Callable self.now.levels (F.pre self.now.below) }
    {
        let target = needed(tree, "left")?;
        if target.kind != Kind::Identifier {
            return self.written(state, tree, target);
        }
        let at = state.start(tree)?;
        let operator = assignment(tree)?;
        let value = self.expression(state, needed(tree, "right")?)?;
        let Some(place) = state.find(target)? else {
            return Err(unchecked());
        };
        let Some(operator) = operator else {
            return set(state, place, value);
        };
        let compound = Compound {
            at,
            place,
            operator,
            value,
        };
        Ok(Form::Compound(Box::new(state.alloc, compound)?))
    }

    fn update(&self, state: &mut State<'_>, tree: &Tree) -> Result<Form, AllocError>
        requires { Callable self.now.levels (F.pre self.now.below) }
    {
        let target = needed(tree, "argument")?;
        if target.kind != Kind::Identifier {
            return self.stepped(state, tree, target);
        }
        match state.find(target)? {
            Some(place) => Ok(Form::Update(place, update(tree))),
            None => Err(unchecked()),
        }
    }

    fn chain(&self, state: &mut State<'_>, tree: &Tree) -> Result<Form, AllocError>
        requires { Callable self.now.levels (F.pre self.now.below) }
    {
        Ok(Form::Chain(self.boxed(state, needed(tree, "expression")?)?))
    }
}

/// Which update the node is.
pub fn update(tree: &Tree) -> Update {
    Update {
        up: is_text(tree, "operator", b"++"),
        prefix: truth(tree, "prefix"),
    }
}

// A name that is read. The one global name that is a value is `undefined`.
fn name(state: &mut State<'_>, tree: &Tree) -> Result<Form, AllocError> {
    match state.find(tree)? {
        Some(Place::Local(slot)) => Ok(Form::Local(slot)),
        Some(Place::Cell(outwards, slot)) => Ok(Form::Cell(outwards, slot)),
        Some(Place::Early) => Ok(Form::Early),
        None => {
            if text(tree, "name")?.is(b"undefined") {
                return Ok(Form::Undefined);
            }
            Err(unchecked())
        }
    }
}

// A name that is set.
fn set(state: &mut State<'_>, place: Place, value: Expression) -> Result<Form, AllocError> {
    let value = Box::new(state.alloc, value)?;
    match place {
        Place::Local(slot) => Ok(Form::SetLocal(slot, value)),
        Place::Cell(outwards, slot) => Ok(Form::SetCell(outwards, slot, value)),
        Place::Early => Ok(Form::SetEarly(value)),
    }
}
