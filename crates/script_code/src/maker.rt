//! The walk over a checked tree, over a function value that prepares nodes below. So each construct
//! is proved alone, and only that function is a recursion.

ghost use Rattle.script_code.specs.Callable.{Callable};

use crate::code::{Expression, Statement};
use crate::nodes::unchecked;
use crate::state::State;
use std::alloc::AllocError;
use tree_core::Tree;
use type_defs::Kind;

/// How a node is met: to be evaluated or executed, as a pattern of the declaration in hand, or as a
/// function declaration that its block binds.
#[derive(Clone, Copy, Debug, PartialEq, Eq)]
pub enum Role {
    Evaluated,
    Pattern,
    Declared,
}

/// What a node gives: a pattern gives its steps to the state, a function its number.
#[derive(Drop)]
pub enum Prepared {
    Expression(Expression),
    Statement(Statement),
    Function(u32),
    Bound,
}

/// How many levels of nodes may still be nested below, and the function that prepares them.
#[derive(Clone, Copy)]
pub struct Maker<F> {
    pub levels: u32,
    pub below: F,
}

impl<F: Fn(&mut State<'_>, u32, &Tree, Role) -> Result<Prepared, AllocError>> Maker<F> {
    /// The expression that a node below is.
    pub fn expression(&self, state: &mut State<'_>, tree: &Tree) -> Result<Expression, AllocError>
        requires { Callable self.now.levels (F.pre self.now.below) }
    {
        match (self.below)(state, self.levels, tree, Role::Evaluated)? {
            Prepared::Expression(expression) => Ok(expression),
            _ => Err(unchecked()),
        }
    }

    /// The expression that a node below is, in a box.
    pub fn boxed(&self, state: &mut State<'_>, tree: &Tree) -> Result<Box<Expression>, AllocError>
        requires { Callable self.now.levels (F.pre self.now.below) }
    {
        let expression = self.expression(state, tree)?;
        Ok(Box::new(state.alloc, expression)?)
    }

    /// The statement that a node below is.
    pub fn statement(&self, state: &mut State<'_>, tree: &Tree) -> Result<Statement, AllocError>
        requires { Callable self.now.levels (F.pre self.now.below) }
    {
        match (self.below)(state, self.levels, tree, Role::Evaluated)? {
            Prepared::Statement(statement) => Ok(statement),
            _ => Err(unchecked()),
        }
    }

    /// Adds the steps of the pattern below, which binds what is in hand.
    pub fn pattern(&self, state: &mut State<'_>, tree: &Tree) -> Result<(), AllocError>
        requires { Callable self.now.levels (F.pre self.now.below) }
    {
        let _bound = (self.below)(state, self.levels, tree, Role::Pattern)?;
        Ok(())
    }

    /// The number of the function declaration below.
    pub fn declared(&self, state: &mut State<'_>, tree: &Tree) -> Result<u32, AllocError>
        requires { Callable self.now.levels (F.pre self.now.below) }
    {
        match (self.below)(state, self.levels, tree, Role::Declared)? {
            Prepared::Function(number) => Ok(number),
            _ => Err(unchecked()),
        }
    }

    // What the node gives, which is an evaluation inside those around it.
    fn evaluated(&self, state: &mut State<'_>, tree: &Tree) -> Result<Prepared, AllocError>
        requires { Callable self.now.levels (F.pre self.now.below) }
    {
        let outer = state.depth;
        state.depth = outer.saturating_add(1);
        let depth = state.depth;
        let made = if is_statement(tree.kind) {
            let step = self.step(state, tree)?;
            Prepared::Statement(Statement { depth, step })
        } else {
            let at = state.start(tree)?;
            let form = self.form(state, tree)?;
            Prepared::Expression(Expression { at, depth, form })
        };
        state.depth = outer;
        Ok(made)
    }

    /// What a node gives that is met in the role.
    pub fn met(
        &self,
        state: &mut State<'_>,
        tree: &Tree,
        role: Role,
    ) -> Result<Prepared, AllocError>
        requires { Callable self.now.levels (F.pre self.now.below) }
    {
        match role {
            Role::Evaluated => self.evaluated(state, tree),
            Role::Pattern => {
                self.bind(state, tree)?;
                Ok(Prepared::Bound)
            }
            Role::Declared => Ok(Prepared::Function(self.function(state, tree)?)),
        }
    }
}

// Whether nodes of the kind are executed; others are evaluated.
fn is_statement(kind: Kind) -> bool {
    matches!(
        kind,
        Kind::VariableDeclaration
            | Kind::FunctionDeclaration
            | Kind::ExpressionStatement
            | Kind::BlockStatement
            | Kind::IfStatement
            | Kind::WhileStatement
            | Kind::ForStatement
            | Kind::ForOfStatement
            | Kind::ReturnStatement
            | Kind::BreakStatement
            | Kind::ContinueStatement
            | Kind::ThrowStatement
            | Kind::EmptyStatement
            | Kind::Directive
            | Kind::ExportDefaultDeclaration
    )
}

/// What a node gives, in which no more than so many levels of nodes are nested.
pub fn prepare_node(
    state: &mut State<'_>,
    levels: u32,
    tree: &Tree,
    role: Role,
) -> Result<Prepared, AllocError> {
    if levels == 0 {
        return Err(unchecked());
    }
    let levels = levels - 1;
    Maker {
        levels,
        below: prepare_node,
    }
    .met(state, tree, role)
}
