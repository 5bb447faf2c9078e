//! What surrounds a place, and how that changes on the way to a child (the parameters In, Yield and
//! Await of ECMA-262's grammar, clause 5.1.5).

ghost use Rattle.std.specs.Prelude.{◌≡◌, true};
ghost use Rattle.js_forms.specs.Contexts as spec;

use crate::form::Flow;

/// How the surroundings change on the way to a child.
#[derive(Clone, Copy, Debug, PartialEq, Eq)]
pub enum Scope {
    /// They do not, but that no directive may stand there.
    Same,
    /// `in` is an operator again.
    Free,
    /// `in` is no operator.
    WithoutIn,
    /// The parameters of the function that the form is.
    Parameters,
    /// The body of that function.
    Body,
    /// The body of an arrow that is an expression: as around the arrow for `in`, else as in a body.
    ArrowBody,
    /// A class body.
    Class,
    /// The value of a field, or a static block.
    Field,
    /// Directives may stand there.
    Directives,
    /// Not at all: a string alone would be a directive where one may stand.
    Stay,
}

/// What surrounds a place.
#[derive(Clone, Copy, Debug, PartialEq, Eq)]
pub struct Context {
    /// Whether the function around it is async, or there is none.
    pub in_async: bool,
    pub in_generator: bool,
    /// Whether it stands in the parameters of that function.
    pub parameters: bool,
    /// Whether `in` is no operator there.
    pub no_in: bool,
    pub in_class: bool,
    /// Whether a directive may stand there.
    pub directives: bool,
}

impl Context {
    /// Outside all functions.
    pub fn outermost() -> Context
        ensures { result ≡ spec.outermost }
    {
        Context {
            in_async: true,
            in_generator: false,
            parameters: false,
            no_in: false,
            in_class: false,
            directives: false,
        }
    }

    pub fn with_directives(self, directives: bool) -> Context
        ensures { result ≡ spec.with_directives directives self }
    {
        Context { directives, ..self }
    }

    /// Where `in` is an operator again.
    pub fn free(self) -> Context
        ensures { result ≡ spec.free self }
    {
        Context {
            no_in: false,
            directives: false,
            ..self
        }
    }

    /// Where `in` is no operator.
    pub fn without_in(self) -> Context
        ensures { result ≡ spec.with_no_in true self }
    {
        Context {
            no_in: true,
            directives: false,
            ..self
        }
    }

    // In a function that runs so.
    fn in_function(self, flow: Flow, parameters: bool) -> Context
        ensures { result ≡ spec.in_function flow parameters self }
    {
        Context {
            in_async: flow.is_async(),
            in_generator: flow.is_generator(),
            parameters,
            no_in: false,
            in_class: self.in_class,
            directives: false,
        }
    }

    /// In the body of an arrow that is an expression.
    pub fn in_arrow(self, flow: Flow) -> Context
        ensures { result ≡ spec.in_arrow flow self }
    {
        Context {
            no_in: self.no_in,
            ..self.in_function(flow, false)
        }
    }

    /// At a child of a form whose function runs so.
    pub fn within(self, scope: Scope, flow: Flow) -> Context
        ensures { result ≡ spec.within scope flow self }
    {
        match scope {
            Scope::Same => self.with_directives(false),
            Scope::Free => self.free(),
            Scope::WithoutIn => self.without_in(),
            Scope::Parameters => self.in_function(flow, true),
            Scope::Body => self.in_function(flow, false),
            Scope::ArrowBody => self.in_arrow(flow),
            Scope::Field => self.in_function(Flow::Plain, false),
            Scope::Class => Context {
                in_class: true,
                ..self.free()
            },
            Scope::Directives => self.with_directives(true),
            Scope::Stay => self,
        }
    }

    /// Whether `await` is an operator there.
    pub fn takes_await(self) -> bool
        ensures { result ≡ spec.takes_await self }
    {
        self.in_async && !self.parameters
    }

    /// Whether `yield` is an operator there.
    pub fn takes_yield(self) -> bool
        ensures { result ≡ spec.takes_yield self }
    {
        self.in_generator && !self.parameters
    }
}
