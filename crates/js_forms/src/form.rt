//! Forms: the kinds of nodes with what tells their spellings apart.

ghost use Rattle.std.specs.Prelude.{◌≡◌, ◌<◌};
ghost use Rattle.js_forms.specs.Forms as spec;
ghost use Rattle.js_forms.specs.Table.{kind_of, place_of};

use crate::operator::Operator;
use crate::table::kind;
use type_defs::Kind;

/// How a function runs.
#[derive(Clone, Copy, Debug, PartialEq, Eq)]
pub enum Flow {
    Plain,
    Async,
    Generator,
    AsyncGenerator,
}

impl Flow {
    pub fn new(is_async: bool, generator: bool) -> Flow
        ensures { result ≡ spec.flow_with is_async generator }
    {
        match (is_async, generator) {
            (false, false) => Flow::Plain,
            (true, false) => Flow::Async,
            (false, true) => Flow::Generator,
            (true, true) => Flow::AsyncGenerator,
        }
    }

    pub fn is_async(self) -> bool
        ensures { result ≡ spec.is_async self }
    {
        match self {
            Flow::Async | Flow::AsyncGenerator => true,
            Flow::Plain | Flow::Generator => false,
        }
    }

    pub fn is_generator(self) -> bool
        ensures { result ≡ spec.is_generator self }
    {
        match self {
            Flow::Generator | Flow::AsyncGenerator => true,
            Flow::Plain | Flow::Async => false,
        }
    }
}

/// Whether a key stands in brackets.
#[derive(Clone, Copy, Debug, PartialEq, Eq)]
pub enum Key {
    Plain,
    Computed,
}

/// What a method is to its object or class.
#[derive(Clone, Copy, Debug, PartialEq, Eq)]
pub enum Access {
    Method,
    Get,
    Set,
    Constructor,
}

/// Whether a member belongs to the class itself.
#[derive(Clone, Copy, Debug, PartialEq, Eq)]
pub enum Standing {
    Instance,
    Static,
}

/// Whether a member or a call is written with `?.`.
#[derive(Clone, Copy, Debug, PartialEq, Eq)]
pub enum Link {
    Plain,
    Optional,
}

/// The word of a declaration of variables.
#[derive(Clone, Copy, Debug, PartialEq, Eq)]
pub enum Variable {
    Var,
    Let,
    Const,
}

/// The sorts of literal.
#[derive(Clone, Copy, Debug, PartialEq, Eq)]
pub enum Sort {
    Quoted,
    Number,
    BigInt,
    True,
    False,
    Null,
    Regex,
}

/// A kind of node in one of its spellings.
#[derive(Clone, Copy, Debug, PartialEq, Eq)]
pub enum Form {
    /// A name that is no reserved word.
    Name,
    /// A name that may be any word.
    AnyName,
    PrivateName,
    Literal(Sort),
    This,
    Super,
    Array,
    Object,
    Property(Key),
    ShorthandProperty,
    PropertyMethod(Access, Flow, Key),
    Function(Flow),
    MethodValue(Flow),
    GetterValue,
    SetterValue,
    Arrow(Flow),
    Class,
    ClassBody,
    Method(Access, Standing, Flow, Key),
    Field(Standing, Key),
    StaticBlock,
    Template,
    TemplateElement,
    Tagged,
    Dot(Link),
    Index(Link),
    Call(Link),
    New,
    ImportCall,
    Chain,
    NewTarget,
    ImportMeta,
    Prefix(Operator),
    Postfix(Operator),
    Unary(Operator),
    Await,
    /// `yield` alone.
    Yield,
    YieldValue,
    YieldStar,
    Binary(Operator),
    Logical(Operator),
    Conditional,
    Assignment(Operator),
    Sequence,
    Spread,
    ArrayPattern,
    ObjectPattern,
    PatternProperty(Key),
    PatternShorthand,
    Default,
    Rest,
    /// The rest of an object pattern.
    NameRest,
    Program,
    Directive,
    ExpressionStatement,
    Block,
    FunctionBody,
    Empty,
    Debugger,
    With,
    Return,
    Labeled,
    Break,
    Continue,
    If,
    Switch,
    Case,
    DefaultCase,
    Throw,
    Try,
    Catch,
    While,
    DoWhile,
    For,
    ForIn,
    ForOf,
    ForAwait,
    Variables(Variable),
    /// A declaration of variables in the head of a `for`.
    HeadVariables(Variable),
    Declarator,
    FunctionDeclaration(Flow),
    ClassDeclaration,
    Import,
    ImportSpecifier,
    ImportShorthand,
    ImportDefault,
    ImportNamespace,
    ExportDeclaration,
    ExportNames,
    ExportSpecifier,
    ExportShorthand,
    ExportDefault,
    /// `export default` and a function or a class.
    ExportDefaultDeclaration,
    ExportAll,
}

impl Form {
    /// The kind of the node.
    pub fn kind(self) -> Kind
        ensures { result ≡ kind_of self }
    {
        kind(self)
    }

    /// The place of the form in the table.
    pub fn place(self) -> usize
        ensures place { result ≡ place_of self }
        ensures within { result < 94 }
    {
        match self {
            Form::Name => 0,
            Form::AnyName => 1,
            Form::PrivateName => 2,
            Form::Literal(_) => 3,
            Form::This => 4,
            Form::Super => 5,
            Form::Array => 6,
            Form::Object => 7,
            Form::Property(_) => 8,
            Form::ShorthandProperty => 9,
            Form::PropertyMethod(_, _, _) => 10,
            Form::Function(_) => 11,
            Form::MethodValue(_) => 12,
            Form::GetterValue => 13,
            Form::SetterValue => 14,
            Form::Arrow(_) => 15,
            Form::Class => 16,
            Form::ClassBody => 17,
            Form::Method(_, _, _, _) => 18,
            Form::Field(_, _) => 19,
            Form::StaticBlock => 20,
            Form::Template => 21,
            Form::TemplateElement => 22,
            Form::Tagged => 23,
            Form::Dot(_) => 24,
            Form::Index(_) => 25,
            Form::Call(_) => 26,
            Form::New => 27,
            Form::ImportCall => 28,
            Form::Chain => 29,
            Form::NewTarget => 30,
            Form::ImportMeta => 31,
            Form::Prefix(_) => 32,
            Form::Postfix(_) => 33,
            Form::Unary(_) => 34,
            Form::Await => 35,
            Form::Yield => 36,
            Form::YieldValue => 37,
            Form::YieldStar => 38,
            Form::Binary(_) => 39,
            Form::Logical(_) => 40,
            Form::Conditional => 41,
            Form::Assignment(_) => 42,
            Form::Sequence => 43,
            Form::Spread => 44,
            Form::ArrayPattern => 45,
            Form::ObjectPattern => 46,
            Form::PatternProperty(_) => 47,
            Form::PatternShorthand => 48,
            Form::Default => 49,
            Form::Rest => 50,
            Form::NameRest => 51,
            Form::Program => 52,
            Form::Directive => 53,
            Form::ExpressionStatement => 54,
            Form::Block => 55,
            Form::FunctionBody => 56,
            Form::Empty => 57,
            Form::Debugger => 58,
            Form::With => 59,
            Form::Return => 60,
            Form::Labeled => 61,
            Form::Break => 62,
            Form::Continue => 63,
            Form::If => 64,
            Form::Switch => 65,
            Form::Case => 66,
            Form::DefaultCase => 67,
            Form::Throw => 68,
            Form::Try => 69,
            Form::Catch => 70,
            Form::While => 71,
            Form::DoWhile => 72,
            Form::For => 73,
            Form::ForIn => 74,
            Form::ForOf => 75,
            Form::ForAwait => 76,
            Form::Variables(_) => 77,
            Form::HeadVariables(_) => 78,
            Form::Declarator => 79,
            Form::FunctionDeclaration(_) => 80,
            Form::ClassDeclaration => 81,
            Form::Import => 82,
            Form::ImportSpecifier => 83,
            Form::ImportShorthand => 84,
            Form::ImportDefault => 85,
            Form::ImportNamespace => 86,
            Form::ExportDeclaration => 87,
            Form::ExportNames => 88,
            Form::ExportSpecifier => 89,
            Form::ExportShorthand => 90,
            Form::ExportDefault => 91,
            Form::ExportDefaultDeclaration => 92,
            Form::ExportAll => 93,
        }
    }

    /// Whether the node is a function of its own, to which `await` and `yield` in it belong.
    pub fn is_function(self) -> bool
        ensures { result ≡ spec.is_function self }
    {
        match self {
            Form::Function(_)
            | Form::MethodValue(_)
            | Form::GetterValue
            | Form::SetterValue
            | Form::Arrow(_)
            | Form::FunctionDeclaration(_) => true,
            _ => false,
        }
    }

    /// How the function runs, of a function or a method.
    pub fn flow(self) -> Flow
        ensures { result ≡ spec.flow_of self }
    {
        match self {
            Form::Function(flow)
            | Form::MethodValue(flow)
            | Form::Arrow(flow)
            | Form::FunctionDeclaration(flow)
            | Form::PropertyMethod(_, flow, _)
            | Form::Method(_, _, flow, _) => flow,
            _ => Flow::Plain,
        }
    }

    /// The operator of an expression that has one.
    pub fn operator(self) -> Option<Operator>
        ensures { result ≡ spec.operator_of self }
    {
        match self {
            Form::Prefix(operator)
            | Form::Postfix(operator)
            | Form::Unary(operator)
            | Form::Binary(operator)
            | Form::Logical(operator)
            | Form::Assignment(operator) => Some(operator),
            _ => None,
        }
    }
}
