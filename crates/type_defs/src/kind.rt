//! The kinds of nodes, after ESTree's names.

ghost use Rattle.std.specs.Prelude.{◌≡◌, ◌↔◌, IfSome, IfNone, IsTrue};
ghost use Rattle.type_defs.specs.Kinds.{name_of, LacksKind};

use crate::kind_table::kind_rows;

/// A kind of node. The table of kinds has a row for each, in this order.
#[derive(Clone, Copy, Debug, PartialEq, Eq)]
pub enum Kind {
    Identifier,
    Literal,
    ThisExpression,
    Super,
    ArrayExpression,
    ObjectExpression,
    Property,
    FunctionExpression,
    ArrowFunctionExpression,
    ClassExpression,
    ClassBody,
    MethodDefinition,
    TemplateLiteral,
    TemplateElement,
    TaggedTemplateExpression,
    MemberExpression,
    CallExpression,
    NewExpression,
    ImportExpression,
    ChainExpression,
    MetaProperty,
    UpdateExpression,
    UnaryExpression,
    AwaitExpression,
    BinaryExpression,
    LogicalExpression,
    ConditionalExpression,
    AssignmentExpression,
    YieldExpression,
    SequenceExpression,
    SpreadElement,
    ArrayPattern,
    ObjectPattern,
    AssignmentProperty,
    AssignmentPattern,
    RestElement,
    Program,
    Directive,
    ExpressionStatement,
    BlockStatement,
    EmptyStatement,
    DebuggerStatement,
    WithStatement,
    ReturnStatement,
    LabeledStatement,
    BreakStatement,
    ContinueStatement,
    IfStatement,
    SwitchStatement,
    SwitchCase,
    ThrowStatement,
    TryStatement,
    CatchClause,
    WhileStatement,
    DoWhileStatement,
    ForStatement,
    ForInStatement,
    ForOfStatement,
    VariableDeclaration,
    VariableDeclarator,
    FunctionDeclaration,
    ClassDeclaration,
    ImportDeclaration,
    ImportSpecifier,
    ImportDefaultSpecifier,
    ImportNamespaceSpecifier,
    ExportNamedDeclaration,
    ExportSpecifier,
    ExportDefaultDeclaration,
    ExportAllDeclaration,
    PropertyDefinition,
    PrivateIdentifier,
    StaticBlock,
}

impl Kind {
    /// ESTree's name of the kind; `Directive` and `AssignmentProperty` are those of its interfaces.
    pub fn name(self) -> &'static str
        ensures { result.now ≡ name_of self }
    {
        kind_rows()[self as usize].1
    }

    /// Whether it is the other kind: what `==` says, as contracts say it.
    pub fn is(self, other: Kind) -> bool
        ensures { IsTrue result ↔ (self ≡ other) }
    {
        self == other
    }
}

/// The kind of this name.
pub fn kind_of(name: &str) -> Option<Kind>
    ensures found { IfSome result (λ kind. name_of kind ≡ name.now) }
    ensures missing { IfNone result (LacksKind name.now) }
{
    for row in kind_rows() {
        if is_called(row.0, name) {
            return Some(row.0);
        }
    }
    None
}

fn is_called(kind: Kind, name: &str) -> bool
    ensures { IsTrue result ↔ (name_of kind ≡ name.now) }
{
    kind.name() == name
}
