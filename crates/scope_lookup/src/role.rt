//! The table of scopes: what the places of each slot are to scopes, and which scope a kind has.

ghost use Rattle.std.specs.Prelude.{◌≡◌, IsTrue, length, map};
ghost use Rattle.type_defs.specs.Kinds.{are_in_order};
ghost use Rattle.scope_lookup.specs.Roles.{computed_of, computed_scalars, has_scope, is_body, is_declared, is_exported, is_key, is_outside, is_own_name, is_parameter, is_part, is_variable, is_var_scope, is_word, role_in, role_lists, roles_of, scope_kind_of, scope_kinds, table_kinds};

use type_defs::Kind;

/// What the places of a slot are to scopes.
#[derive(Clone, Copy, Debug, PartialEq, Eq)]
pub enum Role {
    /// Inside the owner's scope if it has one, and no name of its own.
    Plain,
    /// The name of a function or class expression, in a scope of its own.
    OwnName,
    /// A name that the owner declares in the scope around it.
    Declared,
    /// What the owner binds in its own scope: a parameter, or that of a catch clause.
    Parameter,
    /// A function's body, whose block is no scope of its own.
    Body,
    /// The declarators of a variable declaration.
    Variable,
    /// A part of a pattern, which binds if the pattern does.
    Part,
    /// What stands outside a class: its `extends`.
    Outside,
    /// The name of a member or property, an expression only where it is computed.
    Key,
    /// A name that is never looked up: a label, or what a module calls it.
    Word,
    /// What an export specifier exports, looked up only without a source.
    Exported,
}

/// Which scope the nodes of a kind have.
#[derive(Clone, Copy, Debug, PartialEq, Eq)]
pub enum ScopeKind {
    NoScope,
    /// As `Lexical`, and none where the block is a function's body.
    Block,
    /// It holds `let`, `const`, classes and functions; `var` goes through it.
    Lexical,
    /// It holds `var` too.
    Var,
}

impl Role {
    pub fn is_own_name(self) -> bool
        ensures { result ≡ is_own_name self }
    {
        matches!(self, Role::OwnName)
    }

    pub fn is_declared(self) -> bool
        ensures { result ≡ is_declared self }
    {
        matches!(self, Role::Declared)
    }

    pub fn is_parameter(self) -> bool
        ensures { result ≡ is_parameter self }
    {
        matches!(self, Role::Parameter)
    }

    pub fn is_body(self) -> bool
        ensures { result ≡ is_body self }
    {
        matches!(self, Role::Body)
    }

    pub fn is_variable(self) -> bool
        ensures { result ≡ is_variable self }
    {
        matches!(self, Role::Variable)
    }

    pub fn is_part(self) -> bool
        ensures { result ≡ is_part self }
    {
        matches!(self, Role::Part)
    }

    pub fn is_outside(self) -> bool
        ensures { result ≡ is_outside self }
    {
        matches!(self, Role::Outside)
    }

    pub fn is_key(self) -> bool
        ensures { result ≡ is_key self }
    {
        matches!(self, Role::Key)
    }

    pub fn is_word(self) -> bool
        ensures { result ≡ is_word self }
    {
        matches!(self, Role::Word)
    }

    pub fn is_exported(self) -> bool
        ensures { result ≡ is_exported self }
    {
        matches!(self, Role::Exported)
    }
}

impl ScopeKind {
    pub fn is_scope(self) -> bool
        ensures { result ≡ has_scope self }
    {
        !matches!(self, ScopeKind::NoScope)
    }

    /// Whether it holds `var` too.
    pub fn is_var_scope(self) -> bool
        ensures { result ≡ is_var_scope self }
    {
        matches!(self, ScopeKind::Var)
    }
}

/// A kind, the roles of its first slots in their order (slots behind them are plain), which scope
/// its nodes have, and the number of the scalar that says whether the key is computed.
pub type ScopeRow = (Kind, &'static [Role], ScopeKind, Option<u8>);

/// A row for each kind, in the order of the enum.
pub const SCOPES: &[ScopeRow] = &[
    (Kind::Identifier, &[], ScopeKind::NoScope, None),
    (Kind::Literal, &[], ScopeKind::NoScope, None),
    (Kind::ThisExpression, &[], ScopeKind::NoScope, None),
    (Kind::Super, &[], ScopeKind::NoScope, None),
    (Kind::ArrayExpression, &[], ScopeKind::NoScope, None),
    (Kind::ObjectExpression, &[], ScopeKind::NoScope, None),
    (Kind::Property, &[Role::Key], ScopeKind::NoScope, Some(3)),
    (
        Kind::FunctionExpression,
        &[Role::OwnName, Role::Parameter, Role::Body],
        ScopeKind::Var,
        None,
    ),
    (
        Kind::ArrowFunctionExpression,
        &[Role::Parameter, Role::Body],
        ScopeKind::Var,
        None,
    ),
    (
        Kind::ClassExpression,
        &[Role::OwnName, Role::Outside],
        ScopeKind::NoScope,
        None,
    ),
    (Kind::ClassBody, &[], ScopeKind::NoScope, None),
    (
        Kind::MethodDefinition,
        &[Role::Key],
        ScopeKind::NoScope,
        Some(2),
    ),
    (Kind::TemplateLiteral, &[], ScopeKind::NoScope, None),
    (Kind::TemplateElement, &[], ScopeKind::NoScope, None),
    (
        Kind::TaggedTemplateExpression,
        &[],
        ScopeKind::NoScope,
        None,
    ),
    (
        Kind::MemberExpression,
        &[Role::Plain, Role::Key],
        ScopeKind::NoScope,
        Some(0),
    ),
    (Kind::CallExpression, &[], ScopeKind::NoScope, None),
    (Kind::NewExpression, &[], ScopeKind::NoScope, None),
    (Kind::ImportExpression, &[], ScopeKind::NoScope, None),
    (Kind::ChainExpression, &[], ScopeKind::NoScope, None),
    (Kind::MetaProperty, &[], ScopeKind::NoScope, None),
    (Kind::UpdateExpression, &[], ScopeKind::NoScope, None),
    (Kind::UnaryExpression, &[], ScopeKind::NoScope, None),
    (Kind::AwaitExpression, &[], ScopeKind::NoScope, None),
    (Kind::BinaryExpression, &[], ScopeKind::NoScope, None),
    (Kind::LogicalExpression, &[], ScopeKind::NoScope, None),
    (Kind::ConditionalExpression, &[], ScopeKind::NoScope, None),
    (Kind::AssignmentExpression, &[], ScopeKind::NoScope, None),
    (Kind::YieldExpression, &[], ScopeKind::NoScope, None),
    (Kind::SequenceExpression, &[], ScopeKind::NoScope, None),
    (Kind::SpreadElement, &[], ScopeKind::NoScope, None),
    (Kind::ArrayPattern, &[Role::Part], ScopeKind::NoScope, None),
    (Kind::ObjectPattern, &[Role::Part], ScopeKind::NoScope, None),
    (
        Kind::AssignmentProperty,
        &[Role::Key, Role::Part],
        ScopeKind::NoScope,
        Some(1),
    ),
    (
        Kind::AssignmentPattern,
        &[Role::Part],
        ScopeKind::NoScope,
        None,
    ),
    (Kind::RestElement, &[Role::Part], ScopeKind::NoScope, None),
    (Kind::Program, &[], ScopeKind::Var, None),
    (Kind::Directive, &[], ScopeKind::NoScope, None),
    (Kind::ExpressionStatement, &[], ScopeKind::NoScope, None),
    (Kind::BlockStatement, &[], ScopeKind::Block, None),
    (Kind::EmptyStatement, &[], ScopeKind::NoScope, None),
    (Kind::DebuggerStatement, &[], ScopeKind::NoScope, None),
    (Kind::WithStatement, &[], ScopeKind::NoScope, None),
    (Kind::ReturnStatement, &[], ScopeKind::NoScope, None),
    (
        Kind::LabeledStatement,
        &[Role::Word],
        ScopeKind::NoScope,
        None,
    ),
    (
        Kind::BreakStatement,
        &[Role::Word],
        ScopeKind::NoScope,
        None,
    ),
    (
        Kind::ContinueStatement,
        &[Role::Word],
        ScopeKind::NoScope,
        None,
    ),
    (Kind::IfStatement, &[], ScopeKind::NoScope, None),
    (Kind::SwitchStatement, &[], ScopeKind::Lexical, None),
    (Kind::SwitchCase, &[], ScopeKind::NoScope, None),
    (Kind::ThrowStatement, &[], ScopeKind::NoScope, None),
    (Kind::TryStatement, &[], ScopeKind::NoScope, None),
    (
        Kind::CatchClause,
        &[Role::Parameter],
        ScopeKind::Lexical,
        None,
    ),
    (Kind::WhileStatement, &[], ScopeKind::NoScope, None),
    (Kind::DoWhileStatement, &[], ScopeKind::NoScope, None),
    (Kind::ForStatement, &[], ScopeKind::Lexical, None),
    (Kind::ForInStatement, &[], ScopeKind::Lexical, None),
    (Kind::ForOfStatement, &[], ScopeKind::Lexical, None),
    (
        Kind::VariableDeclaration,
        &[Role::Variable],
        ScopeKind::NoScope,
        None,
    ),
    (
        Kind::VariableDeclarator,
        &[Role::Part],
        ScopeKind::NoScope,
        None,
    ),
    (
        Kind::FunctionDeclaration,
        &[Role::Declared, Role::Parameter, Role::Body],
        ScopeKind::Var,
        None,
    ),
    (
        Kind::ClassDeclaration,
        &[Role::Declared],
        ScopeKind::NoScope,
        None,
    ),
    (Kind::ImportDeclaration, &[], ScopeKind::NoScope, None),
    (
        Kind::ImportSpecifier,
        &[Role::Word, Role::Declared],
        ScopeKind::NoScope,
        None,
    ),
    (
        Kind::ImportDefaultSpecifier,
        &[Role::Declared],
        ScopeKind::NoScope,
        None,
    ),
    (
        Kind::ImportNamespaceSpecifier,
        &[Role::Declared],
        ScopeKind::NoScope,
        None,
    ),
    (Kind::ExportNamedDeclaration, &[], ScopeKind::NoScope, None),
    (
        Kind::ExportSpecifier,
        &[Role::Exported, Role::Word],
        ScopeKind::NoScope,
        None,
    ),
    (
        Kind::ExportDefaultDeclaration,
        &[],
        ScopeKind::NoScope,
        None,
    ),
    (
        Kind::ExportAllDeclaration,
        &[Role::Word],
        ScopeKind::NoScope,
        None,
    ),
    (
        Kind::PropertyDefinition,
        &[Role::Key],
        ScopeKind::NoScope,
        Some(0),
    ),
    (Kind::PrivateIdentifier, &[], ScopeKind::NoScope, None),
    (Kind::StaticBlock, &[], ScopeKind::Var, None),
];

#[tactic(auto, unfolding(crate::specs::Roles::table_kinds, crate::specs::Roles::role_lists, crate::specs::Roles::scope_kinds, crate::specs::Roles::computed_scalars, type_defs::specs::Rows::in_order))]
fn scope_rows() -> &'static [ScopeRow]
    ensures count { length result.now ≡ 73 }
    ensures order { IsTrue (are_in_order table_kinds) }
    ensures kinds { map (λ row. row.0) result.now ≡ table_kinds }
    ensures roles { map (λ row. row.1.now) result.now ≡ role_lists }
    ensures scope_kinds { map (λ row. row.2) result.now ≡ scope_kinds }
    ensures computed { map (λ row. row.3) result.now ≡ computed_scalars }
{
    SCOPES
}

/// The roles of a kind's first slots; those behind them are plain.
fn roles(kind: Kind) -> &'static [Role]
    ensures { result.now ≡ roles_of kind }
{
    scope_rows()[kind as usize].1
}

/// The role of a kind's slot.
pub fn slot_role(kind: Kind, slot: u8) -> Role
    ensures { result ≡ role_in kind slot }
{
    match roles(kind).get(slot as usize) {
        None => Role::Plain,
        Some(role) => *role,
    }
}

/// Which scope the nodes of a kind have.
pub fn scope_kind(kind: Kind) -> ScopeKind
    ensures { result ≡ scope_kind_of kind }
{
    scope_rows()[kind as usize].2
}

/// The scalar that says whether a kind's key is computed.
pub fn computed_scalar(kind: Kind) -> Option<u8>
    ensures { result ≡ computed_of kind }
{
    scope_rows()[kind as usize].3
}
