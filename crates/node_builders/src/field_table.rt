//! The table of what the fields of each kind take, after the forms of ECMA-262 and the kinds of
//! ESTree.

ghost use Rattle.std.specs.Prelude.{◌≡◌, IsTrue, length, map};
ghost use Rattle.type_defs.specs.Kinds.{are_in_order};
ghost use Rattle.node_builders.specs.Takes.{field_kinds, takes_lists, takes_of};

use crate::takes::Takes;
use type_defs::Kind;

/// What the fields of a kind take, in the order of the fields.
pub type FieldTakesRow = (Kind, &'static [Takes]);

/// A row for each kind, in the order of the enum.
pub const FIELD_TAKES: &[FieldTakesRow] = &[
    (Kind::Identifier, &[Takes::Text]),
    (
        Kind::Literal,
        &[Takes::Sort, Takes::Value, Takes::MaybeText],
    ),
    (Kind::ThisExpression, &[]),
    (Kind::Super, &[]),
    (Kind::ArrayExpression, &[Takes::Element]),
    (Kind::ObjectExpression, &[Takes::ObjectItem]),
    (
        Kind::Property,
        &[
            Takes::Text,
            Takes::Truth,
            Takes::Truth,
            Takes::Truth,
            Takes::Expression,
            Takes::Expression,
        ],
    ),
    (
        Kind::FunctionExpression,
        &[
            Takes::Truth,
            Takes::Truth,
            Takes::Name,
            Takes::Parameter,
            Takes::Block,
        ],
    ),
    (
        Kind::ArrowFunctionExpression,
        &[Takes::Truth, Takes::Parameter, Takes::ArrowBody],
    ),
    (
        Kind::ClassExpression,
        &[Takes::Name, Takes::Expression, Takes::ClassBody],
    ),
    (Kind::ClassBody, &[Takes::ClassItem]),
    (
        Kind::MethodDefinition,
        &[
            Takes::Text,
            Takes::Truth,
            Takes::Truth,
            Takes::Key,
            Takes::Method,
        ],
    ),
    (Kind::TemplateLiteral, &[Takes::Quasi, Takes::Expression]),
    (Kind::TemplateElement, &[Takes::Text]),
    (
        Kind::TaggedTemplateExpression,
        &[Takes::Expression, Takes::Template],
    ),
    (
        Kind::MemberExpression,
        &[Takes::Truth, Takes::Truth, Takes::Callee, Takes::Key],
    ),
    (
        Kind::CallExpression,
        &[Takes::Truth, Takes::Callee, Takes::Argument],
    ),
    (Kind::NewExpression, &[Takes::Expression, Takes::Argument]),
    (Kind::ImportExpression, &[Takes::Expression]),
    (Kind::ChainExpression, &[Takes::Link]),
    (Kind::MetaProperty, &[Takes::Text]),
    (
        Kind::UpdateExpression,
        &[Takes::Text, Takes::Truth, Takes::Simple],
    ),
    (Kind::UnaryExpression, &[Takes::Text, Takes::Expression]),
    (Kind::AwaitExpression, &[Takes::Expression]),
    (
        Kind::BinaryExpression,
        &[Takes::Text, Takes::Key, Takes::Expression],
    ),
    (
        Kind::LogicalExpression,
        &[Takes::Text, Takes::Expression, Takes::Expression],
    ),
    (
        Kind::ConditionalExpression,
        &[Takes::Expression, Takes::Expression, Takes::Expression],
    ),
    (
        Kind::AssignmentExpression,
        &[Takes::Text, Takes::Target, Takes::Expression],
    ),
    (Kind::YieldExpression, &[Takes::Truth, Takes::Expression]),
    (Kind::SequenceExpression, &[Takes::Expression]),
    (Kind::SpreadElement, &[Takes::Expression]),
    (Kind::ArrayPattern, &[Takes::PatternItem]),
    (Kind::ObjectPattern, &[Takes::PatternProperty]),
    (
        Kind::AssignmentProperty,
        &[Takes::Truth, Takes::Truth, Takes::Expression, Takes::Part],
    ),
    (Kind::AssignmentPattern, &[Takes::Target, Takes::Expression]),
    (Kind::RestElement, &[Takes::Target]),
    (Kind::Program, &[Takes::MaybeText, Takes::ModuleItem]),
    (Kind::Directive, &[Takes::Text]),
    (Kind::ExpressionStatement, &[Takes::Expression]),
    (Kind::BlockStatement, &[Takes::BodyItem]),
    (Kind::EmptyStatement, &[]),
    (Kind::DebuggerStatement, &[]),
    (Kind::WithStatement, &[Takes::Expression, Takes::Statement]),
    (Kind::ReturnStatement, &[Takes::Expression]),
    (Kind::LabeledStatement, &[Takes::Name, Takes::Statement]),
    (Kind::BreakStatement, &[Takes::Name]),
    (Kind::ContinueStatement, &[Takes::Name]),
    (
        Kind::IfStatement,
        &[Takes::Expression, Takes::Statement, Takes::Statement],
    ),
    (Kind::SwitchStatement, &[Takes::Expression, Takes::Case]),
    (Kind::SwitchCase, &[Takes::Expression, Takes::Item]),
    (Kind::ThrowStatement, &[Takes::Expression]),
    (
        Kind::TryStatement,
        &[Takes::Block, Takes::Catch, Takes::Block],
    ),
    (Kind::CatchClause, &[Takes::Binding, Takes::Block]),
    (Kind::WhileStatement, &[Takes::Expression, Takes::Statement]),
    (
        Kind::DoWhileStatement,
        &[Takes::Statement, Takes::Expression],
    ),
    (
        Kind::ForStatement,
        &[
            Takes::Init,
            Takes::Expression,
            Takes::Expression,
            Takes::Statement,
        ],
    ),
    (
        Kind::ForInStatement,
        &[Takes::Left, Takes::Expression, Takes::Statement],
    ),
    (
        Kind::ForOfStatement,
        &[
            Takes::Truth,
            Takes::Left,
            Takes::Expression,
            Takes::Statement,
        ],
    ),
    (Kind::VariableDeclaration, &[Takes::Text, Takes::Declarator]),
    (
        Kind::VariableDeclarator,
        &[Takes::Binding, Takes::Expression],
    ),
    (
        Kind::FunctionDeclaration,
        &[
            Takes::Truth,
            Takes::Truth,
            Takes::Name,
            Takes::Parameter,
            Takes::Block,
        ],
    ),
    (
        Kind::ClassDeclaration,
        &[Takes::Name, Takes::Expression, Takes::ClassBody],
    ),
    (
        Kind::ImportDeclaration,
        &[Takes::ImportSpecifier, Takes::Source],
    ),
    (
        Kind::ImportSpecifier,
        &[Takes::Truth, Takes::Name, Takes::Name],
    ),
    (Kind::ImportDefaultSpecifier, &[Takes::Name]),
    (Kind::ImportNamespaceSpecifier, &[Takes::Name]),
    (
        Kind::ExportNamedDeclaration,
        &[Takes::Declaration, Takes::ExportSpecifier, Takes::Source],
    ),
    (
        Kind::ExportSpecifier,
        &[Takes::Truth, Takes::Name, Takes::Name],
    ),
    (Kind::ExportDefaultDeclaration, &[Takes::Default]),
    (Kind::ExportAllDeclaration, &[Takes::Name, Takes::Source]),
    (
        Kind::PropertyDefinition,
        &[Takes::Truth, Takes::Truth, Takes::Key, Takes::Expression],
    ),
    (Kind::PrivateIdentifier, &[Takes::Text]),
    (Kind::StaticBlock, &[Takes::Item]),
];

#[tactic(auto, unfolding(crate::specs::Takes::field_kinds, crate::specs::Takes::takes_lists, type_defs::specs::Rows::in_order))]
fn field_rows() -> &'static [FieldTakesRow]
    ensures count { length result.now ≡ 73 }
    ensures order { IsTrue (are_in_order field_kinds) }
    ensures kinds { map (λ row. row.0) result.now ≡ field_kinds }
    ensures takes { map (λ row. row.1.now) result.now ≡ takes_lists }
{
    FIELD_TAKES
}

/// What each field of the kind takes, in the order of the fields.
pub fn field_takes(kind: Kind) -> &'static [Takes]
    ensures { result.now ≡ takes_of kind }
{
    field_rows()[kind as usize].1
}
