//! The table of kinds: the name of each, what its builder takes, and the groups that have it.

ghost use Rattle.std.specs.Prelude.{◌≡◌, IsTrue, length, map};
ghost use Rattle.type_defs.specs.Kinds.{kinds, names, argument_lists, group_lists, are_in_order};

use crate::builders::BuilderArg;
use crate::groups::Group;
use crate::kind::Kind;

/// A kind, its name, the arguments of its builder in order, and its groups.
pub type KindRow = (Kind, &'static str, &'static [BuilderArg], &'static [Group]);

macro_rules! needed {
    ($field:expr) => {
        BuilderArg {
            field: $field,
            needed: true,
        }
    };
}

macro_rules! optional {
    ($field:expr) => {
        BuilderArg {
            field: $field,
            needed: false,
        }
    };
}

/// A row for each kind, in the order of the enum.
pub const KINDS: &[KindRow] = &[
    (
        Kind::Identifier,
        "Identifier",
        &[needed!(0)],
        &[Group::Expression, Group::Pattern],
    ),
    (
        Kind::Literal,
        "Literal",
        &[needed!(1)],
        &[Group::Expression],
    ),
    (
        Kind::ThisExpression,
        "ThisExpression",
        &[],
        &[Group::Expression],
    ),
    (Kind::Super, "Super", &[], &[]),
    (
        Kind::ArrayExpression,
        "ArrayExpression",
        &[needed!(0)],
        &[Group::Expression],
    ),
    (
        Kind::ObjectExpression,
        "ObjectExpression",
        &[needed!(0)],
        &[Group::Expression],
    ),
    (
        Kind::Property,
        "Property",
        &[needed!(0), needed!(4), needed!(5)],
        &[],
    ),
    (
        Kind::FunctionExpression,
        "FunctionExpression",
        &[needed!(2), needed!(3), needed!(4)],
        &[Group::Expression, Group::Function],
    ),
    (
        Kind::ArrowFunctionExpression,
        "ArrowFunctionExpression",
        &[needed!(1), needed!(2)],
        &[Group::Expression, Group::Function],
    ),
    (
        Kind::ClassExpression,
        "ClassExpression",
        &[needed!(0), needed!(2), optional!(1)],
        &[Group::Expression, Group::Class],
    ),
    (Kind::ClassBody, "ClassBody", &[needed!(0)], &[]),
    (
        Kind::MethodDefinition,
        "MethodDefinition",
        &[needed!(0), needed!(3), needed!(4)],
        &[],
    ),
    (
        Kind::TemplateLiteral,
        "TemplateLiteral",
        &[needed!(0), needed!(1)],
        &[Group::Expression],
    ),
    (Kind::TemplateElement, "TemplateElement", &[needed!(0)], &[]),
    (
        Kind::TaggedTemplateExpression,
        "TaggedTemplateExpression",
        &[needed!(0), needed!(1)],
        &[Group::Expression],
    ),
    (
        Kind::MemberExpression,
        "MemberExpression",
        &[needed!(2), needed!(3), optional!(0)],
        &[Group::Expression, Group::Pattern],
    ),
    (
        Kind::CallExpression,
        "CallExpression",
        &[needed!(1), needed!(2)],
        &[Group::Expression],
    ),
    (
        Kind::NewExpression,
        "NewExpression",
        &[needed!(0), needed!(1)],
        &[Group::Expression],
    ),
    (
        Kind::ImportExpression,
        "ImportExpression",
        &[needed!(0)],
        &[Group::Expression],
    ),
    (
        Kind::ChainExpression,
        "ChainExpression",
        &[needed!(0)],
        &[Group::Expression],
    ),
    (
        Kind::MetaProperty,
        "MetaProperty",
        &[needed!(0)],
        &[Group::Expression],
    ),
    (
        Kind::UpdateExpression,
        "UpdateExpression",
        &[needed!(0), needed!(2), optional!(1)],
        &[Group::Expression],
    ),
    (
        Kind::UnaryExpression,
        "UnaryExpression",
        &[needed!(0), needed!(1)],
        &[Group::Expression],
    ),
    (
        Kind::AwaitExpression,
        "AwaitExpression",
        &[needed!(0)],
        &[Group::Expression],
    ),
    (
        Kind::BinaryExpression,
        "BinaryExpression",
        &[needed!(0), needed!(1), needed!(2)],
        &[Group::Expression],
    ),
    (
        Kind::LogicalExpression,
        "LogicalExpression",
        &[needed!(0), needed!(1), needed!(2)],
        &[Group::Expression],
    ),
    (
        Kind::ConditionalExpression,
        "ConditionalExpression",
        &[needed!(0), needed!(1), needed!(2)],
        &[Group::Expression],
    ),
    (
        Kind::AssignmentExpression,
        "AssignmentExpression",
        &[needed!(0), needed!(1), needed!(2)],
        &[Group::Expression],
    ),
    (
        Kind::YieldExpression,
        "YieldExpression",
        &[optional!(1), optional!(0)],
        &[Group::Expression],
    ),
    (
        Kind::SequenceExpression,
        "SequenceExpression",
        &[needed!(0)],
        &[Group::Expression],
    ),
    (Kind::SpreadElement, "SpreadElement", &[needed!(0)], &[]),
    (
        Kind::ArrayPattern,
        "ArrayPattern",
        &[needed!(0)],
        &[Group::Pattern],
    ),
    (
        Kind::ObjectPattern,
        "ObjectPattern",
        &[needed!(0)],
        &[Group::Pattern],
    ),
    (
        Kind::AssignmentProperty,
        "AssignmentProperty",
        &[needed!(2), needed!(3)],
        &[],
    ),
    (
        Kind::AssignmentPattern,
        "AssignmentPattern",
        &[needed!(0), needed!(1)],
        &[Group::Pattern],
    ),
    (
        Kind::RestElement,
        "RestElement",
        &[needed!(0)],
        &[Group::Pattern],
    ),
    (Kind::Program, "Program", &[needed!(1)], &[]),
    (
        Kind::Directive,
        "Directive",
        &[needed!(0)],
        &[Group::Statement],
    ),
    (
        Kind::ExpressionStatement,
        "ExpressionStatement",
        &[needed!(0)],
        &[Group::Statement],
    ),
    (
        Kind::BlockStatement,
        "BlockStatement",
        &[needed!(0)],
        &[Group::Statement],
    ),
    (
        Kind::EmptyStatement,
        "EmptyStatement",
        &[],
        &[Group::Statement],
    ),
    (
        Kind::DebuggerStatement,
        "DebuggerStatement",
        &[],
        &[Group::Statement],
    ),
    (
        Kind::WithStatement,
        "WithStatement",
        &[needed!(0), needed!(1)],
        &[Group::Statement],
    ),
    (
        Kind::ReturnStatement,
        "ReturnStatement",
        &[optional!(0)],
        &[Group::Statement],
    ),
    (
        Kind::LabeledStatement,
        "LabeledStatement",
        &[needed!(0), needed!(1)],
        &[Group::Statement],
    ),
    (
        Kind::BreakStatement,
        "BreakStatement",
        &[optional!(0)],
        &[Group::Statement],
    ),
    (
        Kind::ContinueStatement,
        "ContinueStatement",
        &[optional!(0)],
        &[Group::Statement],
    ),
    (
        Kind::IfStatement,
        "IfStatement",
        &[needed!(0), needed!(1), optional!(2)],
        &[Group::Statement],
    ),
    (
        Kind::SwitchStatement,
        "SwitchStatement",
        &[needed!(0), needed!(1)],
        &[Group::Statement],
    ),
    (
        Kind::SwitchCase,
        "SwitchCase",
        &[needed!(0), needed!(1)],
        &[],
    ),
    (
        Kind::ThrowStatement,
        "ThrowStatement",
        &[needed!(0)],
        &[Group::Statement],
    ),
    (
        Kind::TryStatement,
        "TryStatement",
        &[needed!(0), optional!(1), optional!(2)],
        &[Group::Statement],
    ),
    (
        Kind::CatchClause,
        "CatchClause",
        &[needed!(0), needed!(1)],
        &[],
    ),
    (
        Kind::WhileStatement,
        "WhileStatement",
        &[needed!(0), needed!(1)],
        &[Group::Statement],
    ),
    (
        Kind::DoWhileStatement,
        "DoWhileStatement",
        &[needed!(0), needed!(1)],
        &[Group::Statement],
    ),
    (
        Kind::ForStatement,
        "ForStatement",
        &[needed!(0), needed!(1), needed!(2), needed!(3)],
        &[Group::Statement],
    ),
    (
        Kind::ForInStatement,
        "ForInStatement",
        &[needed!(0), needed!(1), needed!(2)],
        &[Group::Statement],
    ),
    (
        Kind::ForOfStatement,
        "ForOfStatement",
        &[needed!(1), needed!(2), needed!(3)],
        &[Group::Statement],
    ),
    (
        Kind::VariableDeclaration,
        "VariableDeclaration",
        &[needed!(0), needed!(1)],
        &[Group::Statement, Group::Declaration],
    ),
    (
        Kind::VariableDeclarator,
        "VariableDeclarator",
        &[needed!(0), optional!(1)],
        &[],
    ),
    (
        Kind::FunctionDeclaration,
        "FunctionDeclaration",
        &[needed!(2), needed!(3), needed!(4)],
        &[Group::Statement, Group::Declaration, Group::Function],
    ),
    (
        Kind::ClassDeclaration,
        "ClassDeclaration",
        &[needed!(0), needed!(2), optional!(1)],
        &[Group::Statement, Group::Declaration, Group::Class],
    ),
    (
        Kind::ImportDeclaration,
        "ImportDeclaration",
        &[needed!(0), needed!(1)],
        &[Group::Statement, Group::Declaration],
    ),
    (
        Kind::ImportSpecifier,
        "ImportSpecifier",
        &[needed!(1), optional!(2)],
        &[],
    ),
    (
        Kind::ImportDefaultSpecifier,
        "ImportDefaultSpecifier",
        &[needed!(0)],
        &[],
    ),
    (
        Kind::ImportNamespaceSpecifier,
        "ImportNamespaceSpecifier",
        &[needed!(0)],
        &[],
    ),
    (
        Kind::ExportNamedDeclaration,
        "ExportNamedDeclaration",
        &[needed!(0), optional!(1), optional!(2)],
        &[Group::Statement, Group::Declaration],
    ),
    (
        Kind::ExportSpecifier,
        "ExportSpecifier",
        &[needed!(1), optional!(2)],
        &[],
    ),
    (
        Kind::ExportDefaultDeclaration,
        "ExportDefaultDeclaration",
        &[needed!(0)],
        &[Group::Statement, Group::Declaration],
    ),
    (
        Kind::ExportAllDeclaration,
        "ExportAllDeclaration",
        &[needed!(1), optional!(0)],
        &[Group::Statement, Group::Declaration],
    ),
    (
        Kind::PropertyDefinition,
        "PropertyDefinition",
        &[needed!(2), optional!(3), optional!(0), optional!(1)],
        &[],
    ),
    (
        Kind::PrivateIdentifier,
        "PrivateIdentifier",
        &[needed!(0)],
        &[],
    ),
    (Kind::StaticBlock, "StaticBlock", &[needed!(0)], &[]),
];

/// The rows of the table.
#[tactic(auto, unfolding(crate::specs::Kinds::kinds, crate::specs::Kinds::names, crate::specs::Kinds::argument_lists, crate::specs::Kinds::group_lists, crate::specs::Rows::in_order))]
pub fn kind_rows() -> &'static [KindRow]
    ensures count { length result.now ≡ 73 }
    ensures order { IsTrue (are_in_order kinds) }
    ensures kinds { map (λ row. row.0) result.now ≡ kinds }
    ensures names { map (λ row. row.1.now) result.now ≡ names }
    ensures arguments { map (λ row. row.2.now) result.now ≡ argument_lists }
    ensures groups { map (λ row. row.3.now) result.now ≡ group_lists }
{
    KINDS
}
