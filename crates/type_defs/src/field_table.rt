//! The table of fields: of each kind its scalars, and then its slots in the order of the text.

ghost use Rattle.std.specs.Prelude.{◌≡◌, IsTrue, length, map};
ghost use Rattle.type_defs.specs.Kinds.{are_in_order};
ghost use Rattle.type_defs.specs.Fields.{field_kinds, field_lists, row_of};

use crate::field_defs::{FieldDef, FieldShape};
use crate::kind::Kind;

const SCALAR: FieldShape = FieldShape {
    slot: false,
    list: false,
    needed: true,
};

const NULLABLE: FieldShape = FieldShape {
    slot: false,
    list: false,
    needed: false,
};

const ONE: FieldShape = FieldShape {
    slot: true,
    list: false,
    needed: true,
};

const OPTIONAL: FieldShape = FieldShape {
    slot: true,
    list: false,
    needed: false,
};

const LIST: FieldShape = FieldShape {
    slot: true,
    list: true,
    needed: false,
};

/// A row for each kind, in the order of the enum.
pub const FIELDS: &[(Kind, &[FieldDef])] = &[
    (Kind::Identifier, &[("name", SCALAR)]),
    (
        Kind::Literal,
        &[("sort", SCALAR), ("value", NULLABLE), ("flags", NULLABLE)],
    ),
    (Kind::ThisExpression, &[]),
    (Kind::Super, &[]),
    (Kind::ArrayExpression, &[("elements", LIST)]),
    (Kind::ObjectExpression, &[("properties", LIST)]),
    (
        Kind::Property,
        &[
            ("kind", SCALAR),
            ("method", SCALAR),
            ("shorthand", SCALAR),
            ("computed", SCALAR),
            ("key", ONE),
            ("value", ONE),
        ],
    ),
    (
        Kind::FunctionExpression,
        &[
            ("async", SCALAR),
            ("generator", SCALAR),
            ("id", OPTIONAL),
            ("params", LIST),
            ("body", ONE),
        ],
    ),
    (
        Kind::ArrowFunctionExpression,
        &[("async", SCALAR), ("params", LIST), ("body", ONE)],
    ),
    (
        Kind::ClassExpression,
        &[("id", OPTIONAL), ("superClass", OPTIONAL), ("body", ONE)],
    ),
    (Kind::ClassBody, &[("body", LIST)]),
    (
        Kind::MethodDefinition,
        &[
            ("kind", SCALAR),
            ("static", SCALAR),
            ("computed", SCALAR),
            ("key", ONE),
            ("value", ONE),
        ],
    ),
    (
        Kind::TemplateLiteral,
        &[("quasis", LIST), ("expressions", LIST)],
    ),
    (Kind::TemplateElement, &[("raw", SCALAR)]),
    (
        Kind::TaggedTemplateExpression,
        &[("tag", ONE), ("quasi", ONE)],
    ),
    (
        Kind::MemberExpression,
        &[
            ("computed", SCALAR),
            ("optional", SCALAR),
            ("object", ONE),
            ("property", ONE),
        ],
    ),
    (
        Kind::CallExpression,
        &[("optional", SCALAR), ("callee", ONE), ("arguments", LIST)],
    ),
    (Kind::NewExpression, &[("callee", ONE), ("arguments", LIST)]),
    (Kind::ImportExpression, &[("source", ONE)]),
    (Kind::ChainExpression, &[("expression", ONE)]),
    (Kind::MetaProperty, &[("meta", SCALAR)]),
    (
        Kind::UpdateExpression,
        &[("operator", SCALAR), ("prefix", SCALAR), ("argument", ONE)],
    ),
    (
        Kind::UnaryExpression,
        &[("operator", SCALAR), ("argument", ONE)],
    ),
    (Kind::AwaitExpression, &[("argument", ONE)]),
    (
        Kind::BinaryExpression,
        &[("operator", SCALAR), ("left", ONE), ("right", ONE)],
    ),
    (
        Kind::LogicalExpression,
        &[("operator", SCALAR), ("left", ONE), ("right", ONE)],
    ),
    (
        Kind::ConditionalExpression,
        &[("test", ONE), ("consequent", ONE), ("alternate", ONE)],
    ),
    (
        Kind::AssignmentExpression,
        &[("operator", SCALAR), ("left", ONE), ("right", ONE)],
    ),
    (
        Kind::YieldExpression,
        &[("delegate", SCALAR), ("argument", OPTIONAL)],
    ),
    (Kind::SequenceExpression, &[("expressions", LIST)]),
    (Kind::SpreadElement, &[("argument", ONE)]),
    (Kind::ArrayPattern, &[("elements", LIST)]),
    (Kind::ObjectPattern, &[("properties", LIST)]),
    (
        Kind::AssignmentProperty,
        &[
            ("shorthand", SCALAR),
            ("computed", SCALAR),
            ("key", ONE),
            ("value", ONE),
        ],
    ),
    (Kind::AssignmentPattern, &[("left", ONE), ("right", ONE)]),
    (Kind::RestElement, &[("argument", ONE)]),
    (Kind::Program, &[("interpreter", NULLABLE), ("body", LIST)]),
    (Kind::Directive, &[("directive", SCALAR)]),
    (Kind::ExpressionStatement, &[("expression", ONE)]),
    (Kind::BlockStatement, &[("body", LIST)]),
    (Kind::EmptyStatement, &[]),
    (Kind::DebuggerStatement, &[]),
    (Kind::WithStatement, &[("object", ONE), ("body", ONE)]),
    (Kind::ReturnStatement, &[("argument", OPTIONAL)]),
    (Kind::LabeledStatement, &[("label", ONE), ("body", ONE)]),
    (Kind::BreakStatement, &[("label", OPTIONAL)]),
    (Kind::ContinueStatement, &[("label", OPTIONAL)]),
    (
        Kind::IfStatement,
        &[("test", ONE), ("consequent", ONE), ("alternate", OPTIONAL)],
    ),
    (
        Kind::SwitchStatement,
        &[("discriminant", ONE), ("cases", LIST)],
    ),
    (
        Kind::SwitchCase,
        &[("test", OPTIONAL), ("consequent", LIST)],
    ),
    (Kind::ThrowStatement, &[("argument", ONE)]),
    (
        Kind::TryStatement,
        &[
            ("block", ONE),
            ("handler", OPTIONAL),
            ("finalizer", OPTIONAL),
        ],
    ),
    (Kind::CatchClause, &[("param", OPTIONAL), ("body", ONE)]),
    (Kind::WhileStatement, &[("test", ONE), ("body", ONE)]),
    (Kind::DoWhileStatement, &[("body", ONE), ("test", ONE)]),
    (
        Kind::ForStatement,
        &[
            ("init", OPTIONAL),
            ("test", OPTIONAL),
            ("update", OPTIONAL),
            ("body", ONE),
        ],
    ),
    (
        Kind::ForInStatement,
        &[("left", ONE), ("right", ONE), ("body", ONE)],
    ),
    (
        Kind::ForOfStatement,
        &[
            ("await", SCALAR),
            ("left", ONE),
            ("right", ONE),
            ("body", ONE),
        ],
    ),
    (
        Kind::VariableDeclaration,
        &[("kind", SCALAR), ("declarations", LIST)],
    ),
    (Kind::VariableDeclarator, &[("id", ONE), ("init", OPTIONAL)]),
    (
        Kind::FunctionDeclaration,
        &[
            ("async", SCALAR),
            ("generator", SCALAR),
            ("id", OPTIONAL),
            ("params", LIST),
            ("body", ONE),
        ],
    ),
    (
        Kind::ClassDeclaration,
        &[("id", OPTIONAL), ("superClass", OPTIONAL), ("body", ONE)],
    ),
    (
        Kind::ImportDeclaration,
        &[("specifiers", LIST), ("source", ONE)],
    ),
    (
        Kind::ImportSpecifier,
        &[("shorthand", SCALAR), ("imported", ONE), ("local", ONE)],
    ),
    (Kind::ImportDefaultSpecifier, &[("local", ONE)]),
    (Kind::ImportNamespaceSpecifier, &[("local", ONE)]),
    (
        Kind::ExportNamedDeclaration,
        &[
            ("declaration", OPTIONAL),
            ("specifiers", LIST),
            ("source", OPTIONAL),
        ],
    ),
    (
        Kind::ExportSpecifier,
        &[("shorthand", SCALAR), ("local", ONE), ("exported", ONE)],
    ),
    (Kind::ExportDefaultDeclaration, &[("declaration", ONE)]),
    (
        Kind::ExportAllDeclaration,
        &[("exported", OPTIONAL), ("source", ONE)],
    ),
    (
        Kind::PropertyDefinition,
        &[
            ("computed", SCALAR),
            ("static", SCALAR),
            ("key", ONE),
            ("value", OPTIONAL),
        ],
    ),
    (Kind::PrivateIdentifier, &[("name", SCALAR)]),
    (Kind::StaticBlock, &[("body", LIST)]),
];

/// The rows of the table.
#[tactic(auto, unfolding(crate::specs::Fields::field_kinds, crate::specs::Fields::field_lists, crate::specs::Rows::in_order))]
pub fn field_rows() -> &'static [(Kind, &'static [FieldDef])]
    ensures count { length result.now ≡ 73 }
    ensures order { IsTrue (are_in_order field_kinds) }
    ensures fields { map (λ row. map row_of row.1.now) result.now ≡ field_lists }
{
    FIELDS
}
