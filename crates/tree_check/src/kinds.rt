//! Kinds of nodes that places of several categories take.

ghost use Rattle.std.specs.Prelude.{◌≡◌};
ghost use Rattle.tree_check.specs.Kinds as spec;

use type_defs::Kind;

/// Whether a node of the kind may be the body of a statement, declarations left aside.
pub fn is_statement(kind: Kind) -> bool
    ensures { result ≡ spec.is_statement kind }
{
    match kind {
        Kind::ExpressionStatement
        | Kind::BlockStatement
        | Kind::EmptyStatement
        | Kind::DebuggerStatement
        | Kind::WithStatement
        | Kind::ReturnStatement
        | Kind::LabeledStatement
        | Kind::BreakStatement
        | Kind::ContinueStatement
        | Kind::IfStatement
        | Kind::SwitchStatement
        | Kind::ThrowStatement
        | Kind::TryStatement
        | Kind::WhileStatement
        | Kind::DoWhileStatement
        | Kind::ForStatement
        | Kind::ForInStatement
        | Kind::ForOfStatement => true,
        _ => false,
    }
}

/// Whether an export may declare such a node.
pub fn is_declaration(kind: Kind) -> bool
    ensures { result ≡ spec.is_declaration kind }
{
    matches!(
        kind,
        Kind::VariableDeclaration | Kind::FunctionDeclaration | Kind::ClassDeclaration
    )
}

pub fn is_module_item(kind: Kind) -> bool
    ensures { result ≡ spec.is_module_item kind }
{
    matches!(
        kind,
        Kind::ImportDeclaration
            | Kind::ExportNamedDeclaration
            | Kind::ExportDefaultDeclaration
            | Kind::ExportAllDeclaration
    )
}

/// Whether the node may be assigned to and is no pattern.
pub fn is_simple(kind: Kind) -> bool
    ensures { result ≡ spec.is_simple kind }
{
    matches!(kind, Kind::Identifier | Kind::MemberExpression)
}

pub fn is_pattern(kind: Kind) -> bool
    ensures { result ≡ spec.is_pattern kind }
{
    matches!(kind, Kind::ArrayPattern | Kind::ObjectPattern)
}

/// Whether a declaration may bind such a node.
pub fn is_binding(kind: Kind) -> bool
    ensures { result ≡ spec.is_binding kind }
{
    matches!(kind, Kind::Identifier) || is_pattern(kind)
}

pub fn is_default(kind: Kind) -> bool
    ensures { result ≡ spec.is_default kind }
{
    matches!(kind, Kind::AssignmentPattern)
}

pub fn is_rest(kind: Kind) -> bool
    ensures { result ≡ spec.is_rest kind }
{
    matches!(kind, Kind::RestElement)
}

/// Whether the node is a link of a chain, optional or not.
pub fn is_link(kind: Kind) -> bool
    ensures { result ≡ spec.is_link kind }
{
    matches!(kind, Kind::MemberExpression | Kind::CallExpression)
}

pub fn is_block(kind: Kind) -> bool
    ensures { result ≡ spec.is_block kind }
{
    matches!(kind, Kind::BlockStatement)
}

pub fn is_case(kind: Kind) -> bool
    ensures { result ≡ spec.is_case kind }
{
    matches!(kind, Kind::SwitchCase)
}

pub fn is_catch(kind: Kind) -> bool
    ensures { result ≡ spec.is_catch kind }
{
    matches!(kind, Kind::CatchClause)
}

/// Whether it is a declaration of a function or of a class.
pub fn is_function_or_class(kind: Kind) -> bool
    ensures { result ≡ spec.is_function_or_class kind }
{
    matches!(kind, Kind::FunctionDeclaration | Kind::ClassDeclaration)
}

pub fn is_variables(kind: Kind) -> bool
    ensures { result ≡ spec.is_variables kind }
{
    matches!(kind, Kind::VariableDeclaration)
}

pub fn is_declarator(kind: Kind) -> bool
    ensures { result ≡ spec.is_declarator kind }
{
    matches!(kind, Kind::VariableDeclarator)
}

/// Whether it is a specifier of an import, of any of the three kinds.
pub fn is_import_specifier(kind: Kind) -> bool
    ensures { result ≡ spec.is_import_specifier kind }
{
    matches!(
        kind,
        Kind::ImportSpecifier | Kind::ImportDefaultSpecifier | Kind::ImportNamespaceSpecifier
    )
}

pub fn is_export_specifier(kind: Kind) -> bool
    ensures { result ≡ spec.is_export_specifier kind }
{
    matches!(kind, Kind::ExportSpecifier)
}

pub fn is_spread(kind: Kind) -> bool
    ensures { result ≡ spec.is_spread kind }
{
    matches!(kind, Kind::SpreadElement)
}

pub fn is_property(kind: Kind) -> bool
    ensures { result ≡ spec.is_property kind }
{
    matches!(kind, Kind::Property)
}

pub fn is_pattern_property(kind: Kind) -> bool
    ensures { result ≡ spec.is_pattern_property kind }
{
    matches!(kind, Kind::AssignmentProperty)
}

pub fn is_template(kind: Kind) -> bool
    ensures { result ≡ spec.is_template kind }
{
    matches!(kind, Kind::TemplateLiteral)
}

/// Whether it is the characters of a template between its expressions.
pub fn is_characters(kind: Kind) -> bool
    ensures { result ≡ spec.is_characters kind }
{
    matches!(kind, Kind::TemplateElement)
}

pub fn is_class_body(kind: Kind) -> bool
    ensures { result ≡ spec.is_class_body kind }
{
    matches!(kind, Kind::ClassBody)
}

pub fn is_class_item(kind: Kind) -> bool
    ensures { result ≡ spec.is_class_item kind }
{
    matches!(
        kind,
        Kind::MethodDefinition | Kind::PropertyDefinition | Kind::StaticBlock
    )
}

/// Whether it is a function expression, as methods have as values.
pub fn is_function(kind: Kind) -> bool
    ensures { result ≡ spec.is_function kind }
{
    matches!(kind, Kind::FunctionExpression)
}

pub fn is_identifier(kind: Kind) -> bool
    ensures { result ≡ spec.is_identifier kind }
{
    matches!(kind, Kind::Identifier)
}

/// Whether it is a private name.
pub fn is_private(kind: Kind) -> bool
    ensures { result ≡ spec.is_private kind }
{
    matches!(kind, Kind::PrivateIdentifier)
}

pub fn is_super(kind: Kind) -> bool
    ensures { result ≡ spec.is_super kind }
{
    matches!(kind, Kind::Super)
}

pub fn is_directive(kind: Kind) -> bool
    ensures { result ≡ spec.is_directive kind }
{
    matches!(kind, Kind::Directive)
}
