//! The table against ESTree: every name, and what some kinds have.

use type_defs::{
    BuilderArg, FieldDef, Group, Kind, NodeType, builder, fields, is_a, kind_of, scalar_count,
    slots, type_of,
};

const NAMES: [&str; 73] = [
    "Identifier",
    "Literal",
    "ThisExpression",
    "Super",
    "ArrayExpression",
    "ObjectExpression",
    "Property",
    "FunctionExpression",
    "ArrowFunctionExpression",
    "ClassExpression",
    "ClassBody",
    "MethodDefinition",
    "TemplateLiteral",
    "TemplateElement",
    "TaggedTemplateExpression",
    "MemberExpression",
    "CallExpression",
    "NewExpression",
    "ImportExpression",
    "ChainExpression",
    "MetaProperty",
    "UpdateExpression",
    "UnaryExpression",
    "AwaitExpression",
    "BinaryExpression",
    "LogicalExpression",
    "ConditionalExpression",
    "AssignmentExpression",
    "YieldExpression",
    "SequenceExpression",
    "SpreadElement",
    "ArrayPattern",
    "ObjectPattern",
    "AssignmentProperty",
    "AssignmentPattern",
    "RestElement",
    "Program",
    "Directive",
    "ExpressionStatement",
    "BlockStatement",
    "EmptyStatement",
    "DebuggerStatement",
    "WithStatement",
    "ReturnStatement",
    "LabeledStatement",
    "BreakStatement",
    "ContinueStatement",
    "IfStatement",
    "SwitchStatement",
    "SwitchCase",
    "ThrowStatement",
    "TryStatement",
    "CatchClause",
    "WhileStatement",
    "DoWhileStatement",
    "ForStatement",
    "ForInStatement",
    "ForOfStatement",
    "VariableDeclaration",
    "VariableDeclarator",
    "FunctionDeclaration",
    "ClassDeclaration",
    "ImportDeclaration",
    "ImportSpecifier",
    "ImportDefaultSpecifier",
    "ImportNamespaceSpecifier",
    "ExportNamedDeclaration",
    "ExportSpecifier",
    "ExportDefaultDeclaration",
    "ExportAllDeclaration",
    "PropertyDefinition",
    "PrivateIdentifier",
    "StaticBlock",
];

fn is_kind(name: &str) -> bool {
    match kind_of(name) {
        Some(kind) => kind.name() == name && type_of(name) == Some(NodeType::Kind(kind)),
        None => false,
    }
}

#[test]
fn names(rt: HostRuntime) {
    for name in NAMES {
        assert!(rt; is_kind(name));
    }
    assert!(rt; type_of("Pattern") == Some(NodeType::Group(Group::Pattern)));
    for name in ["", "identifier", "IfStatment", "Node", "Identifier "] {
        assert!(rt;
            kind_of(name).is_none() && type_of(name).is_none(),
            "{name}"
        );
    }
}

// Whether the word is the name, with the mark behind it.
fn is_marked(word: &str, name: &str, mark: &str) -> bool {
    word.starts_with(name) && word.ends_with(mark) && word.len() - name.len() == mark.len()
}

fn field_mark(field: &FieldDef) -> &'static str {
    if field.1.list {
        return "*";
    }
    if field.1.needed { "" } else { "?" }
}

// `*` stands behind a list, and `?` behind what may be null or empty.
fn are_fields(found: &[FieldDef], words: &[&str]) -> bool {
    if found.len() != words.len() {
        return false;
    }
    for at in 0..found.len() {
        if !is_marked(words[at], found[at].0, field_mark(&found[at])) {
            return false;
        }
    }
    true
}

fn is_argument(kind: Kind, argument: BuilderArg, word: &str) -> bool {
    let mark = if argument.needed { "" } else { "?" };
    match fields(kind).get(usize::from(argument.field)) {
        Some(field) => is_marked(word, field.0, mark),
        None => false,
    }
}

// `?` stands behind what may be left out.
fn are_arguments(kind: Kind, found: &[BuilderArg], words: &[&str]) -> bool {
    if found.len() != words.len() {
        return false;
    }
    for at in 0..found.len() {
        if !is_argument(kind, found[at], words[at]) {
            return false;
        }
    }
    true
}

#[test]
fn fields_and_builders(rt: HostRuntime) {
    // The kind, its scalars, its slots, and what its builder takes.
    let cases: [(Kind, &[&str], &[&str], &[&str]); 9] = [
        (
            Kind::Literal,
            &["sort", "value?", "flags?"],
            &[],
            &["value"],
        ),
        (
            Kind::FunctionExpression,
            &["async", "generator"],
            &["id?", "params*", "body"],
            &["id", "params", "body"],
        ),
        (
            Kind::MemberExpression,
            &["computed", "optional"],
            &["object", "property"],
            &["object", "property", "computed?"],
        ),
        (
            Kind::YieldExpression,
            &["delegate"],
            &["argument?"],
            &["argument?", "delegate?"],
        ),
        (
            Kind::DoWhileStatement,
            &[],
            &["body", "test"],
            &["body", "test"],
        ),
        (
            Kind::ForOfStatement,
            &["await"],
            &["left", "right", "body"],
            &["left", "right", "body"],
        ),
        (
            Kind::TryStatement,
            &[],
            &["block", "handler?", "finalizer?"],
            &["block", "handler?", "finalizer?"],
        ),
        (Kind::EmptyStatement, &[], &[], &[]),
        (
            Kind::PropertyDefinition,
            &["computed", "static"],
            &["key", "value?"],
            &["key", "value?", "computed?", "static?"],
        ),
    ];
    for (kind, scalars, wanted, arguments) in cases {
        let name = kind.name();
        assert!(rt;
            are_fields(&fields(kind)[..scalar_count(kind)], scalars),
            "{name}"
        );
        assert!(rt; are_fields(slots(kind), wanted), "{name}");
        assert!(rt; are_arguments(kind, builder(kind), arguments), "{name}");
    }
}

#[test]
fn types(rt: HostRuntime) {
    let cases = [
        ("AssignmentProperty", "Property", true),
        ("Property", "AssignmentProperty", false),
        ("Directive", "ExpressionStatement", true),
        ("Directive", "Statement", true),
        ("MemberExpression", "Pattern", true),
        ("Super", "Expression", false),
        ("ClassExpression", "Class", true),
        ("ArrowFunctionExpression", "Function", true),
        ("PropertyDefinition", "Declaration", false),
        ("VariableDeclaration", "Statement", true),
    ];
    for (name, of, wanted) in cases {
        match (kind_of(name), type_of(of)) {
            (Some(kind), Some(group)) => assert!(rt; is_a(kind, group) == wanted, "{name} {of}"),
            _ => assert!(rt; false, "{name} {of}"),
        }
    }
}
