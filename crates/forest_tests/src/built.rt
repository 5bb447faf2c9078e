//! Refused arguments.

use node_arena::Arena;
use node_builders::{BuildArg, BuildFault, build, field_takes};
use type_defs::Kind;

#[test]
fn refuses(rt: HostRuntime) {
    let alloc = rt.alloc();
    let mut arena = Arena::new(alloc).expect(&rt, "an arena");
    let few = build(
        alloc,
        &mut arena,
        Kind::BinaryExpression,
        &[BuildArg::Null, BuildArg::Null],
    );
    assert!(rt; few == Err(BuildFault::TooFew));
    let negative = build(alloc, &mut arena, Kind::Literal, &[BuildArg::Whole(-1)]);
    assert!(rt; negative == Err(BuildFault::BuilderType { field: 1 }));
    assert!(rt; arena.nodes() == 0);
}

#[test]
fn fields_take_kinds(rt: HostRuntime) {
    // a kind, the number of a field, a kind, and whether the field takes its nodes
    let rows = [
        (Kind::CallExpression, 1, Kind::Super, true),
        (Kind::NewExpression, 0, Kind::Super, false),
        (Kind::CallExpression, 2, Kind::SpreadElement, true),
        (Kind::TemplateLiteral, 1, Kind::SpreadElement, false),
        (Kind::ArrowFunctionExpression, 2, Kind::BlockStatement, true),
        (
            Kind::ArrowFunctionExpression,
            2,
            Kind::ReturnStatement,
            false,
        ),
        (Kind::IfStatement, 1, Kind::VariableDeclaration, true),
        (Kind::IfStatement, 1, Kind::FunctionDeclaration, false),
        (Kind::BlockStatement, 0, Kind::Directive, true),
        (Kind::SwitchCase, 1, Kind::Directive, false),
        (Kind::Program, 1, Kind::ImportDeclaration, true),
        (Kind::StaticBlock, 0, Kind::ImportDeclaration, false),
        (Kind::ClassBody, 0, Kind::StaticBlock, true),
        (Kind::MemberExpression, 3, Kind::PrivateIdentifier, true),
        (Kind::ForStatement, 0, Kind::VariableDeclaration, true),
        (Kind::ForInStatement, 0, Kind::AssignmentPattern, false),
        (Kind::ArrayPattern, 0, Kind::AssignmentPattern, true),
        (Kind::CatchClause, 0, Kind::MemberExpression, false),
        (
            Kind::ExportDefaultDeclaration,
            0,
            Kind::ClassDeclaration,
            true,
        ),
        (
            Kind::ExportNamedDeclaration,
            0,
            Kind::ExpressionStatement,
            false,
        ),
    ];
    for (kind, field, other, wanted) in rows {
        let takes = field_takes(kind);
        assert!(rt; field < takes.len());
        assert!(rt; takes[field].accepts(other) == wanted, "{kind:?} {other:?}");
    }
}
