//! What a field may take.

ghost use Rattle.std.specs.Prelude.{◌≡◌, IsTrue, length, map};
ghost use Rattle.node_builders.specs.Takes.{accepts, all_takes, are_takes_in_order, except_lists, except_of, group_of, groups, has, has_holes, other_lists, others_of};

use type_defs::{Group, Kind};

/// What a field takes. Whether a place may be empty is told by the field.
#[derive(Clone, Copy, Debug, PartialEq, Eq)]
pub enum Takes {
    /// A text.
    Text,
    /// The sort of a literal, which its value tells.
    Sort,
    /// The value of a literal: a text, a whole number from 0, a truth or null.
    Value,
    /// A text or null.
    MaybeText,
    /// An expression, one behind `...`, or a hole.
    Element,
    /// A property, or an expression behind `...`.
    ObjectItem,
    /// A truth.
    Truth,
    /// An expression.
    Expression,
    /// A name.
    Name,
    /// What a parameter may be, a default or a rest element too.
    Parameter,
    /// A block.
    Block,
    /// An expression or a block.
    ArrowBody,
    /// The body of a class.
    ClassBody,
    /// A member of a class.
    ClassItem,
    /// An expression or a private name.
    Key,
    /// The function of a method.
    Method,
    /// A part of the text of a template.
    Quasi,
    /// A template.
    Template,
    /// An expression or `super`.
    Callee,
    /// An expression, or one behind `...`.
    Argument,
    /// A member or a call, at the end of a chain.
    Link,
    /// A name or a member.
    Simple,
    /// What may be assigned to.
    Target,
    /// An item of an array pattern: a target or a name or a pattern, perhaps with a default or
    /// behind `...`, or a hole.
    PatternItem,
    /// A property of a pattern or a rest element.
    PatternProperty,
    /// A target or a name or a pattern, perhaps with a default.
    Part,
    /// A statement of a program, a directive, an import or an export.
    ModuleItem,
    /// A statement of a list or a directive.
    BodyItem,
    /// A statement as the body of another.
    Statement,
    /// A case of a switch.
    Case,
    /// A statement of a list.
    Item,
    /// A catch clause.
    Catch,
    /// A name or a pattern that is declared.
    Binding,
    /// An expression or a declaration of variables.
    Init,
    /// A target or a declaration of variables.
    Left,
    /// A declarator.
    Declarator,
    /// A specifier of an import.
    ImportSpecifier,
    /// The literal that names a module.
    Source,
    /// What an export declares.
    Declaration,
    /// A specifier of an export.
    ExportSpecifier,
    /// An expression, a function or a class.
    Default,
}

/// What it takes, the group of kinds, the kinds of the group that it does not take, and the kinds
/// that it takes beside the group.
pub type TakesRow = (Takes, Option<Group>, &'static [Kind], &'static [Kind]);

/// A row for each, in the order of the enum.
pub const TAKES: &[TakesRow] = &[
    (Takes::Text, None, &[], &[]),
    (Takes::Sort, None, &[], &[]),
    (Takes::Value, None, &[], &[]),
    (Takes::MaybeText, None, &[], &[]),
    (
        Takes::Element,
        Some(Group::Expression),
        &[],
        &[Kind::SpreadElement],
    ),
    (
        Takes::ObjectItem,
        None,
        &[],
        &[Kind::Property, Kind::SpreadElement],
    ),
    (Takes::Truth, None, &[], &[]),
    (Takes::Expression, Some(Group::Expression), &[], &[]),
    (Takes::Name, None, &[], &[Kind::Identifier]),
    (
        Takes::Parameter,
        None,
        &[],
        &[
            Kind::Identifier,
            Kind::ObjectPattern,
            Kind::ArrayPattern,
            Kind::AssignmentPattern,
            Kind::RestElement,
        ],
    ),
    (Takes::Block, None, &[], &[Kind::BlockStatement]),
    (
        Takes::ArrowBody,
        Some(Group::Expression),
        &[],
        &[Kind::BlockStatement],
    ),
    (Takes::ClassBody, None, &[], &[Kind::ClassBody]),
    (
        Takes::ClassItem,
        None,
        &[],
        &[
            Kind::MethodDefinition,
            Kind::PropertyDefinition,
            Kind::StaticBlock,
        ],
    ),
    (
        Takes::Key,
        Some(Group::Expression),
        &[],
        &[Kind::PrivateIdentifier],
    ),
    (Takes::Method, None, &[], &[Kind::FunctionExpression]),
    (Takes::Quasi, None, &[], &[Kind::TemplateElement]),
    (Takes::Template, None, &[], &[Kind::TemplateLiteral]),
    (Takes::Callee, Some(Group::Expression), &[], &[Kind::Super]),
    (
        Takes::Argument,
        Some(Group::Expression),
        &[],
        &[Kind::SpreadElement],
    ),
    (
        Takes::Link,
        None,
        &[],
        &[Kind::MemberExpression, Kind::CallExpression],
    ),
    (
        Takes::Simple,
        None,
        &[],
        &[Kind::Identifier, Kind::MemberExpression],
    ),
    (
        Takes::Target,
        None,
        &[],
        &[
            Kind::Identifier,
            Kind::MemberExpression,
            Kind::ObjectPattern,
            Kind::ArrayPattern,
        ],
    ),
    (
        Takes::PatternItem,
        None,
        &[],
        &[
            Kind::Identifier,
            Kind::MemberExpression,
            Kind::ObjectPattern,
            Kind::ArrayPattern,
            Kind::AssignmentPattern,
            Kind::RestElement,
        ],
    ),
    (
        Takes::PatternProperty,
        None,
        &[],
        &[Kind::AssignmentProperty, Kind::RestElement],
    ),
    (
        Takes::Part,
        None,
        &[],
        &[
            Kind::Identifier,
            Kind::MemberExpression,
            Kind::ObjectPattern,
            Kind::ArrayPattern,
            Kind::AssignmentPattern,
        ],
    ),
    (Takes::ModuleItem, Some(Group::Statement), &[], &[]),
    (
        Takes::BodyItem,
        Some(Group::Statement),
        &[
            Kind::ImportDeclaration,
            Kind::ExportNamedDeclaration,
            Kind::ExportDefaultDeclaration,
            Kind::ExportAllDeclaration,
        ],
        &[],
    ),
    (
        Takes::Statement,
        Some(Group::Statement),
        &[
            Kind::Directive,
            Kind::FunctionDeclaration,
            Kind::ClassDeclaration,
            Kind::ImportDeclaration,
            Kind::ExportNamedDeclaration,
            Kind::ExportDefaultDeclaration,
            Kind::ExportAllDeclaration,
        ],
        &[],
    ),
    (Takes::Case, None, &[], &[Kind::SwitchCase]),
    (
        Takes::Item,
        Some(Group::Statement),
        &[
            Kind::Directive,
            Kind::ImportDeclaration,
            Kind::ExportNamedDeclaration,
            Kind::ExportDefaultDeclaration,
            Kind::ExportAllDeclaration,
        ],
        &[],
    ),
    (Takes::Catch, None, &[], &[Kind::CatchClause]),
    (
        Takes::Binding,
        None,
        &[],
        &[Kind::Identifier, Kind::ObjectPattern, Kind::ArrayPattern],
    ),
    (
        Takes::Init,
        Some(Group::Expression),
        &[],
        &[Kind::VariableDeclaration],
    ),
    (
        Takes::Left,
        None,
        &[],
        &[
            Kind::Identifier,
            Kind::MemberExpression,
            Kind::ObjectPattern,
            Kind::ArrayPattern,
            Kind::VariableDeclaration,
        ],
    ),
    (Takes::Declarator, None, &[], &[Kind::VariableDeclarator]),
    (
        Takes::ImportSpecifier,
        None,
        &[],
        &[
            Kind::ImportSpecifier,
            Kind::ImportDefaultSpecifier,
            Kind::ImportNamespaceSpecifier,
        ],
    ),
    (Takes::Source, None, &[], &[Kind::Literal]),
    (
        Takes::Declaration,
        None,
        &[],
        &[
            Kind::VariableDeclaration,
            Kind::FunctionDeclaration,
            Kind::ClassDeclaration,
        ],
    ),
    (Takes::ExportSpecifier, None, &[], &[Kind::ExportSpecifier]),
    (
        Takes::Default,
        Some(Group::Expression),
        &[],
        &[Kind::FunctionDeclaration, Kind::ClassDeclaration],
    ),
];

#[tactic(auto, unfolding(crate::specs::Takes::all_takes, crate::specs::Takes::groups, crate::specs::Takes::except_lists, crate::specs::Takes::other_lists, type_defs::specs::Rows::in_order))]
fn takes_rows() -> &'static [TakesRow]
    ensures count { length result.now ≡ 41 }
    ensures order { IsTrue (are_takes_in_order all_takes) }
    ensures takes { map (λ row. row.0) result.now ≡ all_takes }
    ensures groups { map (λ row. row.1) result.now ≡ groups }
    ensures except { map (λ row. row.2.now) result.now ≡ except_lists }
    ensures others { map (λ row. row.3.now) result.now ≡ other_lists }
{
    TAKES
}

fn has(kinds: &[Kind], kind: Kind) -> bool
    ensures { result ≡ has kinds.now kind }
{
    kinds.contains(&kind)
}

impl Takes {
    /// The group of kinds that it takes, but for some of them.
    fn group(self) -> Option<Group>
        ensures { result ≡ group_of self }
    {
        takes_rows()[self as usize].1
    }

    /// The kinds of the group that it does not take.
    fn except(self) -> &'static [Kind]
        ensures { result.now ≡ except_of self }
    {
        takes_rows()[self as usize].2
    }

    /// The kinds that it takes beside the group.
    fn others(self) -> &'static [Kind]
        ensures { result.now ≡ others_of self }
    {
        takes_rows()[self as usize].3
    }

    /// Whether it takes nodes of the kind.
    pub fn accepts(self, kind: Kind) -> bool
        ensures { result ≡ accepts self kind }
    {
        if has(self.others(), kind) {
            return true;
        }
        match self.group() {
            None => false,
            Some(group) => kind.belongs(group) && !has(self.except(), kind),
        }
    }

    /// Whether places of the list may be empty.
    pub fn has_holes(self) -> bool
        ensures { result ≡ has_holes self }
    {
        matches!(self, Takes::Element | Takes::PatternItem)
    }
}
