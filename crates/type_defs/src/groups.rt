//! Groups of kinds, and what is a node of a kind or of a group.

ghost use Rattle.std.specs.Prelude.{◌≡◌, ◌↔◌, IfSome, IfNone, IsTrue, length, map};
ghost use Rattle.type_defs.specs.Groups.{all_groups, group_names, are_groups_in_order, group_name, groups_of, is_among, belongs, stands_for, is_a, type_name, LacksGroup, LacksType};

use crate::kind::{Kind, kind_of};
use crate::kind_table::kind_rows;

/// A group of kinds.
#[derive(Clone, Copy, Debug, PartialEq, Eq)]
pub enum Group {
    Expression,
    Statement,
    Declaration,
    Pattern,
    Function,
    Class,
}

/// A kind or a group: what jscodeshift calls a type.
#[derive(Clone, Copy, Debug, PartialEq, Eq)]
pub enum NodeType {
    Kind(Kind),
    Group(Group),
}

/// A row for each group, in the order of the enum.
pub const GROUPS: &[(Group, &str)] = &[
    (Group::Expression, "Expression"),
    (Group::Statement, "Statement"),
    (Group::Declaration, "Declaration"),
    (Group::Pattern, "Pattern"),
    (Group::Function, "Function"),
    (Group::Class, "Class"),
];

#[tactic(auto, unfolding(crate::specs::Groups::all_groups, crate::specs::Groups::group_names, crate::specs::Rows::in_order))]
fn group_rows() -> &'static [(Group, &'static str)]
    ensures count { length result.now ≡ 6 }
    ensures order { IsTrue (are_groups_in_order all_groups) }
    ensures groups { map (λ row. row.0) result.now ≡ all_groups }
    ensures names { map (λ row. row.1.now) result.now ≡ group_names }
{
    GROUPS
}

impl Group {
    /// The group's name, as ESTree's interface of the same name.
    pub fn name(self) -> &'static str
        ensures { result.now ≡ group_name self }
    {
        group_rows()[self as usize].1
    }
}

// The group of this name.
fn group_of(name: &str) -> Option<Group>
    ensures found { IfSome result (λ group. group_name group ≡ name.now) }
    ensures missing { IfNone result (LacksGroup name.now) }
{
    for row in group_rows() {
        if is_called(row.0, name) {
            return Some(row.0);
        }
    }
    None
}

fn is_called(group: Group, name: &str) -> bool
    ensures { IsTrue result ↔ (group_name group ≡ name.now) }
{
    group.name() == name
}

/// The kind or the group of this name.
pub fn type_of(name: &str) -> Option<NodeType>
    ensures found { IfSome result (λ of. type_name of ≡ name.now) }
    ensures missing { IfNone result (LacksType name.now) }
{
    if let Some(kind) = kind_of(name) {
        return Some(NodeType::Kind(kind));
    }
    match group_of(name) {
        Some(group) => Some(NodeType::Group(group)),
        None => None,
    }
}

impl Kind {
    /// Whether the group has the kind.
    pub fn belongs(self, group: Group) -> bool
        ensures { result ≡ belongs self group }
    {
        is_among(kind_rows()[self as usize].3, group)
    }
}

fn is_among(groups: &[Group], group: Group) -> bool
    ensures { result ≡ is_among groups.now group }
{
    for one in groups {
        if *one == group {
            return true;
        }
    }
    false
}

// Whether a node of the kind counts as one of another kind too: ESTree's `Directive` extends
// `ExpressionStatement`, and its `AssignmentProperty` extends `Property`.
fn stands_for(kind: Kind, other: Kind) -> bool
    ensures { result ≡ stands_for kind other }
{
    (kind == Kind::AssignmentProperty && other == Kind::Property)
        || (kind == Kind::Directive && other == Kind::ExpressionStatement)
}

/// Whether a node of the kind is of the type.
pub fn is_a(kind: Kind, of: NodeType) -> bool
    ensures { result ≡ is_a kind of }
{
    match of {
        NodeType::Kind(other) => kind == other || stands_for(kind, other),
        NodeType::Group(group) => kind.belongs(group),
    }
}
