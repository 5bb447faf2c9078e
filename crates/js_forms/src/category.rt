//! What a place in a form takes.

use crate::form::Flow;

/// What a place takes.
#[derive(Clone, Copy, Debug, PartialEq, Eq)]
pub enum Category {
    /// A statement of a list.
    Item,
    /// A statement of a program, or an import or an export.
    ModuleItem,
    /// A statement as the body of another.
    Statement,
    Block,
    FunctionBody,
    ClassBody,
    ClassItem,
    Case,
    Catch,
    /// An expression of a level.
    Expression,
    /// An expression that may yet turn out to be a pattern.
    Cover,
    /// An expression, or one behind `...`.
    Argument,
    /// The same, which may yet turn out to be a pattern.
    Element,
    ObjectItem,
    /// What `new` makes an object of.
    Callee,
    /// What may be assigned to, and is no pattern.
    Target,
    Template,
    /// A name or a pattern that is declared.
    Binding,
    /// The same, perhaps with a default or behind `...`.
    BindingElement,
    /// The same, but not behind `...`.
    BindingValue,
    BindingProperty,
    /// A name that is no reserved word.
    Name,
    AnyName,
    /// The name of a member, which may be a private name.
    Member,
    /// The same behind `super`, where it may not.
    SuperMember,
    /// A key that is not in brackets.
    ObjectKey,
    /// The same in a class, where it may be a private name.
    ClassKey,
    /// The parameters and the body of a method.
    Method(Flow),
    Getter,
    Setter,
    /// The text that names a module.
    Source,
    ImportSpecifier,
    ExportSpecifier,
    /// What an export declares.
    Declaration,
    /// The expression with which the form begins.
    Operand,
    /// What a pattern that assigns takes in place of `Binding`: what may be assigned to, or a
    /// pattern.
    Assigned,
    /// The same, perhaps with a default or behind `...`.
    AssignedElement,
    /// The same, but not behind `...`.
    AssignedValue,
    AssignedProperty,
    /// The characters of a template between its expressions.
    Characters,
    /// The body of an arrow: an expression, or the body of a function.
    ArrowBody,
    /// A name, or a name with a default, that is a property's key as well.
    ShortValue,
    /// A declaration of variables, or an expression.
    ForInit,
    /// A declaration of one variable without a value, or what the loop assigns to.
    ForLeft,
    /// What a declaration of variables declares.
    Declarator,
    /// The one declarator of a declaration before `in` or `of`.
    LoneDeclarator,
    ImportDefault,
    ImportNamespace,
    /// What an import brings in: a default, a namespace, names.
    Imports,
    /// A name that is exported without a source.
    OwnExport,
    /// A function or a class that is exported by default.
    DefaultDeclaration,
}
